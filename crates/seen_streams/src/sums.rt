//! The checksums of mappings.

ghost use Rattle.std.specs.Int.{int_rem_euclid};
ghost use Rattle.std.specs.Prelude.{◌≡◌, ◌^◌, ◌<◌, pos, OnOk, true};
ghost use Rattle.dss_checksum.specs.Checksum.{dss_checksum};
ghost use Rattle.seen_octets.specs.Octets.{all_held, octet_at};
ghost use Rattle.seen_streams.specs.Mapped.{octets_of};
ghost use Rattle.judge_rules.specs.Mappings.{natural};
ghost use Rattle.seen_streams.specs.Shows.{lane_of, stream_of};
ghost use Rattle.seen_streams.specs.Waits.{all_waiting, still_open, HaveGaps};
ghost use Rattle.seen_streams.specs.Sums.{are_alike, expected_sum, header_of, held_octets, is_whole, still_waiting, sum_fault, summed_by, tried_if_whole, tried_sum, tried_sums, with_sum, with_sums, wrong_sum};

use crate::lane::Lane;
use crate::stream::Stream;
use crate::told::{ToldMapping, Waiting, natural};
use crate::waits::{Waits, wait_on, wake};
use dss_checksum::DssSum;
use judge_rules::{Finding, Rule};
use seen_octets::SeenOctets;
use seq_units::Mapping;
use std::alloc::AllocError;

/// The mappings of a segment with a checksum wait for their octets, each once.
///
/// # Errors
///
/// Want of memory.
pub fn add_sums(lane: &mut Lane, packet: u32, mappings: &[ToldMapping]) -> Result<(), AllocError>
    ensures { OnOk result (lane_of lane.new ≡ with_sums packet mappings.now (lane_of lane.old)) }
{
    for mapping in mappings {
        add_sum(lane, packet, mapping)?;
    }
    Ok(())
}

fn add_sum(lane: &mut Lane, packet: u32, mapping: &ToldMapping) -> Result<(), AllocError>
    ensures { OnOk result (lane_of lane.new ≡ summed_by packet mapping.now (lane_of lane.old)) }
{
    if mapping.checksum.is_some() {
        add_once(lane, packet, mapping)
    } else {
        Ok(())
    }
}

// Adds the sum of a mapping with a checksum, where none of its positions is summed yet.
#[tactic(auto, using(crate::proofs::Summing::sum_added, crate::proofs::Summing::sum_stays))]
fn add_once(lane: &mut Lane, packet: u32, mapping: &ToldMapping) -> Result<(), AllocError>
    ensures { OnOk result (lane_of lane.new ≡ with_sum packet mapping.now (lane_of lane.old)) }
{
    if lane.is_summed(mapping) {
        return Ok(());
    }
    lane.keep_summed(mapping)?;
    lane.keep_waiting(mapping, packet)
}

/// Tries the checksums of mappings all of whose octets are held, and lets the others wait on. `first` is the data number of place 0.
///
/// # Errors
///
/// Want of memory.
pub fn try_sums(
    stream: &mut Stream<'_>,
    lane: &mut Lane,
    packet: u32,
    first: u64,
) -> Result<(), AllocError>
    ensures stream { OnOk result
        (stream_of stream.new ≡ tried_sums packet first (lane_of lane.old).octet
        (lane_of lane.old).waiting (stream_of stream.old)) }
    ensures lane { OnOk result (lane_of lane.new ≡ still_waiting (lane_of lane.old)) }
{
    try_waits(stream, &lane.octets, &mut lane.waits, packet, first)
}

// Tries the mappings that wait, where a gap of theirs may have got its octet, and those that came since.
fn try_waits(
    stream: &mut Stream<'_>,
    octets: &SeenOctets,
    waits: &mut Waits,
    packet: u32,
    first: u64,
) -> Result<(), AllocError>
    requires { HaveGaps (octet_at octets.now) waits.old }
    ensures gaps { HaveGaps (octet_at octets.now) waits.new }
    ensures stream { OnOk result (stream_of stream.new ≡
        tried_sums packet first (octet_at octets.now) (all_waiting waits.old)
        (stream_of stream.old)) }
    ensures waits { OnOk result (all_waiting waits.new ≡
        still_open (octet_at octets.now) (all_waiting waits.old)) }
{
    wake(waits)?;
    try_each(stream, octets, &waits.fresh, packet, first)?;
    wait_on(octets, waits)
}

fn try_each(
    stream: &mut Stream<'_>,
    octets: &SeenOctets,
    waiting: &[Waiting],
    packet: u32,
    first: u64,
) -> Result<(), AllocError>
    ensures { OnOk result (stream_of stream.new ≡ tried_sums packet first (octet_at octets.now)
        waiting.now (stream_of stream.old)) }
{
    for one in waiting {
        try_one(stream, octets, one, packet, first)?;
    }
    Ok(())
}

fn try_one(
    stream: &mut Stream<'_>,
    octets: &SeenOctets,
    waiting: &Waiting,
    packet: u32,
    first: u64,
) -> Result<(), AllocError>
    ensures { OnOk result (stream_of stream.new ≡ tried_if_whole packet first (octet_at octets.now)
        waiting.now (stream_of stream.old)) }
{
    if is_whole(octets, waiting) {
        try_sum(stream, octets, waiting, packet, first)
    } else {
        Ok(())
    }
}

// Whether all octets of a mapping are held.
#[tactic(auto, using(crate::proofs::Summing::whole_is))]
fn is_whole(octets: &SeenOctets, waiting: &Waiting) -> bool
    ensures { result ≡ is_whole (octet_at octets.now) waiting.now }
{
    let from = natural(waiting.mapping.position);
    octets.is_whole(from, from + waiting.mapping.octets())
}

// Tries the checksum of one.
fn try_sum(
    stream: &mut Stream<'_>,
    octets: &SeenOctets,
    waiting: &Waiting,
    packet: u32,
    first: u64,
) -> Result<(), AllocError>
    requires { is_whole (octet_at octets.now) waiting.now ≡ true }
    ensures { OnOk result (stream_of stream.new ≡ tried_sum packet first (octet_at octets.now)
        waiting.now (stream_of stream.old)) }
{
    stream.count_sum();
    match sum_fault(octets, waiting, first) {
        Some(finding) => stream.find(Rule::DssSum, packet, finding),
        None => Ok(()),
    }
}

fn sum_fault(octets: &SeenOctets, waiting: &Waiting, first: u64) -> Option<Finding>
    requires { is_whole (octet_at octets.now) waiting.now ≡ true }
    ensures { result ≡ sum_fault first (octet_at octets.now) waiting.now }
{
    let expected = expected_sum(octets, &waiting.mapping, first);
    wrong_sum(expected, waiting.mapping.checksum.unwrap_or(0), waiting)
}

fn wrong_sum(expected: u16, was: u16, waiting: &Waiting) -> Option<Finding>
    ensures { result ≡ wrong_sum expected was waiting.now }
{
    if are_alike(expected, was) {
        return None;
    }
    Some(Finding::WrongSum {
        place: waiting.mapping.place,
        length: waiting.mapping.length,
        packet: waiting.packet,
        expected,
        was,
    })
}

// 0000 and ffff are one.
fn are_alike(expected: u16, was: u16) -> bool
    ensures { result ≡ are_alike expected was }
{
    expected == was || expected % 0xFFFF == 0 && was % 0xFFFF == 0
}

// The checksum of a mapping all of whose octets are held.
fn expected_sum(octets: &SeenOctets, mapping: &ToldMapping, first: u64) -> u16
    requires { all_held (octet_at octets.now) (natural mapping.now.position) (octets_of mapping.now)
        ≡ true }
    ensures { result ≡ expected_sum first (octet_at octets.now) mapping.now }
{
    let header = header_of(mapping, first);
    sum_from(octets, &header, mapping.from(), mapping.octets())
}

// The checksum of so many positions from one on, all of which are held.
#[tactic(auto, using(crate::proofs::Summing::sum_begun, crate::proofs::Summing::sum_more, crate::proofs::Summing::sum_made, crate::proofs::Summing::has_room, crate::proofs::Summing::goes_on))]
fn sum_from(octets: &SeenOctets, header: &Mapping, from: u64, count: u64) -> u16
    requires from { from < 2 ^ 63 }
    requires count { count < 2 ^ 16 }
    requires held { all_held (octet_at octets.now) from count ≡ true }
    ensures { result ≡ dss_checksum header.now (held_octets (octet_at octets.now) from count) }
{
    let to = from + count;
    let mut sum = DssSum::new(header);
    let mut position = from;
    while position < to {
        let part = octets.piece(position, to);
        sum.add(part);
        position += part.len() as u64;
    }
    sum.make()
}

fn header_of(mapping: &ToldMapping, first: u64) -> Mapping
    ensures { result ≡ header_of first mapping.now }
{
    Mapping {
        number: first.wrapping_add(mapping.place),
        relative: relative_of(mapping.position),
        length: mapping.length,
        checksum: 0,
    }
}

fn relative_of(position: i64) -> u32
    ensures { result ≡ natural (int_rem_euclid position (pos (2 ^ 32))) }
{
    position.rem_euclid(1 << 32) as u32
}
