//! Data ACKs and MP_FAIL.

ghost use Rattle.std.specs.Prelude.{◌≡◌, ◌-◌, ◌^◌, ◌<◌, ◌≤◌, max, is_none, if◌then◌else◌, IfSome, OnOk};
ghost use Rattle.seen_streams.specs.Acks.{ack_facts, acked_with, ended_by_fin, failed_with, fin_on_line, fin_told, named_place, plain_end, plain_from};
ghost use Rattle.seen_streams.specs.Both.{acked_of};
ghost use Rattle.seen_streams.specs.Shows.{lane_of, stream_of, IsLineBounded};
ghost use Rattle.seen_streams.specs.State.{place_of};

use crate::lane::Lane;
use crate::places::places_from;
use crate::stream::Stream;
use judge_rules::{AckFacts, Finding, Line, Rule, ToldPlace, ack_place};
use mptcp_options::DataNumber;
use std::alloc::AllocError;

/// Behind which place the peers' stream came in plain TCP, on the first subflow, where they sent this lane (RFC 8684, section 3.7): 0 where
/// the first place that is missing didn't come so.
pub fn plain_end(peers: &Stream<'_>, lane: &Lane) -> u64
    ensures { result ≡ plain_end (stream_of peers.now) (lane_of lane.now) }
{
    plain_from(peers.seen.whole(0), lane)
}

// By the first place that is missing.
#[tactic(auto, using(crate::proofs::Plain::nothing_there, crate::proofs::Plain::there))]
fn plain_from(missing: u64, lane: &Lane) -> u64
    requires { missing ≤ 2 ^ 62 }
    ensures { result ≡ plain_from missing (lane_of lane.now) }
{
    let behind = lane.behind();
    if missing + 1 >= behind {
        return 0;
    }
    before_if(is_unplaced(lane, missing + 1), behind)
}

fn is_unplaced(lane: &Lane, position: u64) -> bool
    requires { position < 2 ^ 62 }
    ensures { result ≡ is_none (place_of (lane_of lane.now) position) }
{
    let stretch = places_from(lane, position, position + 1);
    has_none(stretch.place)
}

fn has_none(place: Option<u64>) -> bool
    ensures { result ≡ is_none place }
{
    place.is_none()
}

fn before_if(plain: bool, behind: u64) -> u64
    requires { 0 < behind }
    ensures { result ≡ (if plain then behind - 1 else 0) }
{
    if plain { behind - 1 } else { 0 }
}

/// A Data ACK is of places that were seen, or that came in plain TCP below `plain`, and with the capture taken at its side doesn't fall on
/// its subflow (RFC 8684, sections 3.3.2 and 3.7). `first` is the data number of the peers' place 0.
///
/// # Errors
///
/// Want of memory.
pub fn judge_ack(
    stream: &mut Stream<'_>,
    lane: &mut Lane,
    peers: &Stream<'_>,
    at_sender: bool,
    plain: u64,
    packet: u32,
    first: u64,
    number: &DataNumber,
) -> Result<(), AllocError>
    ensures { OnOk result (acked_of stream.new lane.new
        ≡ acked_with at_sender plain packet first (stream_of peers.now) number.now (acked_of stream.old lane.old)) }
{
    let facts = ack_facts(peers, lane, at_sender, plain, first);
    stream.count_ack();
    match ack_place(&facts, number) {
        Ok(place) => {
            acknowledge(stream, lane, place);
            Ok(())
        }
        Err(finding) => stream.find(Rule::DataAck, packet, finding),
    }
}

fn ack_facts(peers: &Stream<'_>, lane: &Lane, at_sender: bool, plain: u64, first: u64) -> AckFacts
    ensures value { result
        ≡ ack_facts at_sender plain first (stream_of peers.now) (lane_of lane.now) }
    ensures few { result.whole < 2 ^ 63 }
    ensures top { result.top < 2 ^ 63 }
{
    AckFacts {
        first,
        top: peers.top,
        whole: peers.seen.whole(0),
        fin: peers.fin,
        plain,
        highest: if at_sender {
            Some(lane.acknowledged)
        } else {
            None
        },
    }
}

// The highest Data ACK is kept.
fn acknowledge(stream: &mut Stream<'_>, lane: &mut Lane, place: u64)
    ensures stream { stream_of stream.new ≡
        record (stream_of stream.old)
        { acknowledged = max (stream_of stream.old).acknowledged place } }
    ensures lane { lane_of lane.new ≡
        record (lane_of lane.old) { acknowledged = max (lane_of lane.old).acknowledged place } }
{
    stream.acknowledged = stream.acknowledged.max(place);
    lane.acknowledged = lane.acknowledged.max(place);
}

/// MP_FAIL names a mapping of the peers that was learnt (RFC 8684, section 3.7).
///
/// # Errors
///
/// Want of memory, and then nothing was told.
pub fn judge_fail(
    stream: &mut Stream<'_>,
    peers: &Stream<'_>,
    packet: u32,
    first: u64,
    number: u64,
) -> Result<(), AllocError>
    ensures { OnOk result (stream_of stream.new ≡ failed_with packet first (stream_of peers.now)
        number (stream_of stream.old)) }
{
    if peers.starts.has(named_place(first, number)) {
        return Ok(());
    }
    stream.find(Rule::Fail, packet, Finding::NoMapping { number })
}

// The place whose data number this is.
fn named_place(first: u64, number: u64) -> u64
    ensures { result ≡ named_place first number }
{
    number.wrapping_sub(first)
}

/// Under an infinite mapping FIN is the DATA_FIN, where none was told.
pub fn end_by_fin(stream: &mut Stream<'_>, lane: &Lane, packet: u32)
    ensures { stream_of stream.new ≡ ended_by_fin (lane_of lane.now) packet (stream_of stream.old) }
{
    stream.fin = fin_told(stream.fin, lane.line, lane.fin, packet);
}

fn fin_told(
    told: Option<ToldPlace>,
    line: Option<Line>,
    fin: Option<u64>,
    packet: u32,
) -> Option<ToldPlace>
    requires line { IfSome line IsLineBounded }
    requires fin { IfSome fin (λ fin. fin ≤ 2 ^ 61) }
    ensures { result ≡ fin_told told line fin packet }
{
    match told {
        Some(told) => Some(told),
        None => fin_on_line(line, fin, packet),
    }
}

fn fin_on_line(line: Option<Line>, fin: Option<u64>, packet: u32) -> Option<ToldPlace>
    requires line { IfSome line IsLineBounded }
    requires fin { IfSome fin (λ fin. fin ≤ 2 ^ 61) }
    ensures { result ≡ fin_on_line line fin packet }
{
    let line = line?;
    let place = line.place_of(fin?)?;
    Some(ToldPlace { place, packet })
}
