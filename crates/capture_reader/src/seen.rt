//! The TCP segment of a captured packet.

ghost use Rattle.std.specs.Prelude.{◌≡◌, ◌≤◌, length, option_map};
ghost use Rattle.segment_wire.specs.Reading.{segment_of};
ghost use Rattle.capture_reader.specs.Captured.{as_captured};
ghost use Rattle.capture_reader.specs.Carried.{as_carried};
ghost use Rattle.capture_reader.specs.Seen.{as_seen, is_cut, is_sum_right, has_good_sum, seen_of, segment_in, segment_in_packet};

use crate::capture::CapturedPacket;
use crate::internet::{Carried, carried_by, octets_of};
use crate::link::internet_packet;
use crate::order::u16_at;
use key_material::Address;
use segment_wire::{SegmentRef, covered_sum_between, parts_of, pseudo_sum_between};

/// One end of a TCP connection.
#[derive(Clone, Copy, Debug, PartialEq, Eq)]
pub struct End {
    pub address: Address,
    pub port: u16,
}

/// A TCP segment as it was captured.
#[derive(Clone, Copy)]
pub struct SeenSegment<'a> {
    pub source: End,
    pub destination: End,
    /// The fields, the options and the octets of the payload that are held, lent from the capture. The options may be broken.
    pub segment: SegmentRef<'a>,
    /// How many octets the payload had, held or not.
    pub payload_len: usize,
    /// Whether fewer octets are held than the segment had.
    pub is_cut: bool,
    /// Whether the sum over pseudo-header and segment is ffff, or the field holds the sum of the pseudo-header, which a device was
    /// to complete. That of a cut segment isn't looked at.
    pub has_good_sum: bool,
}

/// The TCP segment of a captured packet, if it carries one whose header is held whole (RFC 9293, section 3.1). Answers for all
/// octets, and takes no memory.
#[tactic(auto, unfolding(crate::specs::Seen::segment_in_packet))]
pub fn segment_of<'a>(packet: &CapturedPacket<'a>) -> Option<SeenSegment<'a>>
    ensures { option_map as_seen result ≡ segment_in_packet (as_captured packet.now) }
{
    segment_in(&carried_by(internet_packet(packet.link, packet.octets)?)?)
}

#[tactic(auto, unfolding(crate::specs::Seen::segment_in))]
fn segment_in<'a>(carried: &Carried<'a>) -> Option<SeenSegment<'a>>
    ensures { option_map as_seen result ≡ segment_in (as_carried carried.now) }
{
    match parts_of(carried.octets) {
        Ok(segment) => Some(seen_of(carried, segment)),
        Err(_) => None,
    }
}

#[tactic(auto, unfolding(crate::specs::Seen::seen_of))]
fn seen_of<'a>(carried: &Carried<'a>, segment: SegmentRef<'a>) -> SeenSegment<'a>
    requires { 20 ≤ length carried.now.octets.now }
    ensures { as_seen result ≡ seen_of (as_carried carried.now) (segment_of segment.entry) }
{
    let header_len = 4 * usize::from(carried.octets[12] >> 4);
    SeenSegment {
        source: End {
            address: carried.source,
            port: segment.head.source_port,
        },
        destination: End {
            address: carried.destination,
            port: segment.head.destination_port,
        },
        segment,
        payload_len: carried.size.saturating_sub(header_len),
        is_cut: carried.octets.len() < carried.size,
        has_good_sum: has_good_sum(carried),
    }
}

#[tactic(auto, unfolding(crate::specs::Seen::has_good_sum))]
fn has_good_sum(carried: &Carried<'_>) -> bool
    requires { 20 ≤ length carried.now.octets.now }
    ensures { result ≡ has_good_sum (as_carried carried.now) }
{
    carried.octets.len() < carried.size || is_sum_right(carried)
}

#[tactic(auto, unfolding(crate::specs::Seen::is_sum_right))]
fn is_sum_right(carried: &Carried<'_>) -> bool
    requires { 20 ≤ length carried.now.octets.now }
    ensures { result ≡ is_sum_right (as_carried carried.now) }
{
    if carried.octets.len() > 0xFFFF_FFFF {
        return false;
    }
    let source = octets_of(&carried.source);
    let destination = octets_of(&carried.destination);
    covered_sum_between(source, destination, carried.octets) == 0xFFFF
        || u16_at(carried.octets, 16)
            == pseudo_sum_between(source, destination, carried.octets.len() as u32)
}
