//! Hearing a segment.

ghost use Rattle.std.specs.Prelude.{◌≡◌, ◌≤◌, Some, None, if◌then◌else◌, length, option_map, IfSome};
ghost use Rattle.sides.specs.Side.{peer};
ghost use Rattle.segment_wire.specs.Options.{option_octets};
ghost use Rattle.segment_wire.specs.Reading.{segment_of};
ghost use Rattle.path_segments.specs.Heard.{number_means, first_mss, window_heard, heard_segment, heard_in};
ghost use Rattle.path_segments.specs.HeardLent.{IsExpected};
ghost use Rattle.path_segments.specs.HeardSegments.{heard_value, IsHeardShort};

use crate::expected::Expected;
use crate::heard::{HeardOptions, HeardSegment};
use crate::position::HeardPosition;
use crate::segment::PathSegment;
use crate::spelling::Spelling;
use segment_wire::options::mss;
use segment_wire::{SegmentRef, addresses_from, parse};
use sides::Side;

/// What these octets of a side say to the other one, which expects these positions and places next, or none where they
/// are no segment. Answers for all octets, copies nothing and takes no memory. Ports are not looked at: the path has
/// brought the octets. The payload has at most 65,515 octets, and the position is below 2^63.
pub fn parse_segment<'a>(
    spelling: &Spelling,
    from: Side,
    expected: &Expected,
    octets: &'a [u8],
) -> Option<HeardSegment<'a>>
    requires { IsExpected expected.now }
    ensures value { option_map heard_value result ≡
        heard_in spelling.now from expected.now octets.now }
    ensures short { IfSome result (λ heard. IsHeardShort (heard_value heard)) }
{
    match parse(octets, &addresses_from(spelling.path, from)) {
        Ok(segment) => Some(heard_segment(spelling, from, expected, &segment)),
        Err(_) => None,
    }
}

fn heard_segment<'a>(
    spelling: &Spelling,
    from: Side,
    expected: &Expected,
    segment: &SegmentRef<'a>,
) -> HeardSegment<'a>
    requires expected { IsExpected expected.now }
    requires payload { length (segment_of segment.now).payload ≤ 65515 }
    ensures value { heard_value result ≡
        heard_segment spelling.now from expected.now (segment_of segment.now) }
    ensures short { IsHeardShort (heard_value result) }
{
    let head = segment.head;
    PathSegment {
        position: spelling.number_means(from, expected.edge, head.seq),
        acknowledged: acknowledged_heard(spelling, from, expected, head.ack_set, head.ack),
        syn: head.syn,
        fin: head.fin,
        rst: head.rst,
        window: window_heard(head.syn, head.window),
        mss: mss_heard(head.syn, segment),
        options: HeardOptions::of(segment.options(), spelling, from, expected),
        payload: segment.payload(),
    }
}

fn acknowledged_heard(
    spelling: &Spelling,
    from: Side,
    expected: &Expected,
    ack_set: bool,
    ack: u32,
) -> Option<HeardPosition>
    requires { IsExpected expected.now }
    ensures { result ≡
        (if ack_set then Some
        (number_means spelling.now (peer from) expected.now.unacknowledged ack) else None) }
{
    if ack_set {
        Some(spelling.number_means(from.peer(), expected.unacknowledged, ack))
    } else {
        None
    }
}

fn window_heard(syn: bool, window: u16) -> u32
    ensures { result ≡ window_heard syn window }
{
    if syn {
        u32::from(window)
    } else {
        32 * u32::from(window)
    }
}

fn mss_heard(syn: bool, segment: &SegmentRef<'_>) -> Option<u16>
    ensures { result ≡
        (if syn then first_mss (option_octets (segment_of segment.now).options) else None) }
{
    if syn { first_mss(segment) } else { None }
}

/// The first maximum segment size that an option tells.
fn first_mss(segment: &SegmentRef<'_>) -> Option<u16>
    ensures { result ≡ first_mss (option_octets (segment_of segment.now).options) }
{
    for option in segment.options() {
        if let Some(size) = mss(option) {
            return Some(size);
        }
    }
    None
}
