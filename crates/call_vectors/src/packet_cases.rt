//! `packets OCTETS`: the packets that `capture_reader` reads of a capture, or the octet of the first block without a form. Of each
//! packet its link type, how many octets are held, and whether these are all; and of the segment that it carries, if it carries one,
//! its ends, its head, its options, the payload that is held, how many octets that had, and `cut` or `wrong` where it is so.

use capture_reader::{CaptureFault, CapturedPacket, SeenSegment, read_capture, segment_of};
use case_fields::Case;

pub fn packets(case: &mut Case) {
    let octets = case.octets();
    match read_capture(case.alloc, octets.as_slice()) {
        Ok(packets) => put_packets(case, packets.as_slice()),
        Err(fault) => put_fault(case, fault),
    }
}

/// Puts why octets are no capture.
pub fn put_fault(case: &mut Case, fault: CaptureFault) {
    match fault {
        CaptureFault::Block { octet } => {
            case.say_behind("block at octet ", &octet);
        }
        CaptureFault::Memory => case.fail(),
    }
}

fn put_packets(case: &mut Case, packets: &[CapturedPacket<'_>]) {
    case.say(&packets.len());
    for packet in packets {
        put_packet(case, packet);
    }
}

fn put_packet(case: &mut Case, packet: &CapturedPacket<'_>) {
    case.say_behind(" / ", &packet.link);
    case.say_behind(" ", &packet.octets.len());
    case.put(if packet.whole { " whole" } else { " part" });
    if let Some(seen) = segment_of(packet) {
        put_segment(case, &seen);
    }
}

fn put_segment(case: &mut Case, seen: &SeenSegment<'_>) {
    case.tell_behind(" ", &seen.source);
    case.tell_behind(" ", &seen.destination);
    case.tell_behind(" ", &seen.segment.head);
    case.put(" ");
    case.put_digits(seen.segment.option_octets());
    case.put(" ");
    case.put_digits(seen.segment.payload());
    case.say_behind(" ", &seen.payload_len);
    case.put(if seen.is_cut { " cut" } else { "" });
    case.put(if seen.has_good_sum { "" } else { " wrong" });
}
