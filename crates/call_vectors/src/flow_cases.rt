//! `flows OCTETS`: the flows and connections that `seen_connections` finds in a capture, whose segments with a wrong sum are counted
//! alone and where no key of an opener becomes known; or the octet of the first block without a form. Of each flow its ends, the packet
//! of its SYN, how many packets it has, how many are cut and how many have a wrong sum; its connection and which side opened it; the
//! numbers of positions 0 and the nonce, once it is open; and `reset`, `over` and `stray`. Of each connection B's key, whether it has
//! checksums, and its first flow.

ghost use Rattle.std.specs.Prelude.{◌≡◌, ◌<◌, ◌≤◌, OnOk};

use crate::packet_cases::put_fault;
use capture_reader::{CapturedPacket, read_capture, segment_of};
use case_fields::Case;
use seen_connections::{Flow, Keys, SeenConnections};
use std::alloc::AllocError;

pub fn flows(case: &mut Case) {
    let octets = case.octets();
    match read_capture(case.alloc, octets.as_slice()) {
        Ok(packets) => put_seen(case, packets.as_slice()),
        Err(fault) => put_fault(case, fault),
    }
}

fn put_seen(case: &mut Case, packets: &[CapturedPacket<'_>]) {
    let mut seen = SeenConnections::new(case.alloc);
    match take_all(&mut seen, packets) {
        Ok(()) => put_flows(case, &seen),
        Err(_) => case.fail(),
    }
}

// Takes the segments of packets that are counted from 1 on.
fn take_all(seen: &mut SeenConnections, packets: &[CapturedPacket<'_>]) -> Result<(), AllocError>
    requires { seen.old.last ≡ 0 }
{
    let mut last: u32 = 0;
    for packet in packets {
        let Some(number) = last.checked_add(1) else {
            return Ok(());
        };
        take_one(seen, number, packet)?;
        last = number;
    }
    Ok(())
}

fn take_one(
    seen: &mut SeenConnections,
    number: u32,
    packet: &CapturedPacket<'_>,
) -> Result<(), AllocError>
    requires { seen.old.last < number }
    ensures { OnOk result (seen.new.last ≤ number) }
{
    if let Some(segment) = segment_of(packet) {
        seen.take(number, &segment, segment.has_good_sum)?;
    }
    Ok(())
}

fn put_flows(case: &mut Case, seen: &SeenConnections) {
    case.say(&seen.connections().len());
    for flow in seen.flows() {
        put_flow(case, flow);
    }
    for keys in seen.connections() {
        put_keys(case, keys);
    }
}

fn put_flow(case: &mut Case, flow: &Flow) {
    case.tell_behind(" / ", &flow.opener);
    case.tell_behind(" ", &flow.other);
    put_counts(case, flow);
    put_belongs(case, flow);
    put_opened(case, flow);
    case.put(if flow.was_reset { " reset" } else { "" });
    case.put(if flow.is_over { " over" } else { "" });
    case.put(if flow.is_stray() { " stray" } else { "" });
}

fn put_counts(case: &mut Case, flow: &Flow) {
    case.say_behind(" ", &flow.first);
    case.say_behind(" ", &flow.packets);
    case.say_behind(" ", &flow.cut);
    case.say_behind(" ", &flow.wrong_sums);
}

fn put_belongs(case: &mut Case, flow: &Flow) {
    if let Some(belongs) = flow.belongs {
        case.say_behind(" of ", &belongs.connection);
        case.put(" by ");
        case.put(belongs.opener.word());
    }
}

fn put_opened(case: &mut Case, flow: &Flow) {
    if let Some(opened) = flow.opened {
        case.put(" open");
        case.say_behind(" ", &opened.opener_base);
        case.say_behind(" ", &opened.other_base);
        case.say_behind(" ", &opened.nonce);
    }
}

fn put_keys(case: &mut Case, keys: &Keys) {
    case.say_behind(" / ", &keys.b);
    case.put(if keys.checksums { " sums " } else { " - " });
    case.say(&keys.flow);
}
