//! `segment SOURCE DESTINATION OCTETS`: what `segment_wire::parse` answers between these addresses: the fault, or the
//! head, each option with what it tells, and the payload.
//!
//! `written SOURCE DESTINATION PORT PORT SEQ ACK BITS WINDOW OPTIONS PAYLOAD`: the octets that `segment_wire::write`
//! makes, and the checksum field that `segment_wire::checksum_field` tells; `BITS` are letters of `FSRA`, or `-`.

ghost use Rattle.std.specs.Prelude.{◌≤◌};

use case_fields::Case;
use segment_wire::options::{are_whole, mss, window_scale};
use segment_wire::{Addresses, Head, SegmentRef, checksum_field, parse, write};

fn addresses_of(case: &mut Case) -> Addresses {
    Addresses {
        source: case.four(),
        destination: case.four(),
    }
}

pub fn segment(case: &mut Case) {
    let addresses = addresses_of(case);
    let octets = case.octets();
    match parse(octets.as_slice(), &addresses) {
        Ok(segment) => put_segment(case, &segment),
        Err(fault) => case.tell(&fault),
    }
}

fn put_segment(case: &mut Case, segment: &SegmentRef<'_>) {
    case.tell(&segment.head);
    for option in segment.options() {
        put_option(case, option);
    }
    case.put(" payload ");
    case.put_digits(segment.payload());
}

fn put_option(case: &mut Case, option: &[u8]) {
    case.put(" option ");
    case.put_digits(option);
    if let Some(size) = mss(option) {
        case.tell_behind(" mss ", &size);
    }
    if let Some(shift) = window_scale(option) {
        case.tell_behind(" shift ", &shift);
    }
}

fn head_of(case: &mut Case) -> Head {
    let (source_port, destination_port) = (case.number(), case.number());
    let (seq, ack) = (case.number(), case.number());
    let bits = case.word();
    Head {
        source_port,
        destination_port,
        seq,
        ack,
        syn: bits.contains('S'),
        fin: bits.contains('F'),
        rst: bits.contains('R'),
        ack_set: bits.contains('A'),
        window: case.number(),
    }
}

pub fn written(case: &mut Case) {
    let addresses = addresses_of(case);
    let head = head_of(case);
    let options = case.octets();
    let payload = case.octets();
    put_written(
        case,
        &head,
        &addresses,
        options.as_slice(),
        payload.as_slice(),
    );
}

fn put_written(
    case: &mut Case,
    head: &Head,
    addresses: &Addresses,
    options: &[u8],
    payload: &[u8],
) {
    if options.len() > 40 || options.len() % 4 != 0 || !are_whole(options) {
        return case.refuse();
    }
    if payload.len() > 65_515 - options.len() {
        return case.refuse();
    }
    match write(case.alloc, head, addresses, options, payload) {
        Ok(octets) => case.put_digits(octets.as_slice()),
        Err(_) => case.fail(),
    }
    case.tell_behind(" ", &checksum_field(head, addresses, options, payload));
}
