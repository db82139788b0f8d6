//! `modes MODE`: where a side in this mode stands after every event, whether it joined or not, whether the path is the sole one
//! or not, and whether a checksum was wrong on it, on another path or on none: one line for each case.

use crate::logs::mode_of;
use case_fields::Case;
use fallback_state::{Event, Fall, Mode, fall_step};

const EVENTS: [Event; 11] = [
    Event::PlainHandshake,
    Event::PlainData,
    Event::PlainAck,
    Event::KeysHeard,
    Event::MappingHeard,
    Event::AckHeard,
    Event::InfiniteHeard,
    Event::CheckFailed,
    Event::FailHeard { contiguous: false },
    Event::FailHeard { contiguous: true },
    Event::Stop,
];

pub fn modes(case: &mut Case) {
    let mode = mode_of(case);
    for joined in [false, true] {
        put_failures(case, mode, joined, false);
        put_failures(case, mode, joined, true);
    }
    // the program ends the last line
    case.take_back();
}

/// A wrong checksum on no path, on this one, on another.
fn put_failures(case: &mut Case, mode: Mode, joined: bool, sole: bool) {
    for failed in [None, Some(0), Some(1)] {
        let before = Fall {
            mode,
            confirmed: false,
            joined,
            failed,
        };
        put_events(case, &before, sole);
    }
}

/// Each event on path 0.
fn put_events(case: &mut Case, before: &Fall, sole: bool) {
    for event in EVENTS {
        put_event(case, before, sole, event);
    }
}

/// Puts where a side stands, and whether the path is the sole one.
fn put_before(case: &mut Case, before: &Fall, sole: bool) {
    case.tell(&before.mode);
    case.tell_behind(" joined ", &before.joined);
    case.tell_behind(" sole ", &sole);
    case.tell_behind(" failed ", &before.failed);
}

/// Puts where a side stands after an event.
fn put_after(case: &mut Case, after: &Fall) {
    case.tell_behind(" ", &after.mode);
    case.tell_behind(" confirmed ", &after.confirmed);
    case.tell_behind(" joined ", &after.joined);
    case.tell_behind(" failed ", &after.failed);
    case.put("\n");
}

fn put_event(case: &mut Case, before: &Fall, sole: bool, event: Event) {
    let (after, verdict) = fall_step(before, 0, sole, event);
    put_before(case, before, sole);
    case.tell_behind(": ", &event);
    case.tell_behind(" = ", &verdict);
    put_after(case, &after);
}
