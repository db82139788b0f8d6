//! `end STEP`: drives one end of a subflow, over all such lines: what comes to it, what goes out of it, its timer. `open ISS MSS` and
//! `listen ISS MSS` begin anew with such an end, and `show` tells its state, SND.UNA, SND.NXT, the receive edge and the room of its
//! window; the comment of each function says its step.

ghost use Rattle.std.specs.Prelude.{◌<◌, ◌≤◌, ◌≡◌, ◌^◌, length, None, false};

use case_fields::Case;
use octet_text::Text;
use segment_wire::{Addresses, Head, parse, write};
use seq_units::Mapping;
use subflow_tcp::{Emission, Hint, State, Subflow};

/// The addresses of path 0, from A to B.
const ADDRESSES: Addresses = Addresses {
    source: [10, 0, 0, 1],
    destination: [10, 0, 0, 2],
};

/// Octets that are pushed without a meaning for the stream.
pub const NO_MAPPING: Mapping = Mapping {
    number: 0,
    relative: 0,
    length: 0,
    checksum: 0,
};

/// No layer stands above the end, and every payload is kept.
pub const HINT: Hint = Hint {
    data_ack: None,
    keep: true,
};

pub fn end(case: &mut Case, end: &mut Subflow) {
    match case.word() {
        "open" => begin(case, end, true),
        "listen" => begin(case, end, false),
        "arrive" => arrive(case, end),
        "grow" => grow(case, end),
        "push" => push(case, end),
        "emit" => emit(case, end),
        "show" => show(case, end),
        name => change(case, end, name),
    }
}

/// What comes to the end from itself: its reader, its timer, its close.
fn change(case: &mut Case, end: &mut Subflow, name: &str) {
    match name {
        "read" => {
            pass(end);
            case.tell(&end.edge());
        }
        "hold" => hold(case, end),
        "fire" => fire(case, end),
        "finish" => finish(case, end),
        "owe" => owe(case, end),
        "kill" => kill(case, end),
        _ => case.refuse(),
    }
}

/// `open ISS MSS` or `listen ISS MSS`.
fn begin(case: &mut Case, end: &mut Subflow, opens: bool) {
    let iss: u32 = case.number();
    let mss: u16 = case.number();
    if mss == 0 {
        return case.refuse();
    }
    *end = if opens {
        Subflow::open(case.alloc, 0, iss, mss)
    } else {
        Subflow::listen(case.alloc, 0, iss, mss)
    };
    case.tell(&end.state());
}

/// `show`.
fn show(case: &mut Case, end: &Subflow) {
    case.tell(&end.state());
    case.put(" ");
    let room = u64::from(end.room());
    case.put_numbers(" ", &[end.una(), end.nxt(), end.edge(), room]);
}

/// The header that the next fields tell: letters of `FSRA`, or `-`, the number, the acknowledgement and the window.
fn head_of(case: &mut Case) -> Head {
    let bits = case.word();
    Head {
        source_port: 0,
        destination_port: 0,
        seq: case.number(),
        ack: case.number(),
        syn: bits.contains('S'),
        fin: bits.contains('F'),
        rst: bits.contains('R'),
        ack_set: bits.contains('A'),
        window: case.number(),
    }
}

/// `arrive BITS SEQ ACK WINDOW LENGTH TICK`: what the end answers to these octets.
fn arrive(case: &mut Case, end: &mut Subflow) {
    let head = head_of(case);
    let length: u16 = case.number();
    let tick: u32 = case.number();
    if length > 65_515 {
        return case.refuse();
    }
    let Ok(payload) = vec![in case.alloc; 0u8; usize::from(length)] else {
        return case.fail();
    };
    let Ok(octets) = write(case.alloc, &head, &ADDRESSES, &[], payload.as_slice()) else {
        return case.fail();
    };
    arrive_as(case, end, octets.as_slice(), tick);
}

/// Octets of a segment come to the end at this tick.
fn arrive_as(case: &mut Case, end: &mut Subflow, octets: &[u8], tick: u32) {
    let Ok(segment) = parse(octets, &ADDRESSES) else {
        return case.refuse();
    };
    if segment.payload().len() > 65_535 {
        return case.refuse();
    }
    case.tell_made(end.arrive(&segment, &HINT, u64::from(tick)));
}

/// The receive edge moves over what is in order and over a FIN behind it; `read` shows it then.
pub fn pass(end: &mut Subflow) {
    let to = end.held_end();
    end.advance(to);
    if end.is_fin_next() {
        end.pass_fin();
    }
}

/// `grow OCTETS`: the room of the window, after it grew by so many octets where that was to be told.
fn grow(case: &mut Case, end: &mut Subflow) {
    case.tell(&end.pending());
    end.grow(case.number());
    case.tell_behind(" ", &end.room());
}

/// `push LENGTH`: the position of a piece of so many octets.
fn push(case: &mut Case, end: &mut Subflow) {
    let length: u32 = case.number();
    if length == 0 || length > 65_475 || end.is_finished() || end.nxt() >= 1 << 61 {
        return case.refuse();
    }
    let Ok(piece) = vec![in case.alloc; 0u8; length as usize] else {
        return case.fail();
    };
    case.tell_made(end.push(&Text::from(piece), &NO_MAPPING));
}

/// `emit TICK`: the segment that goes out at this tick, or `nothing`.
fn emit(case: &mut Case, end: &mut Subflow) {
    let tick: u32 = case.number();
    let foreseen = end.emission();
    let emission = end.emit(u64::from(tick));
    if emission != foreseen {
        return case.put("another segment than was foreseen");
    }
    match emission {
        Some(emission) => put_emission(case, &emission),
        None => case.put("nothing"),
    }
}

/// A letter for a flag that is set.
fn letter(flag: bool, letter: &str) -> &str {
    if flag { letter } else { "" }
}

/// Flags, number, acknowledgement and length.
fn put_emission(case: &mut Case, emission: &Emission) {
    let head = emission.head;
    case.put(letter(head.syn, "S"));
    case.put(letter(head.fin, "F"));
    case.put(letter(head.rst, "R"));
    case.put(letter(head.ack_set, "A"));
    case.put(" ");
    let (seq, ack, length) = (
        u64::from(head.seq),
        u64::from(head.ack),
        u64::from(emission.length),
    );
    case.put_numbers(" ", &[seq, ack, length]);
}

/// `hold TICK`: the timer after it is settled, without a reason of a layer above.
fn hold(case: &mut Case, end: &mut Subflow) {
    let tick: u32 = case.number();
    end.hold_timer(false, false, u64::from(tick));
    case.tell(&end.timer());
}

/// `fire TICK`: what the expiry comes to, and the timer after it.
fn fire(case: &mut Case, end: &mut Subflow) {
    let tick: u32 = case.number();
    if end.timer().is_none() {
        return case.refuse();
    }
    case.tell(&end.fire(u64::from(tick)));
    case.tell_behind(" ", &end.timer());
}

/// `finish`: the FIN is due.
fn finish(case: &mut Case, end: &mut Subflow) {
    if !end.state().may_finish() || end.is_finished() {
        return case.refuse();
    }
    end.finish();
    case.tell(&end.state());
}

/// `owe 1` or `owe 0`: an acknowledgement is due, one below SND.UNA or at SND.NXT.
fn owe(case: &mut Case, end: &mut Subflow) {
    if end.una() == 0 || matches!(end.state(), State::Dead) {
        return case.refuse();
    }
    end.ack_due(case.truth());
    case.put("owed");
}

/// `kill 1` or `kill 0`: the end dies, with a reset or without.
fn kill(case: &mut Case, end: &mut Subflow) {
    end.kill(case.truth());
    case.tell(&end.state());
}
