//! `receive WINDOW STEP ..`: what each step of the receiving side of a subflow answers, once the peer's SYN has come:
//! `accept:POSITION:OCTETS`, `advance:POSITION`, `forget:POSITION`, `hold:POSITION:OCTETS`, `keep`, `drop`; `held` shows the
//! octets in order, `ends` the edge, the end of what is held and the end of the window.
//!
//! `pieces FROM STEP ..`: the same of bytes by place: `put:AT:OCTETS`, `count:AT:OCTETS`, `front:TO`, `back:TO`,
//! `hold:AT:OCTETS`, `keep`, `drop`; `gap`, `parts` and `ends`.

ghost use Rattle.std.specs.Prelude.{◌≤◌, ◌<◌, ◌+◌, ◌^◌, length};

use crate::steps::{Steps, put_steps};
use byte_pieces::{BytePieces, Parts};
use case_fields::Case;
use subflow_recv::SubflowRecv;

/// The last place that a case names.
const LAST: u64 = 1 << 61;

/// Puts the octets of all parts, in one piece.
fn put_joined(case: &mut Case, parts: Parts<'_>) {
    let mut octets = Vec::new(case.alloc);
    for part in parts {
        if octets.extend_from_slice(part.as_slice()).is_err() {
            return case.fail();
        }
    }
    case.put_digits(octets.as_slice());
}

/// Puts octets part by part, with `,` between the parts.
fn put_parts(case: &mut Case, parts: Parts<'_>) {
    let start = case.answered();
    for part in parts {
        if case.answered() > start {
            case.put(",");
        }
        case.put_digits(part.as_slice());
    }
    if case.answered() == start {
        case.put("-");
    }
}

pub fn receive(case: &mut Case) {
    let window: u32 = case.number();
    if window == 0 {
        return case.refuse();
    }
    let mut side = SubflowRecv::new(case.alloc, window);
    if side.edge() < 1 {
        side.pass();
    }
    put_steps(case, &mut side);
}

impl Steps for SubflowRecv {
    fn step(&mut self, case: &mut Case, name: &str) {
        match name {
            "accept" | "hold" => take(case, self, name == "accept"),
            "advance" => advance(case, self),
            "forget" => forget(case, self),
            "keep" => self.keep_held(),
            "drop" => self.drop_held(),
            "held" => put_joined(case, self.held()),
            "ends" => {
                let ends = [self.edge(), self.held_end(), self.window_end()];
                case.put_numbers("/", &ends);
            }
            _ => case.refuse(),
        }
    }
}

/// `accept` or `hold`.
fn take(case: &mut Case, side: &mut SubflowRecv, accepts: bool) {
    let at: u64 = case.number();
    let octets = case.octets();
    take_octets(case, side, accepts, at, octets.as_slice());
}

fn take_octets(case: &mut Case, side: &mut SubflowRecv, accepts: bool, at: u64, octets: &[u8]) {
    if at > LAST || octets.len() > 65_536 {
        return case.refuse();
    }
    if !accepts {
        return case.note(side.hold(at, octets));
    }
    case.tell_made(side.accept(at, octets));
}

fn advance(case: &mut Case, side: &mut SubflowRecv) {
    let to: u64 = case.number();
    if to < side.edge() || side.held_end() < to {
        return case.refuse();
    }
    side.advance(to);
}

fn forget(case: &mut Case, side: &mut SubflowRecv) {
    let from: u64 = case.number();
    if from < side.edge() {
        return case.refuse();
    }
    side.forget_from(from);
}

pub fn pieces(case: &mut Case) {
    let from: u64 = case.number();
    if from > LAST {
        return case.refuse();
    }
    let mut kept = BytePieces::new(case.alloc, from);
    put_steps(case, &mut kept);
}

impl Steps for BytePieces {
    fn step(&mut self, case: &mut Case, name: &str) {
        match name {
            "put" | "count" | "hold" => with_octets(case, self, name),
            "front" => drop_front(case, self),
            "back" => cut_back(case, self),
            "keep" => self.keep_held(),
            "drop" => self.drop_held(),
            "gap" => case.tell(&self.gap_len()),
            "parts" => put_parts(case, self.in_order()),
            "ends" => case.put_numbers("/", &[self.start(), self.in_order_end(), self.top()]),
            _ => case.refuse(),
        }
    }
}

/// `put`, `count` or `hold`.
fn with_octets(case: &mut Case, kept: &mut BytePieces, name: &str) {
    let at: u64 = case.number();
    let octets = case.octets();
    treat_octets(case, kept, name, at, octets.as_slice());
}

fn treat_octets(case: &mut Case, kept: &mut BytePieces, name: &str, at: u64, octets: &[u8]) {
    if at > LAST || octets.len() > 65_536 {
        return case.refuse();
    }
    match name {
        "count" => case.tell(&kept.count_new(at, octets)),
        "put" => case.tell_made(kept.put(at, octets)),
        _ => case.note(kept.hold(at, octets)),
    }
}

fn drop_front(case: &mut Case, kept: &mut BytePieces) {
    let to: u64 = case.number();
    if to < kept.start() || LAST < to {
        return case.refuse();
    }
    kept.drop_front(to);
}

fn cut_back(case: &mut Case, kept: &mut BytePieces) {
    let to: u64 = case.number();
    if to < kept.start() {
        return case.refuse();
    }
    kept.cut_back(to);
}
