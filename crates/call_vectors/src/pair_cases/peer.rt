//! One side of a case: its end, and what it sends and receives over it.
ghost use Rattle.std.specs.Prelude.{◌<◌, ◌≤◌, ◌≡◌, ◌^◌, length, None};

use crate::books::{are_made, made};
use crate::end_cases::{HINT, NO_MAPPING, pass};
use case_fields::Case;
use link_model::Link;
use segment_wire::{Head, addresses_from, parse, write};
use sides::Side;
use std::alloc::Global;
use subflow_tcp::{Emission, Fired, State, Subflow};

/// The path that the segments go on.
const PATH: u8 = 0;

/// More segments than any side sends at one tick.
const MOST_SEGMENTS: u32 = 10_000;

/// The initial sequence numbers; those of A go over 2^32 on the way.
const FIRST_OF_A: u32 = 0xffff_8000;

const FIRST_OF_B: u32 = 1_000;

/// The window of an end that reads at once what came, 2^20 octets, as a SYN tells it, and in units of 32 octets (RFC 7323,
/// section 2.2).
const WINDOW_OF_SYN: u16 = 65_535;

const WINDOW: u16 = 32_768;

/// When a side closes.
#[derive(Clone, Copy)]
pub enum Closes {
    /// As soon as all its octets are pushed.
    Unasked,
    /// As soon as all its octets are pushed and the peer's FIN came.
    Second,
    /// The side doesn't close.
    Never,
}

/// One side.
#[derive(Drop)]
pub struct Peer {
    side: Side,
    end: Subflow,
    /// How many octets a piece has at most.
    mss: u16,
    /// How many octets are still to be pushed.
    left: u32,
    /// How many were pushed.
    pushed: u32,
    closes: Closes,
    /// How many octets were received.
    received: u64,
    /// Whether each of them is the made one of its place.
    is_exact: bool,
    /// The tick at which the end died.
    died: Option<u32>,
}

/// What is in order is received.
fn receive(end: &Subflow, received: &mut u64, is_exact: &mut bool) {
    for part in end.held() {
        *is_exact = *is_exact && are_made(*received, part);
        *received = received.saturating_add(part.len() as u64);
    }
}

/// Octets of the side `from` come to the end; those that are no segment are dropped.
fn take(case: &mut Case, end: &mut Subflow, from: Side, octets: &[u8], now: u32) {
    let Ok(segment) = parse(octets, &addresses_from(PATH, from)) else {
        return;
    };
    if segment.payload().len() > 65_535 {
        return case.refuse();
    }
    if end.arrive(&segment, &HINT, u64::from(now)).is_err() {
        case.fail();
    }
}

/// The congestion window grows, where that is still to be told, by that of a window that is linked to no other: acknowledged octets times
/// MSS by the window (RFC 5681, section 3.1).
fn grow(end: &mut Subflow, mss: u16) {
    if let Some(pending) = end.pending() {
        let product = u64::from(pending.acked) * u64::from(mss);
        let octets = product.checked_div(u64::from(pending.window)).unwrap_or(0);
        end.grow(u32::try_from(octets).unwrap_or(0));
    }
}

/// Pushes so many made octets from a place on, where that may be done. Answers whether it did.
fn push(case: &mut Case, end: &mut Subflow, place: u32, length: u32) -> bool {
    if length == 0 || length > 65_475 || end.is_finished() || end.nxt() >= 1 << 61 {
        return false;
    }
    let Ok(piece) = made(case.alloc, u64::from(place), u64::from(length)) else {
        case.fail();
        return false;
    };
    if piece.len() != length as usize {
        return false;
    }
    if end.push(&piece, &NO_MAPPING).is_err() {
        case.fail();
    }
    true
}

/// A segment of the end is written and handed to the link.
fn hand(
    case: &mut Case,
    end: &Subflow,
    side: Side,
    emission: &Emission,
    link: &mut Link,
    now: u32,
) {
    let payload = end.payload(emission);
    if payload.len() > 65_515 {
        return case.refuse();
    }
    let window = if emission.head.syn {
        WINDOW_OF_SYN
    } else {
        WINDOW
    };
    let head = Head {
        window,
        ..emission.head
    };
    let Ok(octets) = write(case.alloc, &head, &addresses_from(PATH, side), &[], payload) else {
        return case.fail();
    };
    if link.send(side, octets.as_slice(), u64::from(now)).is_err() {
        case.fail();
    }
}

impl Peer {
    /// A side that has nothing to send: A opens, and B listens.
    pub fn new(alloc: Global, side: Side, mss: u16) -> Self
        requires { 0 < mss }
    {
        let end = match side {
            Side::A => Subflow::open(alloc, PATH, FIRST_OF_A, mss),
            Side::B => Subflow::listen(alloc, PATH, FIRST_OF_B, mss),
        };
        Peer {
            side,
            end,
            mss,
            left: 0,
            pushed: 0,
            closes: Closes::Never,
            received: 0,
            is_exact: true,
            died: None,
        }
    }

    /// Sets how many octets are to be sent, and when the side closes then.
    pub fn is_to_send(&mut self, octets: u32, closes: Closes) {
        self.left = octets;
        self.closes = closes;
    }

    /// The tick at which the timer of the end runs out.
    pub fn timer(&self) -> Option<u64> {
        self.end.timer()
    }

    /// Octets of the other side arrive.
    pub fn arrive(&mut self, case: &mut Case, octets: &[u8], now: u32) {
        take(case, &mut self.end, self.side.peer(), octets, now);
        receive(&self.end, &mut self.received, &mut self.is_exact);
        pass(&mut self.end);
        grow(&mut self.end, self.mss);
    }

    /// The timer of the end ran out: where no record is unacknowledged, the end asks its peer whether it is there.
    pub fn fire(&mut self, now: u32) {
        if self.end.timer().is_none() {
            return;
        }
        let fired = self.end.fire(u64::from(now));
        let is_dead = matches!(self.end.state(), State::Dead);
        if matches!(fired, Fired::Probe) && self.end.una() > 0 && !is_dead {
            self.end.ack_due(true);
        }
    }

    /// The path died.
    pub fn kill(&mut self, now: u32) {
        self.end.kill(false);
        self.note_death(now);
    }

    fn note_death(&mut self, now: u32) {
        if matches!(self.end.state(), State::Dead) && self.died.is_none() {
            self.died = Some(now);
        }
    }

    /// Sends the next segment that is due. Answers whether there was one.
    fn send_next(&mut self, case: &mut Case, link: &mut Link, now: u32) -> bool {
        match self.end.emit(u64::from(now)) {
            Some(emission) => {
                hand(case, &self.end, self.side, &emission, link, now);
                true
            }
            None => false,
        }
    }

    /// Pushes the next piece, where the end may send and has room for it. Answers whether it did.
    fn push_next(&mut self, case: &mut Case) -> bool {
        let length = self.left.min(u32::from(self.mss));
        let may_send = matches!(self.end.state(), State::Established | State::CloseWait);
        if !may_send || self.end.room() < length {
            return false;
        }
        let is_pushed = push(case, &mut self.end, self.pushed, length);
        if is_pushed {
            self.left = self.left.saturating_sub(length);
            self.pushed = self.pushed.saturating_add(length);
        }
        is_pushed
    }

    /// Makes the FIN due, where it is time to close and it may be sent. Answers whether it did.
    fn close_next(&mut self) -> bool {
        let state = self.end.state();
        let is_time = match self.closes {
            Closes::Unasked => self.left == 0,
            Closes::Second => self.left == 0 && matches!(state, State::CloseWait),
            Closes::Never => false,
        };
        if !is_time || !state.may_finish() || self.end.is_finished() {
            return false;
        }
        self.end.finish();
        true
    }

    /// Sends all that is due, and pushes and closes where nothing is; then it settles the timer.
    pub fn settle(&mut self, case: &mut Case, link: &mut Link, now: u32) {
        for _ in 0..MOST_SEGMENTS {
            if !self.send_next(case, link, now) && !self.push_next(case) && !self.close_next() {
                self.end.hold_timer(false, false, u64::from(now));
                return self.note_death(now);
            }
        }
        case.refuse();
    }

    /// Puts what it received, and the state of its end.
    pub fn put_outcome(&self, case: &mut Case) {
        case.tell(&self.received);
        case.put(if self.is_exact { " exact " } else { " wrong " });
        case.tell(&self.end.state());
        if let Some(tick) = self.died {
            case.tell_behind(" at ", &tick);
        }
    }
}
