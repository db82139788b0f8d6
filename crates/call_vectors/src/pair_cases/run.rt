//! The run of a case: what happens next, the earliest first.
ghost use Rattle.std.specs.Prelude.{IsSome};

use crate::pair_cases::peer::Peer;
use case_fields::Case;
use link_model::Link;
use sides::Side;

/// More events than any case has.
const MOST_EVENTS: u32 = 1_000_000;

/// What can happen; at one tick in this order.
#[derive(Clone, Copy)]
enum Event {
    /// The path dies.
    Death,
    /// A copy arrives.
    Copy,
    /// The timer of A runs out.
    TimerOfA,
    /// The timer of B runs out.
    TimerOfB,
}

/// Two sides and the link between them.
#[derive(Drop)]
pub struct Run {
    pub a: Peer,
    pub b: Peer,
    pub link: Link,
    /// The tick at which the path dies, where it is still to die.
    pub death: Option<u64>,
}

/// What happens, and when.
#[derive(Clone, Copy)]
struct Coming {
    tick: u64,
    event: Event,
}

/// The earlier one of what happens first so far and another event, if that is to happen at all.
fn earlier(first: Option<Coming>, tick: Option<u64>, event: Event) -> Option<Coming> {
    match (first, tick) {
        (_, None) => first,
        (Some(coming), Some(tick)) if coming.tick <= tick => first,
        (_, Some(tick)) => Some(Coming { tick, event }),
    }
}

impl Run {
    /// A opens, and all goes on up to this tick.
    pub fn play(&mut self, case: &mut Case, until: u32) {
        self.a.settle(case, &mut self.link, 0);
        for _ in 0..MOST_EVENTS {
            let Some(coming) = self.next() else {
                return;
            };
            match u32::try_from(coming.tick) {
                Ok(now) if now <= until => self.treat(case, coming.event, now),
                _ => return,
            }
        }
        case.refuse();
    }

    /// What happens next, and when.
    fn next(&self) -> Option<Coming> {
        let copy = match self.link.due() {
            Some(due) => Some(due.tick),
            None => None,
        };
        let first = earlier(None, self.death, Event::Death);
        let first = earlier(first, copy, Event::Copy);
        let first = earlier(first, self.a.timer(), Event::TimerOfA);
        earlier(first, self.b.timer(), Event::TimerOfB)
    }

    /// All that is under way is lost, and both ends die.
    fn die(&mut self, now: u32) {
        self.death = None;
        self.link.cut();
        self.a.kill(now);
        self.b.kill(now);
    }

    /// The next copy arrives.
    fn deliver(&mut self, case: &mut Case, now: u32) {
        let Some(due) = self.link.due() else {
            return;
        };
        let octets = self.link.deliver(&due);
        match due.to {
            Side::A => {
                self.a.arrive(case, octets.as_slice(), now);
                self.a.settle(case, &mut self.link, now);
            }
            Side::B => {
                self.b.arrive(case, octets.as_slice(), now);
                self.b.settle(case, &mut self.link, now);
            }
        }
    }

    fn treat(&mut self, case: &mut Case, event: Event, now: u32) {
        match event {
            Event::Death => self.die(now),
            Event::Copy => self.deliver(case, now),
            Event::TimerOfA => {
                self.a.fire(now);
                self.a.settle(case, &mut self.link, now);
            }
            Event::TimerOfB => {
                self.b.fire(now);
                self.b.settle(case, &mut self.link, now);
            }
        }
    }

    /// Puts what the sides received, and how their ends stand.
    pub fn put_ends(&self, case: &mut Case) {
        case.put(" A ");
        self.a.put_outcome(case);
        case.put(", B ");
        self.b.put_outcome(case);
    }

    /// Puts how many segments the sides sent.
    pub fn put_segments(&self, case: &mut Case) {
        case.put(" A ");
        let (a, b) = (
            self.link.segments_sent(Side::A),
            self.link.segments_sent(Side::B),
        );
        case.put_numbers(", B ", &[a, b]);
    }
}
