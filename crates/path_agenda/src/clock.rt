//! The ticks of a path.

ghost use Rattle.std.specs.Prelude.{◌≡◌, ◌≤◌, ◌<◌, ◌+◌, ◌*◌, ◌-◌, ◌^◌, max};

use std::marker::Model;

/// The tick of a path, and the first tick after its round. A round is 100 ticks, and at most 2^57 rounds follow the
/// first one.
#[derive(Drop)]
pub struct Clock {
    tick: u64,
    until: u64,
}

impl Model for Clock {
    ghost use Rattle.std.specs.Prelude.{◌≤◌, ◌+◌, ◌*◌, ◌^◌};
    ghost use Rattle.path_agenda.specs.Clock.{Clock};

    ghost Value = { Clock };

    ghost view = { λ c. record { tick = c.tick; until = c.until } };

    ghost invariant = { λ c. (c.tick ≤ c.until) × (c.until ≤ 100 * 2 ^ 57 + 100) };
}

impl Clock {
    /// The clock of the first round, which goes from tick 0 to tick 99.
    pub fn new() -> Self
        ensures { result ≡ record { tick = 0; until = 100 } }
    {
        Clock {
            tick: 0,
            until: 100,
        }
    }

    /// The tick, below 2^64 - 2^20, so that a delay of fewer than 2^20 ticks can be added.
    pub fn now(&self) -> u64
        ensures value { result ≡ self.now.tick }
        ensures bound { result < 2 ^ 64 - 2 ^ 20 }
    {
        self.tick
    }

    /// The first tick after the round.
    pub fn until(&self) -> u64
        ensures { result ≡ self.now.until }
    {
        self.until
    }

    /// The tick is at least this one, which lies in the round.
    pub fn reach(&mut self, tick: u64)
        requires { tick < self.old.until }
        ensures { self.new ≡ record self.old { tick = max self.old.tick tick } }
    {
        self.tick = self.tick.max(tick);
    }

    /// The next round begins, at the first tick after this one. Fewer than 2^57 rounds were begun so.
    pub fn next_round(&mut self)
        requires { self.old.until ≤ 100 * 2 ^ 57 }
        ensures { self.new ≡ record { tick = self.old.until; until = self.old.until + 100 } }
    {
        self.tick = self.until;
        self.until += 100;
    }
}
