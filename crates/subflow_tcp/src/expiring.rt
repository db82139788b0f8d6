//! The timer of an end.
ghost use Rattle.std.specs.Prelude.{◌≡◌, ◌+◌, ◌-◌, ◌^◌, ◌<◌, ◌≤◌, IfSome, IsSome};
ghost use Rattle.subflow_tcp.specs.State.{has_records};
ghost use Rattle.subflow_tcp.specs.Expiring.{is_timed};

use crate::end::Subflow;
use crate::taking::flight_told;
use crate::verdicts::Fired;

/// How many expiries in a row may come before the one that ends the end.
const PATIENCE: u8 = 5;

impl Subflow {
    ghost use Rattle.subflow_tcp.specs.Expiring.{after_settling, after_expiry, after_fire, fired_of};

    /// The tick at which the timer runs out; none where it doesn't run.
    pub fn timer(&self) -> Option<u64>
        ensures { result ≡ self.now.timing.timer }
    {
        self.timing.timer
    }

    /// Whether the timer has a reason to run: one of the layer above, or a record that is not acknowledged.
    fn is_timed(&self, on: bool) -> bool
        ensures { result ≡ is_timed on self.now }
    {
        !self.state.is_closed_to_segments() && (on || self.has_records())
    }

    /// Settles the timer at the tick `now`, after each emission: it stops without a reason, starts with the first one,
    /// and starts anew where something new was acknowledged since. `on` tells whether the layer above has a reason for
    /// it to run, and `restart` whether something of that was acknowledged.
    pub fn hold_timer(&mut self, on: bool, restart: bool, now: u64)
        requires { now < 2 ^ 64 - 2 ^ 20 }
        ensures { self.new ≡ after_settling on restart now self.old }
    {
        let reason = self.is_timed(on);
        self.timing.settle(reason, restart, now);
    }

    /// The timer ran out at the tick `now`. The first record is to be sent again, every other one is marked as to be
    /// sent, the congestion window is one segment, the timeout doubles, and the timer starts anew, at least 1,000 ticks
    /// later. The sixth expiry in a row, without an acceptable segment in between, ends the end by a reset.
    pub fn fire(&mut self, now: u64) -> Fired
        requires time { now < 2 ^ 64 - 2 ^ 20 }
        requires running { IsSome self.old.timing.timer }
        ensures fired { result ≡ fired_of self.old }
        ensures after { self.new ≡ after_fire now self.old }
        ensures later { IfSome self.new.timing.timer (λ tick. now + 1000 ≤ tick) }
    {
        if self.timing.expiries >= PATIENCE {
            self.die(true);
            return Fired::Died;
        }
        if self.expire(now) {
            Fired::Again
        } else {
            Fired::Probe
        }
    }

    /// An expiry that isn't the sixth in a row. Answers whether there is a record to send again.
    fn expire(&mut self, now: u64) -> bool
        requires time { now < 2 ^ 64 - 2 ^ 20 }
        requires few { self.old.timing.expiries < 5 }
        ensures some { result ≡ has_records self.old }
        ensures after { self.new ≡ after_expiry now self.old }
        ensures later { IfSome self.new.timing.timer (λ tick. now + 1000 ≤ tick) }
    {
        let again = self.has_records();
        let flight = flight_told(&self.send);
        self.congestion.expired(flight, self.send.again());
        self.send.expired();
        self.timing.expire(now);
        if again {
            self.due.first = true;
        }
        again
    }
}
