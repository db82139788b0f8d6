//! The timer of an end: when it runs, and what an expiry makes of the path (RFC 6298, section 5).

ghost use Rattle.std.specs.Prelude.{◌≡◌, ◌-◌, ◌<◌, ◌^◌, ◌||◌, false, IsSome};
ghost use Rattle.subflow_tcp.specs.Expiring.{is_sixth};
ghost use Rattle.path_core.specs.Timer.{with_timer_settled, after_firing, next_fire, timer_fired};
ghost use Rattle.path_core.specs.State.{end_at, with_end, at_tick};
ghost use Rattle.path_core.specs.declared.events.Event.TheVariants as event;
ghost use Rattle.path_core.specs.Events.{CanHappen};

use crate::end::PathEnd;
use crate::events::Event;
use crate::state::PathState;
use path_agenda::Agenda;
use sides::Side;
use subflow_tcp::Fired;

impl PathEnd {
    /// The timer is settled at this tick, below 2^64 - 2^20, by the reasons of the subflow and of the streams, by the third
    /// MP_JOIN, and by the fast close.
    pub(crate) fn settle_timer(&mut self, now: u64)
        requires { now < 2 ^ 64 - 2 ^ 20 }
        ensures { self.new ≡ with_timer_settled now self.old }
    {
        let waiting = self.is_waiting() || self.modes.owes_third || self.notices.fast_closed;
        self.tcp.hold_timer(waiting, self.sending.news, now);
        self.sending.news = false;
    }

    /// Its timer, which runs, ran out at this tick, below 2^64 - 2^20. Answers whether it was the sixth time in a row, which ends
    /// the end.
    pub(crate) fn fire(&mut self, now: u64) -> bool
        requires now { now < 2 ^ 64 - 2 ^ 20 }
        requires running { IsSome self.old.tcp.timing.timer }
        ensures sixth { result ≡ is_sixth self.old.tcp }
        ensures after { self.new ≡ after_firing now self.old }
    {
        matches!(self.tcp.fire(now), Fired::Died)
    }
}

impl PathState {
    /// The timer of a side is settled.
    pub(crate) fn settle_timer(&mut self, side: Side)
        ensures { self.new ≡
            with_end side (with_timer_settled self.old.clock (end_at side self.old)) self.old }
    {
        let now = self.clock.now();
        self.end_mut(side).settle_timer(now);
    }

    /// The timer of a side runs out.
    pub(crate) fn next_fire(&self, side: Side) -> Option<Event>
        ensures { result ≡ next_fire side (end_at side self.now).tcp.timing.timer }
    {
        Some(Event::Fires(side, self.end(side).tcp.timer()?))
    }

    /// The timer of a side runs out at this tick.
    pub(crate) fn fire(&mut self, side: Side, tick: u64)
        requires { CanHappen (event.Fires side tick) self.old }
        ensures { self.new ≡ timer_fired side (at_tick tick self.old) }
    {
        self.clock.reach(tick);
        let now = self.clock.now();
        if self.end_mut(side).fire(now) {
            self.sets_about(Agenda::expired_for_ever(side));
        } else {
            self.sets_about(Agenda::expired(side));
        }
    }
}
