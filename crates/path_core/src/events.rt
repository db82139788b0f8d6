//! What happens on a path by itself: its join, lines of the script, copies that arrive, timers that run out.

ghost use Rattle.std.specs.Prelude.{◌≡◌, ◌-◌, ◌<◌, ◌&&◌, false, [], IsOk, OnOk, IfSome, OnErr};
ghost use Rattle.actor_desk.specs.Kinds.{CanBeAsked};
ghost use Rattle.actor_desk.specs.Words.{tail_of};
ghost use Rattle.link_model.specs.Steps.{next_due};
ghost use Rattle.sides.specs.declared.side.Side.TheVariants.{A, B};
ghost use Rattle.subflow_tcp.specs.States.{is_dead};
ghost use Rattle.path_agenda.specs.Agenda.{rest_of_turn};
ghost use Rattle.path_core.specs.Events.{tick_of, step_of, earlier, is_dead_or_listening, is_dead_path, next_join, next_line, next_copy, earliest, next_event, step_for, line_taken, happens_if, CanHappen};
ghost use Rattle.path_core.specs.declared.events.Event.TheVariants as event;
ghost use Rattle.path_core.specs.Replies.{notes_by, event_needs_memory};
ghost use Rattle.path_core.specs.Timer.{next_fire};
ghost use Rattle.path_core.specs.State.{at_tick, path_of};
ghost use Rattle.path_core.specs.MpJoin.{joins_at_tick};
ghost use Rattle.path_core.specs.Octets.{octets};

use crate::mp_join::join_begin_ask;
use crate::state::PathState;
use actor_desk::{Ask, LocalStep, Reply};
use link_model::Due;
use path_agenda::Agenda;
use path_store::{LineAction, LineLeft};
use sides::Side;
use std::alloc::AllocError;
use subflow_tcp::State;

/// What happens on a path by itself, at a tick.
#[derive(Clone, Copy)]
pub enum Event {
    /// A joins the path to the connection, at this tick.
    Joins(u64),
    /// A line comes due.
    Takes(LineLeft),
    /// A copy arrives.
    Arrives(Due),
    /// A timer runs out, at this tick.
    Fires(Side, u64),
}

/// The earlier of two events; at one tick the first.
fn earlier(first: Option<Event>, second: Option<Event>) -> Option<Event>
    ensures { result ≡ earlier first second }
{
    match (first, second) {
        (None, other) => other,
        (Some(event), None) => Some(event),
        (Some(event), Some(other)) => {
            if event.tick() <= other.tick() {
                Some(event)
            } else {
                Some(other)
            }
        }
    }
}

impl Event {
    /// The tick at which it happens.
    pub fn tick(self) -> u64
        ensures { result ≡ tick_of self }
    {
        match self {
            Event::Joins(tick) => tick,
            Event::Takes(line) => line.tick,
            Event::Arrives(due) => due.tick,
            Event::Fires(_, tick) => tick,
        }
    }

    /// Its step on the path of this number, which is below 16.
    pub fn step(self, path: u8) -> Ask
        requires { path < 16 }
        ensures value { result ≡ step_of path self }
        ensures able { CanBeAsked result }
    {
        match self {
            Event::Joins(_) => join_begin_ask(path),
            Event::Takes(line) => Ask::Local(LocalStep::Line(line.number)),
            Event::Arrives(due) => Ask::Local(LocalStep::Arrive {
                to: due.to,
                copy: due.copy,
            }),
            Event::Fires(side, _) => Ask::Local(LocalStep::Fire(side)),
        }
    }
}

impl PathState {
    /// Whether A's end is dead, and B's end is dead or was never reached.
    pub(crate) fn is_dead(&self) -> bool
        ensures { result ≡ is_dead_path self.now }
    {
        self.a.is_dead() && self.b.is_dead_or_listening()
    }

    /// A joins the path, as long as its end waits for that.
    fn next_join(&self) -> Option<Event>
        ensures { result ≡ next_join self.now.a.tcp.state self.now.joined_at }
    {
        let tick = self.joined_at?;
        if self.a.tcp.state() == State::Waiting {
            Some(Event::Joins(tick))
        } else {
            None
        }
    }

    /// The line that comes due next.
    fn next_line(&self) -> Option<Event>
        ensures { result ≡ next_line self.now.lines }
    {
        let line = self.lines.front()?;
        Some(Event::Takes(*line))
    }

    /// The copy that arrives next.
    fn next_copy(&self) -> Option<Event>
        ensures { result ≡ next_copy (next_due self.now.link.under_way) }
    {
        Some(Event::Arrives(self.link.due()?))
    }

    /// The earliest event. At one tick the join comes before lines, lines before copies, and copies before timers, that of A
    /// first.
    fn earliest(&self) -> Option<Event>
        ensures { result ≡ earliest self.now }
    {
        let fires = earlier(self.next_fire(Side::A), self.next_fire(Side::B));
        let copies = earlier(self.next_copy(), fires);
        earlier(self.next_join(), earlier(self.next_line(), copies))
    }

    /// The earliest event before the round's end.
    #[tactic(auto, using(crate::proofs::Happening::can_happen))]
    pub(crate) fn next_event(&self) -> Option<Event>
        ensures value { result ≡ next_event self.now }
        ensures can { IfSome result (λ event. CanHappen event self.now) }
    {
        let event = self.earliest()?;
        if event.tick() < self.clock.until() {
            Some(event)
        } else {
            None
        }
    }

    /// The step of that event.
    pub(crate) fn event_ask(&self) -> Ask
        ensures value { result ≡ step_for (path_of self.now) (next_event self.now) }
        ensures able { CanBeAsked result }
    {
        match self.next_event() {
            Some(event) => event.step(self.number()),
            None => Ask::Local(LocalStep::End),
        }
    }

    /// The tick is that of the first line, which is taken.
    fn reach_line(&mut self, tick: u64)
        requires { tick < self.old.until }
        ensures { self.new ≡ record (at_tick tick self.old) { lines = tail_of self.old.lines } }
    {
        self.clock.reach(tick);
        self.lines.pop_front();
    }

    /// The first line is taken. At an error all is as it was.
    ///
    /// # Errors
    ///
    /// Only where there is no memory, and the line changes the priority of the path.
    fn take_line(&mut self, line: LineLeft) -> Result<(), AllocError>
        requires { CanHappen (event.Takes line) self.old }
        ensures ok { OnOk result (self.new ≡ line_taken line self.old) }
        ensures err { OnErr result (self.new ≡ self.old) }
        ensures plain { notes_by line.action ≡ false → IsOk result }
    {
        match line.action {
            LineAction::Die => {
                self.reach_line(line.tick);
                self.die();
            }
            LineAction::Prio { side, backup } => {
                self.end_mut(side).note_priority(backup)?;
                self.reach_line(line.tick);
                self.sets_about(Agenda::emission(side));
            }
            LineAction::Announce { side, id } => {
                self.reach_line(line.tick);
                self.sets_about(Agenda::announces(side, id));
            }
            LineAction::Withdraw { side, id } => {
                self.reach_line(line.tick);
                self.sets_about(Agenda::withdraws(side, id));
            }
        }
        Ok(())
    }

    /// A asked at this tick whether the path may join.
    fn join(&mut self, tick: u64, reply: &Reply)
        requires { CanHappen (event.Joins tick) self.old }
        ensures { self.new ≡ joins_at_tick reply.now (at_tick tick self.old) }
    {
        self.clock.reach(tick);
        self.join_at_tick(reply);
    }

    /// The earliest event before the round's end happens. At an error all is as it was.
    pub(crate) fn answer_event(&mut self, reply: &Reply) -> Result<(), AllocError>
        ensures ok { OnOk result (self.new ≡
            happens_if octets (next_event self.old) reply.now self.old) }
        ensures err { OnErr result (self.new ≡ self.old) }
        ensures plain { event_needs_memory (next_event self.old) ≡ false → IsOk result }
    {
        match self.next_event() {
            Some(Event::Joins(tick)) => {
                self.join(tick, reply);
                Ok(())
            }
            Some(Event::Takes(line)) => self.take_line(line),
            Some(Event::Arrives(due)) => self.take_copy(due),
            Some(Event::Fires(side, tick)) => {
                self.fire(side, tick);
                Ok(())
            }
            None => {
                self.sets_about(Agenda::rest_of_turn());
                Ok(())
            }
        }
    }
}
