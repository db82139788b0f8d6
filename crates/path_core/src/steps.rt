//! The steps of a path: what it asks, and what the reply to its first duty makes of it.

ghost use Rattle.std.specs.Prelude.{◌≡◌, ◌≤◌, ◌*◌, ◌^◌, true, false, is_none, IfOk, IfSome, IsOk, OnOk, OnErr};
ghost use Rattle.actor_desk.specs.Bounds.{TakesReply};
ghost use Rattle.actor_desk.specs.Kinds.{CanBeAsked};
ghost use Rattle.path_core.specs.Octets.{octets};
ghost use Rattle.path_core.specs.Replies.{IsAckBounded, AreRowsInRange, asks_bytes_first, needs_memory_first};
ghost use Rattle.path_core.specs.Steps.{passable, settles_down, answers, asks_of, takes, next_round};

use crate::state::PathState;
use actor_desk::{Ask, Reply};
use path_agenda::{Agenda, Duty};
use std::alloc::AllocError;

impl PathState {
    /// The first duty, where it comes to nothing.
    fn passable(&self) -> Option<Duty>
        ensures { result ≡ passable self.now }
    {
        let duty = self.agenda.first()?;
        if self.stands(duty) { None } else { Some(duty) }
    }

    /// The duties that come to nothing are passed, up to the first that comes to something. Takes no memory.
    pub(crate) fn settle(&mut self)
        ensures value { self.new ≡ settles_down self.old }
        ensures rests { is_none (passable self.new) ≡ true }
    {
        while let Some(duty) = self.passable() {
            self.done();
            self.pass(duty);
        }
    }

    /// What it asks: nothing where its turn ended. Only an ask that carries bytes takes memory.
    #[tactic(auto, using(crate::proofs::FirstDuty::ask_of_first, crate::proofs::FirstDuty::ask_of_none, crate::proofs::FirstDuty::bytes_of_first, crate::proofs::FirstDuty::stands_of_first))]
    pub(crate) fn ask(&self) -> Result<Option<Ask>, AllocError>
        requires first { is_none (passable self.now) ≡ true }
        ensures ask { IfOk result (λ ask. ask ≡ asks_of octets self.now) }
        ensures able { IfOk result (λ ask. IfSome ask CanBeAsked) }
        ensures plain { asks_bytes_first self.now.agenda ≡ false → IsOk result }
    {
        match self.agenda.first() {
            Some(duty) => Ok(Some(self.ask_for(duty)?)),
            None => Ok(None),
        }
    }

    /// The reply answers the first duty.
    #[tactic(auto, using(crate::proofs::FirstDuty::answer_of_first, crate::proofs::FirstDuty::answer_of_none, crate::proofs::FirstDuty::memory_of_first, crate::proofs::FirstDuty::stands_of_first, crate::proofs::InBounds::grant_of_first))]
    fn answer_first(&mut self, reply: &Reply) -> Result<(), AllocError>
        requires takes { TakesReply (asks_of octets self.old) reply.now }
        requires acks { IsAckBounded reply.now }
        requires rows { AreRowsInRange reply.now }
        requires first { is_none (passable self.old) ≡ true }
        ensures ok { OnOk result (self.new ≡ answers octets self.old.agenda reply.now self.old) }
        ensures err { OnErr result (self.new ≡ self.old) }
        ensures plain { needs_memory_first self.old.agenda reply.now self.old ≡ false →
            IsOk result }
    {
        // For the proof: the segment size is within its limits.
        let _mss = self.profile.mss();
        match self.agenda.first() {
            Some(duty) => self.answer(duty, reply),
            None => Ok(()),
        }
    }

    /// Takes the reply to what it asked last. At an error all is as it was.
    #[tactic(auto, using(crate::proofs::InBounds::acks_bounded, crate::proofs::InBounds::rows_in_range))]
    pub(crate) fn take(&mut self, reply: &Reply) -> Result<(), AllocError>
        requires takes { TakesReply (asks_of octets self.old) reply.now }
        requires first { is_none (passable self.old) ≡ true }
        ensures ok { OnOk result (self.new ≡ takes octets reply.now self.old) }
        ensures err { OnErr result (self.new ≡ self.old) }
        ensures plain { needs_memory_first self.old.agenda reply.now self.old ≡ false →
            IsOk result }
        ensures rests { is_none (passable self.new) ≡ true }
    {
        self.answer_first(reply)?;
        self.settle();
        Ok(())
    }

    /// Begins the next round: 100 ticks more. Fewer than 2^57 were begun so.
    pub(crate) fn next_round(&mut self)
        requires rounds { self.old.until ≤ 100 * 2 ^ 57 }
        ensures value { self.new ≡ next_round self.old }
        ensures rests { is_none (passable self.new) ≡ true }
    {
        self.clock.next_round();
        self.sets_about(Agenda::start_of_turn());
        self.settle();
    }
}
