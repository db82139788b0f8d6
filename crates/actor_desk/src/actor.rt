//! Who takes part in a connection: an actor asks, takes the reply, and goes on.
ghost use Rattle.std.specs.Prelude.{◌≡◌, Option, None, IfOk, IfSome, OnOk, OnErr};
ghost use Rattle.actor_desk.specs.declared.ask.Ask.{Ask};
ghost use Rattle.actor_desk.specs.declared.ask.Reply.{Reply};
ghost use Rattle.actor_desk.specs.Bounds.{TakesReply};
ghost use Rattle.actor_desk.specs.Kinds.{CanBeAsked};

use crate::ask::{Ask, Reply};
use crate::notes::Notes;
use stamped_book::{Pass, Refusal};
use std::alloc::{AllocError, Global};

/// An actor of a connection: in a turn it asks, and takes the reply, until it asks nothing; then a round begins its next
/// turn.
pub trait Actor {
    /// What it asks; nothing where its turn ended.
    ghost asks: { Self → Option Ask };

    /// The actor after a reply.
    ghost takes: { Reply → Self → Self };

    /// The actor at the start of its next turn.
    ghost next: { Self → Self };

    /// There is room for one round more in what it counts.
    ghost can_begin: { Self → Type 0 };

    /// What it asks; nothing where its turn ended. Only an ask that carries bytes takes memory, for their copy.
    fn ask(&self, alloc: Global) -> Result<Option<Ask>, AllocError>
        ensures ask { IfOk result (λ ask. ask ≡ asks self.now) }
        ensures able { IfOk result (λ ask. IfSome ask CanBeAsked) };

    /// Takes the reply to what it asks, or stays as it was where there is no memory.
    fn take(&mut self, reply: &Reply) -> Result<(), AllocError>
        requires { TakesReply (asks self.old) reply.now }
        ensures ok { OnOk result (self.new ≡ takes reply.now self.old) }
        ensures err { OnErr result (self.new ≡ self.old) };

    /// Begins the next turn. It takes no memory.
    fn next_round(&mut self)
        requires over { asks self.old ≡ None }
        requires rounds { can_begin self.old }
        ensures { self.new ≡ next self.old };
}

/// An actor with what it shows when it asks, and with its steps.
#[derive(Drop)]
pub struct Crew<A> {
    pub member: A,
    /// Its number, and the greatest stamp that it knows. 0 and 1 are the applications of A and B, and 2 + i is path i.
    pub pass: Pass,
    /// Every step that it made, in order.
    pub list: Notes,
    /// Why its last turn stopped before its end, where it did.
    pub refused: Option<Refusal>,
}
