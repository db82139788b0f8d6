//! An actor that asks one call of A's send book, again and again.
ghost use Rattle.std.specs.Prelude.{◌≡◌, IfOk, IfSome, OnOk, OnErr};
ghost use Rattle.actor_desk.specs.Bounds.{TakesReply};
ghost use Rattle.actor_desk.specs.Kinds.{CanBeAsked};

use actor_desk::{Actor, Ask, Reply};
use octet_text::Text;
use send_book::SendCall;
use sides::Side;
use std::alloc::{AllocError, Global};

/// What is asked.
#[derive(Clone, Copy)]
pub enum Errand {
    /// One octet is written.
    Write,
    Close,
    GoIdentity,
}

/// An actor, and how often it asks before its turn ends.
#[derive(Clone, Copy)]
pub struct Caller {
    pub errand: Errand,
    pub left: u64,
}

impl Errand {
    ghost use Rattle.world_vectors.specs.Errands.{call_of};

    fn call(self, alloc: Global) -> Result<SendCall, AllocError>
        ensures { IfOk result (λ call. call ≡ call_of self) }
    {
        match self {
            Errand::Write => Ok(SendCall::Write {
                bytes: Text::of(alloc, b"x")?,
            }),
            Errand::Close => Ok(SendCall::Close),
            Errand::GoIdentity => Ok(SendCall::GoIdentity),
        }
    }
}

impl Actor for Caller {
    ghost use Rattle.world_vectors.specs.Errands.{asks_of, one_less};

    ghost asks = { asks_of };

    ghost takes = { λ reply caller. one_less caller };

    ghost next = { λ caller. caller };

    ghost can_begin = { λ caller. Unit {0} };

    fn ask(&self, alloc: Global) -> Result<Option<Ask>, AllocError> {
        if self.left == 0 {
            return Ok(None);
        }
        Ok(Some(Ask::Send(Side::A, self.errand.call(alloc)?)))
    }

    fn take(&mut self, _reply: &Reply) -> Result<(), AllocError> {
        self.left -= 1;
        Ok(())
    }

    fn next_round(&mut self) {}
}
