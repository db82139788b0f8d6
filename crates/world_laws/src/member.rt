//! Who takes part in a connection.
ghost use Rattle.std.specs.Prelude.{◌≡◌, None, IfOk, IfSome, OnOk, OnErr};
ghost use Rattle.actor_desk.specs.Bounds.{TakesReply};
ghost use Rattle.actor_desk.specs.Kinds.{CanBeAsked};

use actor_desk::{Actor, Ask, Reply};
use std::alloc::{AllocError, Global};

/// An actor of one of two kinds: an application, or a path. It does what that one does.
#[derive(Drop)]
pub enum Member<A, P> {
    App(A),
    Path(P),
}

impl<A: Actor, P: Actor> Actor for Member<A, P> {
    ghost use Rattle.world_laws.specs.Members.{of_kind, within_kind, HoldsOfKind};

    ghost asks = { of_kind A.asks P.asks };

    ghost takes = { λ reply. within_kind (A.takes reply) (P.takes reply) };

    ghost next = { within_kind A.next P.next };

    ghost can_begin = { HoldsOfKind A.can_begin P.can_begin };

    fn ask(&self, alloc: Global) -> Result<Option<Ask>, AllocError>
        ensures ask { IfOk result (λ ask. ask ≡ of_kind A.asks P.asks self.now) }
        ensures able { IfOk result (λ ask. IfSome ask CanBeAsked) }
    {
        match self {
            Member::App(app) => app.ask(alloc),
            Member::Path(path) => path.ask(alloc),
        }
    }

    fn take(&mut self, reply: &Reply) -> Result<(), AllocError>
        requires { TakesReply (of_kind A.asks P.asks self.old) reply.now }
        ensures ok { OnOk result (self.new ≡
            within_kind (A.takes reply.now) (P.takes reply.now) self.old) }
        ensures err { OnErr result (self.new ≡ self.old) }
    {
        match self {
            Member::App(app) => app.take(reply),
            Member::Path(path) => path.take(reply),
        }
    }

    fn next_round(&mut self)
        requires over { of_kind A.asks P.asks self.old ≡ None }
        requires rounds { HoldsOfKind A.can_begin P.can_begin self.old }
        ensures { self.new ≡ within_kind A.next P.next self.old }
    {
        match self {
            Member::App(app) => app.next_round(),
            Member::Path(path) => path.next_round(),
        }
    }
}
