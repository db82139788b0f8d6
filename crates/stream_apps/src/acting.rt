//! The application as an actor of its connection.
ghost use Rattle.std.specs.Prelude.{◌≡◌, IfOk, IfSome, OnOk, OnErr};
ghost use Rattle.actor_desk.specs.Bounds.{TakesReply};
ghost use Rattle.actor_desk.specs.Kinds.{CanBeAsked};
ghost use Rattle.stream_apps.specs.AppSteps.{app_asks_of, app_next_round, app_takes};

use crate::app::App;
use actor_desk::{Actor, Ask, Reply};
use std::alloc::{AllocError, Global};

impl Actor for App {
    ghost asks = { app_asks_of };

    ghost takes = { app_takes };

    ghost next = { app_next_round };

    ghost can_begin = { λ app. Unit {0} };

    #[tactic(auto, using(crate::proofs::Asking::app_able))]
    fn ask(&self, alloc: Global) -> Result<Option<Ask>, AllocError>
        ensures ask { IfOk result (λ ask. ask ≡ app_asks_of self.now) }
        ensures able { IfOk result (λ ask. IfSome ask CanBeAsked) }
    {
        App::ask(self, alloc)
    }

    fn take(&mut self, reply: &Reply) -> Result<(), AllocError>
        requires { TakesReply (app_asks_of self.old) reply.now }
        ensures ok { OnOk result (self.new ≡ app_takes reply.now self.old) }
        ensures err { OnErr result (self.new ≡ self.old) }
    {
        App::take(self, reply);
        Ok(())
    }

    fn next_round(&mut self)
        ensures { self.new ≡ app_next_round self.old }
    {
        App::next_round(self);
    }
}
