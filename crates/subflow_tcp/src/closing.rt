//! The FINs of an end, and what the layer above makes due.
ghost use Rattle.std.specs.Prelude.{◌≡◌, ◌≢◌, ◌^◌, ◌<◌, IsTrue, false};
ghost use Rattle.subflow_tcp.specs.declared.handshake.State.TheVariants.{Dead};
ghost use Rattle.subflow_tcp.specs.States.{may_finish};
ghost use Rattle.subflow_tcp.specs.Taking.{after_death};

use crate::end::Subflow;

impl Subflow {
    ghost use Rattle.subflow_tcp.specs.Closing.{after_finishing, is_fin_next, after_passing_fin, after_owing};

    /// Makes the FIN due behind the last piece: the state is FinWait1 or LastAck.
    pub fn finish(&mut self)
        requires { IsTrue (may_finish self.old.state) }
        ensures { self.new ≡ after_finishing self.old }
    {
        self.send.finish();
        self.state = self.state.after_finish();
    }

    /// Whether the receive edge is at the peer's FIN, so that it can be passed.
    pub fn is_fin_next(&self) -> bool
        ensures value { result ≡ is_fin_next self.now }
        ensures below { IsTrue result → self.now.recv.edge < 2 ^ 62 }
    {
        self.fin_at == Some(self.recv.edge()) && self.recv.edge() < 1 << 62
    }

    /// Moves the receive edge over the peer's FIN, and forgets what is kept behind it: the state is CloseWait, Closing or
    /// TimeWait. Takes no memory.
    pub fn pass_fin(&mut self)
        requires { IsTrue (is_fin_next self.old) }
        ensures { self.new ≡ after_passing_fin self.old }
    {
        self.recv.pass();
        self.state = self.state.after_fin_passed();
    }

    /// Makes an acknowledgement due, at SND.NXT, or with `below` one below SND.UNA, which a peer that is there answers.
    pub fn ack_due(&mut self, below: bool)
        ensures { self.new ≡ after_owing below self.old }
    {
        if below {
            self.due.probe = true;
        } else {
            self.due.ack = true;
        }
    }

    /// The end is dead: nothing is sent, kept or awaited any more, but a reset where `reset` asks for it.
    pub fn kill(&mut self, reset: bool)
        ensures { self.new ≡ after_death reset self.old }
    {
        self.die(reset);
    }
}
