//! What a segment that is dropped makes of an end: one method a rule.
ghost use Rattle.std.specs.Prelude.{◌≡◌, false};
ghost use Rattle.subflow_tcp.specs.declared.verdicts.Arrival.TheVariants.{Dropped, AckNow, Challenge, Killed};

use crate::dues::Due;
use crate::end::Subflow;
use crate::handshake::State;
use crate::verdicts::Arrival;

impl Subflow {
    ghost use Rattle.subflow_tcp.specs.Taking.{after_hearing, after_answering, after_repeated_syn, after_death};

    /// An acknowledgement is owed, at a half-open end the SYN/ACK.
    fn answer(&mut self)
        ensures { self.new ≡ after_answering self.old }
    {
        self.due
            .owe_answer(matches!(self.state, State::SynReceived));
    }

    /// Nothing is sent, kept or awaited any more, but a reset where the end is to send one.
    pub(crate) fn die(&mut self, reset: bool)
        ensures { self.new ≡ after_death reset self.old }
    {
        let nxt = self.send.nxt();
        self.send.acknowledge(nxt);
        let edge = self.recv.edge();
        self.recv.forget_from(edge);
        self.state = State::Dead;
        self.timing.stop();
        self.congestion.forget_growth();
        self.due = Due::only_reset(reset);
    }

    /// The SYN that opened the end came again: so does the SYN/ACK.
    pub(crate) fn take_syn_again(&mut self) -> Arrival
        ensures arrival { result ≡ AckNow }
        ensures after { self.new ≡ after_repeated_syn self.old }
    {
        self.due.syn_ack = true;
        Arrival::AckNow
    }

    /// A segment outside the window is answered.
    pub(crate) fn take_outside(&mut self) -> Arrival
        ensures arrival { result ≡ AckNow }
        ensures after { self.new ≡ after_answering self.old }
    {
        self.answer();
        Arrival::AckNow
    }

    /// A reset ends the end.
    pub(crate) fn take_death(&mut self) -> Arrival
        ensures arrival { result ≡ Killed }
        ensures after { self.new ≡ after_death false self.old }
    {
        self.die(false);
        Arrival::Killed
    }

    /// A reset or a SYN in the window that only looks like the peer's is answered.
    pub(crate) fn take_challenged(&mut self) -> Arrival
        ensures arrival { result ≡ Challenge }
        ensures after { self.new ≡ after_answering (after_hearing self.old) }
    {
        self.timing.heard();
        self.answer();
        Arrival::Challenge
    }

    /// A segment in the window that acknowledges nothing is heard, and no more.
    pub(crate) fn take_unacknowledging(&mut self) -> Arrival
        ensures arrival { result ≡ Dropped }
        ensures after { self.new ≡ after_hearing self.old }
    {
        self.timing.heard();
        Arrival::Dropped
    }

    /// A segment that acknowledges what was never sent is answered.
    pub(crate) fn take_ahead(&mut self) -> Arrival
        ensures arrival { result ≡ AckNow }
        ensures after { self.new ≡ after_answering (after_hearing self.old) }
    {
        self.timing.heard();
        self.answer();
        Arrival::AckNow
    }
}
