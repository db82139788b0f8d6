ghost use Rattle.std.specs.Prelude.{◌≡◌, OnErr, IfOk};

use std::alloc::AllocError;

/// An object that is asked by calls, one at a time, and answers each with a reply.
pub trait Book {
    /// What it can be asked.
    type Call: Drop + Send;
    /// What it answers.
    type Reply: Drop + Send;

    /// The condition of a call, which its own values alone decide.
    ghost can_ask: { Self.Call → Type 0 };

    /// What the book answers to a call.
    ghost reply_to: { Self → Self.Call → Self.Reply };

    /// The book after a call.
    ghost after: { Self → Self.Call → Self };

    /// The book that this one was opened with.
    ghost opening: { Self → Self };

    /// An equal call.
    fn copy(call: &Self::Call) -> Result<Self::Call, AllocError>
        ensures { IfOk result (λ copy. copy ≡ call.now) };

    /// The reply that [`Book::apply`] would give now.
    fn answer(&self, call: &Self::Call) -> Result<Self::Reply, AllocError>
        requires { can_ask call.now }
        ensures { IfOk result (λ reply. reply ≡ reply_to self.now call.now) };

    /// Takes the call and gives the reply. Where there is no memory for it, the book stays as it was.
    fn apply(&mut self, call: &Self::Call) -> Result<Self::Reply, AllocError>
        requires { can_ask call.now }
        ensures reply { IfOk result (λ reply. reply ≡ reply_to self.old call.now) }
        ensures after { IfOk result (λ _. self.new ≡ after self.old call.now) }
        ensures err { OnErr result (self.new ≡ self.old) };

    /// Takes the call as [`Book::apply`] does, where its reply was just answered. The reply that is given may share the
    /// octets of that one.
    fn apply_answered(
        &mut self,
        call: &Self::Call,
        answered: &Self::Reply,
    ) -> Result<Self::Reply, AllocError>
        requires can_ask { can_ask call.now }
        requires answered { answered.now ≡ reply_to self.old call.now }
        ensures reply { IfOk result (λ reply. reply ≡ reply_to self.old call.now) }
        ensures after { IfOk result (λ _. self.new ≡ after self.old call.now) }
        ensures err { OnErr result (self.new ≡ self.old) }
    {
        // For the proof: the clauses name it; this default asks anew.
        let _answered = answered;
        self.apply(call)
    }

    /// No call changes what the book was opened with.
    ghost opening_stays: { (book : Self) (call : Self.Call) → opening (after book call) ≡
        opening book };
}
