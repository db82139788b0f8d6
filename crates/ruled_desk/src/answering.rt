//! What sound books answer.
ghost use Rattle.std.specs.Prelude.{◌≡◌};

use actor_desk::Kept;
use control_book::ControlBook;
use reassembly_book::ReassemblyBook;
use send_book::{SendBook, marks_tile};

/// A book whose replies are of the asked kind and within bounds wherever it is sound.
pub trait Answering: Kept {
    /// Of a call and its reply.
    ghost meets: { Self.Call → Self.Reply → Type 0 };

    /// A law: whatever it is asked.
    fn answers(&self)
        ensures { (call : Self.Call) → Self.can_ask call → Self.sound self.now →
            meets call (Self.reply_to self.now call) };
}

impl Answering for SendBook {
    ghost use Rattle.send_book.specs.Steps.{CanAsk, reply_to};
    ghost use Rattle.send_book.specs.declared.call.SendCall.{SendCall};
    ghost use Rattle.actor_desk.specs.Bounds.{IsSmallSend, IsWrittenSmall};
    ghost use Rattle.actor_desk.specs.Kinds.{IsSendKind};

    ghost meets = { λ call reply. IsSendKind call reply × IsSmallSend reply };

    fn answers(&self)
        ensures { (call : SendCall) → CanAsk call → IsWrittenSmall self.now →
            IsSendKind call (reply_to self.now call) × IsSmallSend (reply_to self.now call) }
    {
        // For the proof: the marks of the book tile.
        marks_tile(self);
    }
}

impl Answering for ReassemblyBook {
    ghost use Rattle.reassembly_book.specs.Steps.{CanAsk, reply_to};
    ghost use Rattle.reassembly_book.specs.declared.call.ReassemblyCall.{ReassemblyCall};
    ghost use Rattle.actor_desk.specs.Bounds.{IsSmallReassembly, IsReceivedSmall};
    ghost use Rattle.actor_desk.specs.Kinds.{IsReassemblyKind};

    ghost meets = { λ call reply. IsReassemblyKind call reply × IsSmallReassembly reply };

    fn answers(&self)
        ensures { (call : ReassemblyCall) → CanAsk call → IsReceivedSmall self.now →
            IsReassemblyKind call (reply_to self.now call) ×
            IsSmallReassembly (reply_to self.now call) }
    {}
}

impl Answering for ControlBook {
    ghost use Rattle.control_book.specs.Calls.{can_ask};
    ghost use Rattle.control_book.specs.Replies.{reply_to};
    ghost use Rattle.control_book.specs.declared.call.ControlCall.{ControlCall};
    ghost use Rattle.actor_desk.specs.Bounds.{IsSmallControl};
    ghost use Rattle.actor_desk.specs.Keeping.{HasRightRows};
    ghost use Rattle.actor_desk.specs.Kinds.{IsControlKind};

    ghost meets = { λ call reply. IsControlKind call reply × IsSmallControl call reply };

    fn answers(&self)
        ensures { (call : ControlCall) → can_ask call → HasRightRows self.now →
            IsControlKind call (reply_to self.now call) ×
            IsSmallControl call (reply_to self.now call) }
    {}
}
