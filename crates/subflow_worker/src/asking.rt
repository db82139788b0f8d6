//! A call at a book under its lock: what it is answered is of the asked kind, and its numbers are small.
ghost use Rattle.std.specs.Prelude.{◌≡◌, IfOk, OnOk, OnErr};
ghost use Rattle.send_book.specs.Steps as sending;
ghost use Rattle.reassembly_book.specs.Steps as arriving;
ghost use Rattle.control_book.specs.Calls as controlling;
ghost use Rattle.actor_desk.specs.Bounds.{IsSmallSend, IsSmallReassembly, IsSmallControl};
ghost use Rattle.actor_desk.specs.Kinds.{IsSendKind, IsReassemblyKind, IsControlKind};
ghost use Rattle.actor_desk.specs.Noted.{Rises};

use crate::held::{Held, Start};
use control_book::{ControlBook, ControlCall, ControlReply};
use reassembly_book::{ReassemblyBook, ReassemblyCall, ReassemblyReply};
use send_book::{SendBook, SendCall, SendReply, marks_tile};
use stamped_book::{Pass, Refusal};

pub(crate) fn ask_send<S: Start<SendBook>>(
    held: &mut Held<SendBook, S>,
    pass: &mut Pass,
    call: &SendCall,
) -> Result<SendReply, Refusal>
    requires { sending.CanAsk call.now }
    ensures kind { IfOk result (λ reply. IsSendKind call.now reply) }
    ensures bounds { IfOk result (λ reply. IsSmallSend reply) }
    ensures rises { OnOk result (Rises pass.old pass.new) }
    ensures pass_err { OnErr result (pass.new ≡ pass.old) }
{
    // For the proof: the marks of the book tile.
    marks_tile(held.book());
    held.enter(pass, call)
}

pub(crate) fn ask_reassembly<S: Start<ReassemblyBook>>(
    held: &mut Held<ReassemblyBook, S>,
    pass: &mut Pass,
    call: &ReassemblyCall,
) -> Result<ReassemblyReply, Refusal>
    requires { arriving.CanAsk call.now }
    ensures kind { IfOk result (λ reply. IsReassemblyKind call.now reply) }
    ensures bounds { IfOk result (λ reply. IsSmallReassembly reply) }
    ensures rises { OnOk result (Rises pass.old pass.new) }
    ensures pass_err { OnErr result (pass.new ≡ pass.old) }
{
    // For the proof: the book is sound.
    let _book = held.book();
    held.enter(pass, call)
}

pub(crate) fn ask_control<S: Start<ControlBook>>(
    held: &mut Held<ControlBook, S>,
    pass: &mut Pass,
    call: &ControlCall,
) -> Result<ControlReply, Refusal>
    requires { controlling.can_ask call.now }
    ensures kind { IfOk result (λ reply. IsControlKind call.now reply) }
    ensures bounds { IfOk result (λ reply. IsSmallControl call.now reply) }
    ensures rises { OnOk result (Rises pass.old pass.new) }
    ensures pass_err { OnErr result (pass.new ≡ pass.old) }
{
    // For the proof: the book is sound.
    let _book = held.book();
    held.enter(pass, call)
}
