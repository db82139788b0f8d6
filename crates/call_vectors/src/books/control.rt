//! Calls of the control book. Keys, tokens and HMACs are decimal.

ghost use Rattle.std.specs.Prelude.{IsTrue};
ghost use Rattle.control_book.specs.Calls.{can_ask};

use crate::books::put_reply;
use crate::calls::control_call;
use actor_desk::{Ask, Reply};
use case_fields::Case;
use control_book::{ControlBook, ControlCall};
use sides::Side;
use stamped_book::Book;

/// Whether the book may be asked this.
fn may_ask(call: &ControlCall) -> bool
    ensures { IsTrue result → can_ask call.now }
{
    match *call {
        ControlCall::Look { path } => path < 16,
        ControlCall::Fell { path, .. } => path < 16,
        ControlCall::JoinBegin { path } => path < 16,
        ControlCall::JoinHeard { path, .. } => path < 16,
        ControlCall::Live { path, .. } => path < 16,
        ControlCall::Dead { path } => path < 16,
        ControlCall::Backup { path, .. } => path < 16,
        ControlCall::Rate { path, window, rtt } => {
            path < 16 && window >= 1 && window <= 1_048_576 && rtt >= 1 && rtt <= 60_000
        }
        _ => true,
    }
}

/// Puts the book's reply to a call.
pub fn ask(case: &mut Case, book: &mut ControlBook, name: &str) {
    let call = control_call(case, name);
    if case.is_refused() || !may_ask(&call) {
        return case.refuse();
    }
    match book.apply(&call) {
        Ok(reply) => put_reply(case, Ask::Control(Side::A, call), Reply::Control(reply)),
        Err(_) => case.fail(),
    }
}
