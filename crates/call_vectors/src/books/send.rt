//! Calls of the send book. `turns MAX PATH..` asks for bytes for these paths in turn until none of them is given any,
//! and tells how many bytes they were given.

ghost use Rattle.std.specs.Prelude.{IsTrue, ◌<◌, ◌≤◌};
ghost use Rattle.send_book.specs.Steps.{CanAsk};

use crate::books::octets::octets_of;
use crate::books::put_reply;
use crate::calls::send_call;
use actor_desk::{Ask, Reply};
use case_fields::Case;
use send_book::{SendBook, SendCall, SendReply};
use sides::Side;
use stamped_book::Book;

/// Whether the book may be asked this.
fn may_ask(call: &SendCall) -> bool
    ensures { IsTrue result → CanAsk call.now }
{
    match *call {
        SendCall::Grant { path, max, .. } => path < 16 && max >= 1,
        SendCall::AckIn { next, window } => next < 1 << 62 && window < 1 << 62,
        SendCall::Return { path } => path < 16,
        SendCall::GoInfinite { path } => path < 16,
        _ => true,
    }
}

/// How many bytes a reply grants.
fn granted(reply: &SendReply) -> u64 {
    match reply {
        SendReply::Granted { span, .. } => span.to.saturating_sub(span.from),
        _ => 0,
    }
}

/// How many bytes the book grants, where it may be asked.
fn granted_by(case: &mut Case, book: &mut SendBook, call: &SendCall) -> u64 {
    if !may_ask(call) {
        case.refuse();
        return 0;
    }
    match book.apply(call) {
        Ok(reply) => granted(&reply),
        Err(_) => {
            case.fail();
            0
        }
    }
}

/// How many bytes the next path is given, 0 where there is none for it.
fn given(case: &mut Case, book: &mut SendBook, max: u32) -> u64 {
    let call = SendCall::Grant {
        path: case.number(),
        max,
        standby: false,
    };
    granted_by(case, book, &call)
}

/// How many bytes the paths are given when each is asked once.
fn given_once(case: &mut Case, book: &mut SendBook, max: u32) -> u64 {
    let mut all: u64 = 0;
    for _ in 0..16 {
        if case.has_more() {
            all = all.saturating_add(given(case, book, max));
        }
    }
    all
}

/// `turns MAX PATH..`.
fn turns(case: &mut Case, book: &mut SendBook) {
    let max: u32 = case.number();
    let paths = case.rest();
    let mut all: u64 = 0;
    for _ in 0..10_000 {
        case.read(paths, " ");
        match given_once(case, book, max) {
            0 => break,
            count => all = all.saturating_add(count),
        }
    }
    case.say(&all);
}

/// How many bytes a reply says that were taken.
fn taken(reply: &SendReply) -> u64 {
    match reply {
        SendReply::Taken(count) => *count,
        _ => 0,
    }
}

/// Puts the book's reply to a call, to which so many octets were written.
pub fn ask(case: &mut Case, book: &mut SendBook, written: &mut u64, name: &str) {
    let call = match name {
        "turns" => return turns(case, book),
        "write" => SendCall::Write {
            bytes: octets_of(case, *written),
        },
        _ => send_call(case, name),
    };
    if case.is_refused() || !may_ask(&call) {
        return case.refuse();
    }
    match book.apply(&call) {
        Ok(reply) => {
            *written = written.saturating_add(taken(&reply));
            put_reply(case, Ask::Send(Side::A, call), Reply::Send(reply));
        }
        Err(_) => case.fail(),
    }
}
