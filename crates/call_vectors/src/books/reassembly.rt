//! Calls of the reassembly book. `front` shows the bytes that can be read, where what is lent begins them. `reversed AT N SIZE`
//! places N made octets in pieces of SIZE, the last piece first, and tells how many were placed; `reads MAX` reads until nothing
//! is left.

ghost use Rattle.std.specs.Prelude.{IsTrue, ◌≤◌, ◌^◌};
ghost use Rattle.reassembly_book.specs.Steps.{CanAsk};

use crate::books::octets::{made, octets_of, put_octets};
use crate::books::put_reply;
use crate::calls::reassembly_call;
use actor_desk::{Ask, Reply};
use case_fields::Case;
use octet_text::{JoinedText, Text};
use reassembly_book::{ReassemblyBook, ReassemblyCall, ReassemblyReply};
use sides::Side;
use stamped_book::Book;

/// The greatest place of a case.
const MOST: u64 = 1 << 32;

/// Whether the book may be asked this.
fn may_ask(call: &ReassemblyCall) -> bool
    ensures { IsTrue result → CanAsk call.now }
{
    match *call {
        ReassemblyCall::Place { at, ref bytes } => at <= MOST && bytes.len() as u64 <= MOST,
        ReassemblyCall::Fin { at } => at <= MOST,
        ReassemblyCall::Read { max } => max >= 1,
        _ => true,
    }
}

/// Puts a reply to a reader that has read so many bytes before.
fn put_answer(case: &mut Case, read: &mut u64, reply: ReassemblyReply) {
    if let ReassemblyReply::Bytes(bytes) = &reply {
        case.put("bytes ");
        match bytes.to_text() {
            Ok(text) => put_octets(case, *read, text.as_bytes()),
            Err(_) => case.fail(),
        }
        *read = read.saturating_add(bytes.len() as u64);
        return;
    }
    put_reply(
        case,
        Ask::Reassembly(Side::A, ReassemblyCall::AckOut),
        Reply::Reassembly(reply),
    );
}

/// How many octets a reply says that were placed.
fn count_placed(reply: &ReassemblyReply) -> u64 {
    match reply {
        ReassemblyReply::Placed(count) => *count,
        _ => 0,
    }
}

/// How many octets the book places, where it may be asked.
fn placed_by(case: &mut Case, book: &mut ReassemblyBook, call: &ReassemblyCall) -> u64 {
    if !may_ask(call) {
        case.refuse();
        return 0;
    }
    match book.apply(call) {
        Ok(reply) => count_placed(&reply),
        Err(_) => {
            case.fail();
            0
        }
    }
}

/// How many of so many made octets from a place on are placed.
fn placed(case: &mut Case, book: &mut ReassemblyBook, at: u64, count: u64) -> u64 {
    match made(case.alloc, at, count) {
        Ok(bytes) => placed_by(case, book, &ReassemblyCall::Place { at, bytes }),
        Err(_) => {
            case.fail();
            0
        }
    }
}

/// `reversed AT N SIZE`.
fn reversed(case: &mut Case, book: &mut ReassemblyBook) {
    let at: u64 = case.number();
    let count: u64 = case.number();
    let size: u64 = case.number();
    if size < 1 {
        return case.refuse();
    }
    let mut all: u64 = 0;
    let pieces = count.div_ceil(size);
    for step in 0..pieces {
        let after = pieces.saturating_sub(step);
        let from = after.saturating_sub(1).saturating_mul(size).min(count);
        let len = size.min(count - from);
        all = all.saturating_add(placed(case, book, at.saturating_add(from), len));
    }
    case.say(&all);
}

/// Puts bytes that were read at the end of others.
fn append(case: &mut Case, all: &mut Text, bytes: &JoinedText) {
    let done = match bytes.to_text() {
        Ok(text) => all.append(text.as_bytes()),
        Err(error) => Err(error),
    };
    if done.is_err() {
        case.fail();
    }
}

/// Reads until no bytes are left: the last reply.
fn read_all(
    case: &mut Case,
    book: &mut ReassemblyBook,
    call: &ReassemblyCall,
    all: &mut Text,
) -> ReassemblyReply
    requires { CanAsk call.now }
{
    for _ in 0..10_000 {
        match book.apply(call) {
            Ok(ReassemblyReply::Bytes(bytes)) => append(case, all, &bytes),
            Ok(reply) => return reply,
            Err(_) => case.fail(),
        }
    }
    case.refuse();
    ReassemblyReply::NoneYet
}

/// `reads MAX`: how many were read and whether they are made ones, and the last reply.
fn reads(case: &mut Case, book: &mut ReassemblyBook, read: &mut u64) {
    let call = ReassemblyCall::Read { max: case.number() };
    if !may_ask(&call) {
        return case.refuse();
    }
    let mut all = Text::new(case.alloc);
    let last = read_all(case, book, &call, &mut all);
    put_octets(case, *read, all.as_bytes());
    *read = read.saturating_add(all.len() as u64);
    case.put(" ");
    put_answer(case, read, last);
}

/// Puts these bytes where those that are lent begin them, and else `other`.
fn put_begun(case: &mut Case, read: u64, lent: &[u8], bytes: &JoinedText) {
    match bytes.to_text() {
        Ok(text) if text.as_bytes().starts_with(lent) => put_octets(case, read, text.as_bytes()),
        Ok(_) => case.put("other"),
        Err(_) => case.fail(),
    }
}

/// `front`.
fn front(case: &mut Case, book: &ReassemblyBook, read: u64) {
    match book.answer(&ReassemblyCall::Read { max: u32::MAX }) {
        Ok(ReassemblyReply::Bytes(bytes)) => put_begun(case, read, book.front(), &bytes),
        Ok(_) => put_octets(case, read, book.front()),
        Err(_) => case.fail(),
    }
}

/// Puts the book's reply to a call, from which so many octets were read.
pub fn ask(case: &mut Case, book: &mut ReassemblyBook, read: &mut u64, name: &str) {
    match name {
        "front" => front(case, book, *read),
        "reversed" => reversed(case, book),
        "reads" => reads(case, book, read),
        _ => ask_once(case, book, read, name),
    }
}

fn ask_once(case: &mut Case, book: &mut ReassemblyBook, read: &mut u64, name: &str) {
    let call = if name == "place" {
        let at = case.number();
        ReassemblyCall::Place {
            at,
            bytes: octets_of(case, at),
        }
    } else {
        reassembly_call(case, name)
    };
    if case.is_refused() || !may_ask(&call) {
        return case.refuse();
    }
    match book.apply(&call) {
        Ok(reply) => put_answer(case, read, reply),
        Err(_) => case.fail(),
    }
}
