//! `book CALL`: what the books of a side answer to lists of calls. `send BUFFER`, `reassembly CAPACITY` and `control SIDE KEY` open a
//! book, of which the calls that follow are asked: those of a log, by its words, and what the head of each file says. The answer has the
//! words of a log too, but the octets of a grant behind it, and read octets as they are.
//!
//! Octets are a word as it stands, or `made N`, of which the octet at place k of the stream is k modulo 251.

mod control;
mod octets;
mod reassembly;
mod send;

use actor_desk::{Ask, Note, Reply};
use case_fields::Case;
use control_book::ControlBook;
use octets::put_octets;
pub use octets::{are_made, made};
use reassembly_book::ReassemblyBook;
use run_log::line;
use send_book::{SendBook, SendReply};
use sides::Side;
use std::alloc::{AllocError, Global};

/// Which book is asked.
#[derive(Clone, Copy)]
enum Which {
    Send,
    Reassembly,
    Control,
}

/// The books that were opened last, and which of them is asked.
#[derive(Drop)]
pub struct Books {
    which: Which,
    send: SendBook,
    reassembly: ReassemblyBook,
    control: ControlBook,
    /// How many octets were written to the send book, or read from the reassembly book.
    passed: u64,
}

impl Books {
    /// Books that were asked nothing.
    pub fn new(alloc: Global) -> Result<Self, AllocError> {
        Ok(Books {
            which: Which::Send,
            send: SendBook::new(alloc, 1),
            reassembly: ReassemblyBook::new(alloc, 1),
            control: ControlBook::new(alloc, Side::A, 0)?,
            passed: 0,
        })
    }

    /// Opens a book for 1 to 1,048,576 octets.
    fn open_for_octets(&mut self, case: &mut Case, which: Which) {
        let octets: u64 = case.number();
        if octets < 1 || octets > 1_048_576 {
            return case.refuse();
        }
        self.which = which;
        self.passed = 0;
        self.send = SendBook::new(case.alloc, octets);
        self.reassembly = ReassemblyBook::new(case.alloc, octets);
        case.put("open");
    }

    /// Opens the control book of a side, `a` or `b`, with its key.
    fn open_control(&mut self, case: &mut Case) {
        let side = if case.word() == "a" { Side::A } else { Side::B };
        self.which = Which::Control;
        match ControlBook::new(case.alloc, side, case.number()) {
            Ok(book) => self.control = book,
            Err(_) => case.fail(),
        }
        case.put("open");
    }

    /// Asks the open book.
    fn ask(&mut self, case: &mut Case, name: &str) {
        match self.which {
            Which::Send => send::ask(case, &mut self.send, &mut self.passed, name),
            Which::Reassembly => {
                reassembly::ask(case, &mut self.reassembly, &mut self.passed, name)
            }
            Which::Control => control::ask(case, &mut self.control, name),
        }
    }
}

/// Puts the answer to a case.
pub fn book(case: &mut Case, books: &mut Books) {
    match case.word() {
        "send" => books.open_for_octets(case, Which::Send),
        "reassembly" => books.open_for_octets(case, Which::Reassembly),
        "control" => books.open_control(case),
        name => books.ask(case, name),
    }
}

/// Puts the words in which a log tells the reply to what was asked, and the octets of a grant.
fn put_reply(case: &mut Case, ask: Ask, reply: Reply) {
    let note = Note {
        stamp: 0,
        seen: 0,
        actor: 0,
        ask,
        reply,
    };
    match line(case.alloc, &note) {
        Ok(line) => put_after_ask(case, line.as_bytes()),
        Err(_) => case.fail(),
    }
    put_piece(case, &note.reply);
}

/// Puts what stands behind ` = ` in a line, without its end.
fn put_after_ask(case: &mut Case, line: &[u8]) {
    let Ok(line) = String::from_utf8_lossy(case.alloc, line) else {
        return case.fail();
    };
    if let Some((_, words)) = line.split_once(" = ") {
        case.put(words.trim_end());
    }
}

/// Puts the octets of a grant behind a blank, and nothing of another reply.
fn put_piece(case: &mut Case, reply: &Reply) {
    if let Reply::Send(SendReply::Granted { span, piece }) = reply {
        case.put(" ");
        put_octets(case, span.from, piece.as_bytes());
    }
}
