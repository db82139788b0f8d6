//! Rounds by threads over six books at their tables: `tables BUFFER STAMP STAMP STAMP`, and behind each ` then ` a round.
//!
//! A case tells the octets that a side buffers, the stamps that the actors 0, 1 and 2 know, and of each round what each actor asks
//! A's send book in its turn, and how often: `write`, `close` or `go_identity` and a number, three times. The books of each round are
//! those that the round before left. Shown is how each round ended, and of A's send book its entries in all and of the actors 0, 1 and 2,
//! its stamps, its last reply, how many octets are written, and whether more may be; and how many entries there are elsewhere.
ghost use Rattle.std.specs.Prelude.{◌≡◌, None, All, IfOk, IsSome};
ghost use Rattle.ruled_desk.specs.WholeRounds.{AreActors};

use crate::caller::{Caller, Errand};
use actor_desk::{Books, Crew, Notes};
use actor_turn::OpenGate;
use case_fields::Case;
use octet_text::Text;
use ruled_desk::{TurnGiver, dismiss_all, meet_all, open_turns, round_at_tables, serve_all};
use send_book::{SendBook, SendCall, SendReply};
use stamped_book::{Book, Pass, Refusal, Stamped};
use std::alloc::{AllocError, Global};
use std::sync::Wait;
use std::thread::{Threads, join_mut};
use world_core::World;

/// Puts the answer to a line.
pub fn at_tables<R: Threads + Wait + Sync>(rt: &R, case: &mut Case, line: &'static str) {
    let Some((opening, rounds)) = line.split_once(" then ") else {
        return case.refuse();
    };
    case.read(opening, " ");
    case.word();
    let buffer: u64 = case.number();
    let known = [case.number(), case.number(), case.number()];
    if buffer < 1 || buffer > 1_048_576 {
        return case.refuse();
    }
    case.put(line);
    case.put("\n  rounds");
    match Books::open(case.alloc, buffer, 0, 0) {
        Ok(books) => {
            let books = beside_workers(rt, case, rounds, known, books);
            put_books(case, &books);
            let_go(case, books);
        }
        Err(_) => case.fail(),
    }
}

/// Lets the books go, as those of a world without actors.
fn let_go(case: &Case, books: Books) {
    World::from_parts(books, Vec::new(case.alloc), true).close();
}

/// All rounds, beside the threads of two workers: the books after them.
fn beside_workers<R: Threads + Wait + Sync>(
    rt: &R,
    case: &mut Case,
    rounds: &'static str,
    known: [u64; 3],
    books: Books,
) -> Books {
    let alloc = case.alloc;
    let (mut givers, mut workers) = open_turns(alloc, 2);
    let mut waits = Some(books);
    let (_served, books) = join_mut(
        rt,
        &mut ||
            requires { All (λ worker. worker ≡ None) workers.items }
        { serve_all(rt, alloc, &mut workers, &OpenGate) },
        &mut || -> Books
            requires { IsSome waits × All (λ giver. giver ≡ None) givers.items }
        { after_rounds(rt, case, rounds, known, &mut waits, &mut givers) },
    );
    if let Some(left) = waits {
        let_go(case, left);
    }
    books
}

/// All rounds over the books that wait, once the workers have come: the books after them.
fn after_rounds<R: Wait>(
    rt: &R,
    case: &mut Case,
    rounds: &'static str,
    known: [u64; 3],
    waits: &mut Option<Books>,
    givers: &mut Vec<TurnGiver<Caller>>,
) -> Books
    requires waits { IsSome waits.old }
    requires rest { All (λ giver. giver ≡ None) givers.old.items }
{
    let Some(mut books) = waits.take() else {
        unreachable!()
    };
    let mut known = known;
    meet_all(rt, givers.as_slice());
    for round in rounds.split(" then ") {
        case.read(round, " ");
        books = after_round(rt, case, &mut known, books, givers);
    }
    dismiss_all(givers);
    books
}

/// A round: the books after it.
fn after_round<R: Wait>(
    rt: &R,
    case: &mut Case,
    known: &mut [u64; 3],
    books: Books,
    givers: &mut [TurnGiver<Caller>],
) -> Books
    requires { All (λ giver. giver ≡ None) givers.old }
    ensures { All (λ giver. giver ≡ None) givers.new }
{
    match crew_of(case, known) {
        Ok(mut crew) => {
            let (ended, books) = round_at_tables(
                rt, case.alloc, &mut crew, books, &OpenGate, givers,
            );
            case.put(end_word(ended));
            *known = [stamp_of(&crew, 0), stamp_of(&crew, 1), stamp_of(&crew, 2)];
            books
        }
        Err(_) => {
            case.fail();
            books
        }
    }
}

/// The three actors of a round, with what they know.
fn crew_of(case: &mut Case, known: &[u64; 3]) -> Result<Vec<Crew<Caller>>, AllocError>
    ensures { IfOk result (λ crew. AreActors 0 crew.items) }
{
    let first = actor_of(case, 0, known[0]);
    let second = actor_of(case, 1, known[1]);
    let third = actor_of(case, 2, known[2]);
    Ok(vec![in case.alloc; first, second, third]?)
}

/// Who asks what the next fields tell, with its stamp.
fn actor_of(case: &mut Case, actor: u8, stamp: u64) -> Crew<Caller>
    ensures { result.pass.actor ≡ actor }
{
    let errand = match case.word() {
        "write" => Errand::Write,
        "close" => Errand::Close,
        _ => Errand::GoIdentity,
    };
    Crew {
        member: Caller {
            errand,
            left: case.number(),
        },
        pass: Pass { actor, stamp },
        list: Notes::new(case.alloc),
        refused: None,
    }
}

/// The stamp that an actor knows.
fn stamp_of(crew: &[Crew<Caller>], actor: usize) -> u64 {
    match crew.get(actor) {
        Some(crew) => crew.pass.stamp,
        None => 0,
    }
}

/// How a round ended, as a word with a blank before it.
fn end_word(ended: Result<(), Refusal>) -> &'static str {
    match ended {
        Ok(()) => " ok",
        Err(Refusal::Memory) => " memory",
        Err(Refusal::Stamps) => " stamps",
    }
}

/// Puts A's send book, and how many entries there are elsewhere, on two lines with LF before each.
fn put_books(case: &mut Case, books: &Books) {
    put_journal(case, &books.send_a);
    put_written(case, books.send_a.book());
    let elsewhere = books.send_b.journal().len() as u64
        + books.reassembly_a.journal().len() as u64
        + books.reassembly_b.journal().len() as u64
        + books.control_a.journal().len() as u64
        + books.control_b.journal().len() as u64;
    case.say_behind(", entries elsewhere ", &elsewhere);
}

/// How many entries of the journal are an actor's.
fn made_by(book: &Stamped<SendBook>, actor: u8) -> u64 {
    book.journal()
        .iter()
        .filter(|entry| entry.actor == actor)
        .count() as u64
}

/// Whether each stamp is above the one before.
fn rises(book: &Stamped<SendBook>) -> bool {
    let mut last = 0;
    for entry in book.journal() {
        if entry.stamp <= last {
            return false;
        }
        last = entry.stamp;
    }
    true
}

fn put_journal(case: &mut Case, book: &Stamped<SendBook>) {
    case.say_behind("\n    entries ", &book.journal().len());
    case.put(" (");
    case.put_numbers(
        ", ",
        &[made_by(book, 0), made_by(book, 1), made_by(book, 2)],
    );
    case.say_behind("), rising ", &rises(book));
    case.say_behind(", last stamp ", &book.last_stamp());
    case.put(", last reply ");
    case.put(match book.journal().last() {
        Some(entry) => reply_word(&entry.reply),
        None => "none",
    });
}

/// A reply of the book, as a word.
fn reply_word(reply: &SendReply) -> &'static str {
    match reply {
        SendReply::Taken(_) => "taken",
        SendReply::Closed => "closed",
        _ => "another",
    }
}

/// How many octets are written, where the book says so of an acknowledgement beyond them.
fn written_in(book: &SendBook) -> Option<u64> {
    let past = SendCall::AckIn {
        next: 1 << 62,
        window: 0,
    };
    match book.answer(&past) {
        Ok(SendReply::AckFuture { written }) => Some(written),
        _ => None,
    }
}

/// Whether the book takes a write.
fn is_open(alloc: Global, book: &SendBook) -> bool {
    let nothing = SendCall::Write {
        bytes: Text::new(alloc),
    };
    matches!(book.answer(&nothing), Ok(SendReply::Taken(_)))
}

/// Puts how many octets are written, and whether more may be.
fn put_written(case: &mut Case, book: &SendBook) {
    case.put("\n    written ");
    if let Some(written) = written_in(book) {
        case.say(&written);
    }
    case.put(", open ");
    let open = is_open(case.alloc, book);
    case.say(&open);
}
