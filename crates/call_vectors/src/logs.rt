//! `log CASE`: what `run_log` answers.
//!
//! - `note STAMP ACTOR OBJECT ASK` and, at a book, ` => REPLY`: the line of that note. An object is `sa`, `sb`, `ra`, `rb`, `ca`, `cb` or
//!   `me`. ASK and REPLY have the words of a log for calls, as `calls.rt` says, and the names of variants with their numbers
//!   for replies, as the head of `reply.rt` says; `write N` and `place AT N` have so many octets. The actor's own steps are `arrive SIDE N`,
//!   `fire SIDE`, `line N`, `sent SIDE N LENGTH SUM` and `end`; a side is `a` or `b`.
//! - `opening WIDTH A B`, `round N`, `outcome NAME`: these lines.
//! - `text ACTORS WIDTH TEXT`, where `;` stands for LF, and `octets ACTORS WIDTH HEX`: `ok` and the turns that the text tells,
//!   an actor by its number and the end of a round as `/`, or the first line that is refused.

mod reply;

use crate::calls::{control_call, reassembly_call, send_call};
use crate::spelling_cases::side_of;
use actor_desk::{Ask, LocalStep, Note, Reply};
use case_fields::{Case, with_line_ends};
use octet_text::Text;
use reassembly_book::ReassemblyCall;
pub use reply::mode_of;
use reply::{control_reply, octets_of, reassembly_reply, send_reply};
use run_log::{LogFault, Outcome, Turn, line, opening, outcome_line, read_log, round_line};
use send_book::SendCall;
use sides::Side;
use std::alloc::AllocError;

/// Puts the answer to a case.
pub fn log(case: &mut Case) {
    match case.word() {
        "text" => put_text(case),
        "octets" => {
            let (actors, width) = (case.number(), case.number());
            let octets = case.octets();
            put_read(case, octets.as_slice(), actors, width);
        }
        "note" => put_note(case),
        name => put_line(case, name),
    }
}

/// Puts the answer to `text ACTORS WIDTH TEXT`.
fn put_text(case: &mut Case) {
    let (actors, width) = (case.number(), case.number());
    match with_line_ends(case.alloc, case.rest()) {
        Ok(lines) => put_read(case, lines.as_bytes(), actors, width),
        Err(_) => case.fail(),
    }
}

/// Puts what `read_log` answers to octets.
fn put_read(case: &mut Case, octets: &[u8], actors: u8, width: u8) {
    match read_log(case.alloc, octets, actors, width) {
        Ok(turns) => put_turns(case, turns.as_slice()),
        Err(LogFault::Line(number)) => {
            case.say_behind("line ", &number);
        }
        Err(LogFault::Memory) => case.fail(),
    }
}

/// Puts turns in words.
fn put_turns(case: &mut Case, turns: &[Turn]) {
    case.put("ok");
    for turn in turns {
        match turn {
            Turn::Step(actor) => {
                case.say_behind(" ", actor);
            }
            Turn::Round => case.put(" /"),
        }
    }
}

/// Puts lines without the end of the last one, which the program ends.
fn put_lines(case: &mut Case, lines: Result<Text, AllocError>) {
    let Ok(lines) = lines else {
        return case.fail();
    };
    match String::from_utf8_lossy(case.alloc, lines.as_bytes()) {
        Ok(text) => case.put(text.as_str().trim_end()),
        Err(_) => case.fail(),
    }
}

/// Puts the line of a note. What the actor knew before is not told, and taken as 0.
fn put_note(case: &mut Case) {
    let (stamp, actor) = (case.number(), case.number());
    let (object, name) = (case.word(), case.word());
    let ask = ask_of(case, object, name);
    let reply = reply_of(case, object);
    let note = Note {
        stamp,
        seen: 0,
        actor,
        ask,
        reply,
    };
    let lines = line(case.alloc, &note);
    put_lines(case, lines);
}

/// Puts a line that tells no note.
fn put_line(case: &mut Case, name: &str) {
    let lines = match name {
        "round" => round_line(case.alloc, case.number()),
        "outcome" => outcome_line(case.alloc, case.one_of(&OUTCOMES, Outcome::Aborted)),
        _ => {
            let (width, key_a, key_b) = (case.number(), case.number(), case.number());
            opening(case.alloc, width, key_a, key_b)
        }
    };
    put_lines(case, lines);
}

/// How a run ends, by its name.
const OUTCOMES: [(&str, Outcome); 4] = [
    ("Delivered", Outcome::Delivered),
    ("Rounds", Outcome::Rounds),
    ("NoPath", Outcome::NoPath),
    ("Aborted", Outcome::Aborted),
];

/// What is asked of an object by a name and numbers.
fn ask_of(case: &mut Case, object: &str, name: &str) -> Ask {
    match object {
        "sa" => Ask::Send(Side::A, send_ask(case, name)),
        "sb" => Ask::Send(Side::B, send_ask(case, name)),
        "ra" => Ask::Reassembly(Side::A, reassembly_ask(case, name)),
        "rb" => Ask::Reassembly(Side::B, reassembly_ask(case, name)),
        "ca" => Ask::Control(Side::A, control_call(case, name)),
        "cb" => Ask::Control(Side::B, control_call(case, name)),
        _ => Ask::Local(local_step(case, name)),
    }
}

/// What a send book is asked.
fn send_ask(case: &mut Case, name: &str) -> SendCall {
    match name {
        "write" => SendCall::Write {
            bytes: octets_of(case),
        },
        _ => send_call(case, name),
    }
}

/// What a reassembly book is asked.
fn reassembly_ask(case: &mut Case, name: &str) -> ReassemblyCall {
    match name {
        "place" => ReassemblyCall::Place {
            at: case.number(),
            bytes: octets_of(case),
        },
        _ => reassembly_call(case, name),
    }
}

/// What the actor does itself, by a name and numbers.
fn local_step(case: &mut Case, name: &str) -> LocalStep {
    match name {
        "arrive" => LocalStep::Arrive {
            to: side_of(case),
            copy: case.number(),
        },
        "fire" => LocalStep::Fire(side_of(case)),
        "line" => LocalStep::Line(case.number()),
        "sent" => LocalStep::Sent {
            from: side_of(case),
            copy: case.number(),
            length: case.number(),
            sum: case.number(),
        },
        _ => LocalStep::End,
    }
}

/// What the object answers.
fn reply_of(case: &mut Case, object: &str) -> Reply {
    if object != "me" && case.word() != "=>" {
        case.refuse();
    }
    match object {
        "sa" | "sb" => Reply::Send(send_reply(case)),
        "ra" | "rb" => Reply::Reassembly(reassembly_reply(case)),
        "ca" | "cb" => Reply::Control(control_reply(case)),
        _ => Reply::Done,
    }
}
