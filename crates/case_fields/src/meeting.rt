//! A gate at which actors meet.

use crate::case::Case;
use crate::meet::MeetGate;
use actor_turn::Gate;
use sides::{Object, Side};
use std::alloc::AllocError;
use std::sync::atomic::{AtomicU64, Ordering};

/// How often an actor looks whether all have come.
const TRIES: u64 = 10_000_000;

/// A gate at which actors meet, and which counts the turns.
#[derive(Drop)]
pub struct CountingGate {
    meets: MeetGate,
    turns: AtomicU64,
}

impl Gate for CountingGate {
    fn turn(&self, actor: u8) {
        self.turns.fetch_add(1, Ordering::SeqCst);
        self.meets.turn(actor);
    }

    fn held(&self, actor: u8, object: Object) {
        self.meets.held(actor, object);
    }
}

/// The book of the next two fields.
fn book_of(case: &mut Case) -> Object {
    let (kind, side) = (case.word(), case.word());
    let side = if side == "a" { Side::A } else { Side::B };
    match kind {
        "send" => Object::Send(side),
        "reassembly" => Object::Reassembly(side),
        _ => Object::Control(side),
    }
}

/// Actors, each with the book whose lock it holds.
fn places_of(case: &mut Case) -> Result<Vec<(u8, Object)>, AllocError> {
    let mut places = Vec::new(case.alloc);
    for _ in 0..16 {
        if case.has_more() {
            let actor = case.number();
            places.push((actor, book_of(case)))?;
        }
    }
    Ok(places)
}

/// The numbers of actors.
fn actors_of(case: &mut Case) -> Result<Vec<u8>, AllocError> {
    let mut actors = Vec::new(case.alloc);
    for _ in 0..16 {
        if case.has_more() {
            actors.push(case.number())?;
        }
    }
    Ok(actors)
}

/// The gate at which the actors meet that the fields tell which are still to be read: `turns` and numbers of actors, which meet at the
/// beginning of their turns; or `holds` and of each actor its number, the kind of a book, `send`, `reassembly` or `control`, and its side,
/// `a` or `b`: each holds the lock of that book while they meet.
pub fn gate_of(case: &mut Case) -> Result<CountingGate, AllocError> {
    let meets = if case.word() == "turns" {
        let actors = actors_of(case)?;
        MeetGate::turns(case.alloc, &actors, TRIES)?
    } else {
        let places = places_of(case)?;
        MeetGate::holds(case.alloc, &places, TRIES)?
    };
    Ok(CountingGate {
        meets,
        turns: AtomicU64::new(0),
    })
}

/// How many rounds a log tells.
fn rounds_in(log: &[u8]) -> u64 {
    let lines = log.split(|octet| *octet == b'\n');
    lines.filter(|line| line.starts_with(b"round ")).count() as u64
}

/// Puts whether all met, and by the log of their run how many turns there are in each round; 0 where that is no whole number.
pub fn put_meeting(case: &mut Case, gate: &CountingGate, log: &[u8]) {
    let (turns, rounds) = (gate.turns.load(Ordering::SeqCst), rounds_in(log));
    let each = match turns.checked_rem(rounds) {
        Some(0) => turns.checked_div(rounds).unwrap_or(0),
        _ => 0,
    };
    case.say_behind("\n  met ", &gate.meets.met());
    case.say_behind("\n  turns in each round ", &each);
}
