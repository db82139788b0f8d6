//! What the readers were told: the outcome of a connection asks for it after each round.

ghost use Rattle.std.specs.Prelude.{◌≡◌, take};
ghost use Rattle.world_core.specs.Hearing.{WasHeard, told_of, told_by, heard_by, heard_told, with_told};
ghost use Rattle.world_laws.specs.Outcomes.{tells_end, tells_abort, note_tells, was_told, notes_at};

use crate::member::Crew;
use crate::weaving::notes_from;
use actor_desk::{Note, Reply};
use actor_turn::Report;
use reassembly_book::ReassemblyReply;
use std::alloc::AllocError;

/// What a reader was told.
#[derive(Clone, Copy)]
pub struct Told {
    /// The end of its stream.
    pub end: bool,
    /// The peer's abort of the connection.
    pub abort: bool,
}

/// What both readers were told.
#[derive(Clone, Copy)]
pub struct Hearing {
    pub a: Told,
    pub b: Told,
}

/// What both readers were told by their first steps, and how many of each these are.
#[derive(Clone, Copy)]
pub struct Heard {
    pub told: Hearing,
    pub steps_a: usize,
    pub steps_b: usize,
}

fn tells_end(reply: &Reply) -> bool
    ensures { result ≡ tells_end reply.now }
{
    matches!(reply, Reply::Reassembly(ReassemblyReply::End))
}

fn tells_abort(reply: &Reply) -> bool
    ensures { result ≡ tells_abort reply.now }
{
    match reply {
        Reply::Reassembly(ReassemblyReply::Aborted { by_peer }) => *by_peer,
        _ => false,
    }
}

// Whether the step told the reader the end.
fn is_end(note: &Note) -> bool
    ensures { result ≡ note_tells tells_end note.now }
{
    tells_end(&note.reply)
}

// Whether it told the reader that the peer aborted the connection.
fn is_abort(note: &Note) -> bool
    ensures { result ≡ note_tells tells_abort note.now }
{
    tells_abort(&note.reply)
}

/// What a reader is told by this reply.
pub(crate) fn told_of(reply: &Reply) -> Told
    ensures { result ≡ told_of reply.now }
{
    Told {
        end: tells_end(reply),
        abort: tells_abort(reply),
    }
}

impl Report for Told {
    ghost of = { λ note. told_of note.reply };

    fn of(note: &Note) -> Result<Told, AllocError> {
        Ok(told_of(&note.reply))
    }
}

impl Told {
    // What was told, and this too.
    fn with(self, more: Told) -> Told
        ensures { result ≡ with_told more self }
    {
        Told {
            end: self.end || more.end,
            abort: self.abort || more.abort,
        }
    }
}

// Whether one of these steps told the reader the end.
fn has_end(notes: &[Note]) -> bool
    ensures { result ≡ was_told tells_end notes.now }
{
    notes.iter().any(|note| is_end(note))
}

// Whether one of them told it that the peer aborted the connection.
fn has_abort(notes: &[Note]) -> bool
    ensures { result ≡ was_told tells_abort notes.now }
{
    notes.iter().any(|note| is_abort(note))
}

// What a reader was told by these steps.
fn told_by(notes: &[Note]) -> Told
    ensures { result ≡ told_by notes.now }
{
    Told {
        end: has_end(notes),
        abort: has_abort(notes),
    }
}

// What a reader was told by these steps, from what the first ones told.
fn told_later(told: Told, steps: usize, notes: &[Note]) -> Told
    requires { told ≡ told_by (take steps notes.now) }
    ensures { result ≡ told_by notes.now }
{
    told.with(told_by(notes_from(notes, steps)))
}

// The steps of an actor, none where there is no such actor.
pub(crate) fn notes_at(crew: &[Crew], actor: usize) -> &[Note]
    ensures { result.now ≡ notes_at actor crew.now }
{
    match crew.get(actor) {
        Some(crew) => crew.list.as_slice(),
        None => &[],
    }
}

impl Hearing {
    /// What the readers among these were told, the actors 0 and 1.
    pub(crate) fn of(crew: &[Crew]) -> Hearing
        ensures { result ≡ heard_by crew.now }
    {
        Hearing {
            a: told_by(notes_at(crew, 0)),
            b: told_by(notes_at(crew, 1)),
        }
    }

    /// An actor was told this more.
    pub(crate) fn take_told(&mut self, actor: u8, told: Told)
        ensures { self.new ≡ heard_told actor told self.old }
    {
        match actor {
            0 => self.a = self.a.with(told),
            1 => self.b = self.b.with(told),
            _ => {}
        }
    }
}

impl Heard {
    /// What the readers among these were told, whose first steps are those: only the steps behind them are looked at.
    pub(crate) fn and_later(self, crew: &[Crew]) -> Hearing
        requires { WasHeard self crew.now }
        ensures { result ≡ heard_by crew.now }
    {
        Hearing {
            a: told_later(self.told.a, self.steps_a, notes_at(crew, 0)),
            b: told_later(self.told.b, self.steps_b, notes_at(crew, 1)),
        }
    }
}
