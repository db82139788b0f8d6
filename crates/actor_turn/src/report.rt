//! What is kept of a step's note for whoever had the step made.

ghost use Rattle.std.specs.Prelude.{◌≡◌, IfOk};
ghost use Rattle.actor_desk.specs.declared.ask.Note.{Note};

use actor_desk::Note;
use std::alloc::AllocError;

/// What is wanted of a note. Only who wants all of it has it copied.
pub trait Report {
    /// What it is of this note.
    ghost of: { Note → Self };

    /// The report of a note.
    ///
    /// # Errors
    ///
    /// Only where there is no memory for it.
    fn of(note: &Note) -> Result<Self, AllocError>
        ensures { IfOk result (λ report. report ≡ of note.now) };
}

impl Report for Note {
    ghost of = { λ note. note };

    fn of(note: &Note) -> Result<Note, AllocError> {
        note.copy()
    }
}

/// Nothing is wanted.
impl Report for () {
    ghost of = { λ note. tt };

    fn of(_note: &Note) -> Result<(), AllocError> {
        Ok(())
    }
}
