//! What a step is answered.

use actor_desk::Note;

/// What a step of an actor is answered.
#[derive(Drop)]
pub enum Stepped {
    /// The step was made, and this is its note.
    Made(Note),
    /// The actor's turn had ended, or there is no such actor: nothing changed.
    Ended,
}
