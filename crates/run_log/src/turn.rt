//! What a log tells of a run: its turns.

/// A step of an actor, or the end of a round.
#[derive(Clone, Copy)]
pub enum Turn {
    /// The actor with this number makes its next step. 0 and 1 are the applications of A and B, and 2 + i is path i.
    Step(u8),
    /// The round ends.
    Round,
}
