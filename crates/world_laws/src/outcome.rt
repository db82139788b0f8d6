//! How a connection stands after a round.

use sides::Side;

/// How a connection stands.
#[derive(Clone, Copy)]
pub enum Outcome {
    /// The connection goes on.
    Going,
    /// Both readers were told the end of what they read.
    Delivered,
    /// The reader of this side was told that its peer aborted the connection; of two the one of A.
    Aborted(Side),
    /// Each path is dead, and not both readers were told the end.
    NoPath,
}
