//! How a run ended.

ghost use Rattle.std.specs.Prelude.{◌≡◌, Some};
ghost use Rattle.run_log.specs.Lines.{outcome_word};

use std::fmt;

/// How a run ended, as its log tells it.
#[derive(Clone, Copy)]
pub enum Outcome {
    /// Both readers were told the end of what the other side sends.
    Delivered,
    /// The rounds were used up.
    Rounds,
    /// Every path is dead.
    NoPath,
    /// The peer of a side ended the connection at once (RFC 8684, section 3.5).
    Aborted,
}

impl Outcome {
    /// Every outcome.
    pub const ALL: [Outcome; 4] = [
        Outcome::Delivered,
        Outcome::Rounds,
        Outcome::NoPath,
        Outcome::Aborted,
    ];

    /// The word of the outcome in a log.
    pub fn word(self) -> &'static str
        ensures { result.now ≡ outcome_word self }
    {
        match self {
            Outcome::Delivered => "delivered",
            Outcome::Rounds => "rounds",
            Outcome::NoPath => "no-path",
            Outcome::Aborted => "aborted",
        }
    }
}

impl fmt::Display for Outcome {
    ghost output = { λ outcome. Some (outcome_word outcome) };

    fn fmt<W: fmt::Write>(&self, f: &mut fmt::Formatter<W>) -> fmt::Result {
        f.write_str(self.word())
    }
}
