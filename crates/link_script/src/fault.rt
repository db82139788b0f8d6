//! Why a text is no script.

ghost use Rattle.std.specs.Prelude.{◌≡◌, Some};
ghost use Rattle.link_script.specs.declared.fault.ScriptFault.TheVariants.{Memory};
ghost use Rattle.link_script.specs.Faults.{kind_word, fault_words};

use std::alloc::{AllocError, AllocFailed};
use std::error::Error;
use std::fmt;

/// What is wrong with a line. Of several kinds a line has the first in this order.
#[derive(Clone, Copy, Debug)]
pub enum ScriptKind {
    /// The line is past the last that a script may have.
    TooMany,
    /// The first line is neither `mptcp-script 1` nor `mptcp-script 2`.
    Header,
    /// The first word is unknown, there are too few or too many words, or a fixed word is another.
    Word,
    /// A number isn't one, or is out of its range.
    Number,
    /// The line can't stand after the lines before it.
    Order,
    /// A line before it has settled the same thing.
    Repeated,
    /// There is no line `end`: the line is one more than the last.
    Missing,
}

impl ScriptKind {
    /// The word of the kind in messages.
    pub fn word(self) -> &'static str
        ensures { result.now ≡ kind_word self }
    {
        match self {
            ScriptKind::TooMany => "too-many",
            ScriptKind::Header => "header",
            ScriptKind::Word => "word",
            ScriptKind::Number => "number",
            ScriptKind::Order => "order",
            ScriptKind::Repeated => "repeated",
            ScriptKind::Missing => "missing",
        }
    }
}

impl fmt::Display for ScriptKind {
    ghost output = { λ kind. Some (kind_word kind) };

    fn fmt<W: fmt::Write>(&self, f: &mut fmt::Formatter<W>) -> fmt::Result {
        f.write_str(self.word())
    }
}

/// Why a text was not read as a script.
#[derive(Clone, Copy, Debug)]
pub enum ScriptFault {
    /// The first line that is refused, counted from 1 over all lines, and why.
    Line { line: u64, kind: ScriptKind },
    /// Out of memory.
    Memory,
}

impl fmt::Display for ScriptFault {
    ghost output = { λ fault. Some (fault_words fault) };

    fn fmt<W: fmt::Write>(&self, f: &mut fmt::Formatter<W>) -> fmt::Result {
        match self {
            ScriptFault::Line { line, kind } => write!(f, "line {line}: {kind}"),
            ScriptFault::Memory => f.write_str("out of memory"),
        }
    }
}

impl Error for ScriptFault {}

impl From<AllocError> for ScriptFault {
    ghost from_gives = { λ _ fault. fault ≡ Memory };

    fn from(_: AllocError) -> Self {
        ScriptFault::Memory
    }
}

impl<T: Drop> From<AllocFailed<T>> for ScriptFault {
    ghost from_gives = { λ _ fault. fault ≡ Memory };

    fn from(_: AllocFailed<T>) -> Self {
        ScriptFault::Memory
    }
}
