//! Why a text is no log.

ghost use Rattle.std.specs.Prelude.{◌≡◌, Some};
ghost use Rattle.run_log.specs.declared.fault.LogFault.TheVariants.{Memory};
ghost use Rattle.run_log.specs.Faults.{fault_words};

use std::alloc::{AllocError, AllocFailed};
use std::error::Error;
use std::fmt;

/// Why a text was not read as a log.
#[derive(Clone, Copy, Debug)]
pub enum LogFault {
    /// The first line that is refused, counted from 1. Where the outcome is missing, it is one more than the last line.
    Line(u64),
    /// Out of memory.
    Memory,
}

impl fmt::Display for LogFault {
    ghost output = { λ fault. Some (fault_words fault) };

    fn fmt<W: fmt::Write>(&self, f: &mut fmt::Formatter<W>) -> fmt::Result {
        match self {
            LogFault::Line(line) => write!(f, "line {line}"),
            LogFault::Memory => f.write_str("out of memory"),
        }
    }
}

impl Error for LogFault {}

impl From<AllocError> for LogFault {
    ghost from_gives = { λ _ fault. fault ≡ Memory };

    fn from(_: AllocError) -> Self {
        LogFault::Memory
    }
}

impl<T: Drop> From<AllocFailed<T>> for LogFault {
    ghost from_gives = { λ _ fault. fault ≡ Memory };

    fn from(_: AllocFailed<T>) -> Self {
        LogFault::Memory
    }
}
