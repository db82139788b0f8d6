//! Why a step of the handshake takes nothing from the segment that came.

ghost use Rattle.std.specs.Prelude.{Some};
ghost use Rattle.capable_handshake.specs.Faults.{fault_words};

use std::error::Error;
use std::fmt;

/// Why a step of the handshake takes nothing from the segment that came.
#[derive(Clone, Copy, Debug)]
pub enum CapableFault {
    /// The segment has no MP_CAPABLE of the step's form. One of another form counts as absent, as does any other
    /// option.
    NoOption,
    /// The segment has both keys, and the one that should be the own key is another.
    KeysDiffer {
        /// The own key.
        own: u64,
    },
}

impl fmt::Display for CapableFault {
    ghost output = { λ fault. Some (fault_words fault) };

    fn fmt<W: fmt::Write>(&self, f: &mut fmt::Formatter<W>) -> fmt::Result {
        match self {
            CapableFault::NoOption => f.write_str("no MP_CAPABLE of this step"),
            CapableFault::KeysDiffer { own } => write!(f, "the receiver's key is not {own}"),
        }
    }
}

impl Error for CapableFault {}
