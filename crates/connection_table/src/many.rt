//! How a run of many connections ends.

ghost use Rattle.std.specs.Prelude.{◌≡◌, ◌++◌, IfOk, codes, string_bytes};
ghost use Rattle.std.specs.Fmt.{decimal};
ghost use Rattle.connection_table.specs.Many.{code_of, fault_line};
ghost use Rattle.connection_table.specs.declared.many.Many.TheVariants.{Memory};

use link_script::ScriptKind;
use std::alloc::{AllocError, AllocFailed, Global};

/// How a run of many connections has ended. Lines of the list are counted from 1, and line 0 is the list itself; `entry` and
/// `holder` are numbers of connections, counted from 0.
#[derive(Clone, Copy, Debug)]
pub enum Many {
    /// Each connection has its line.
    Done,
    /// The words break the form of the command line.
    Usage,
    /// An input that this line names can't be read.
    Load {
        line: u64,
    },
    /// An input that this line names is longer than 65,536 octets.
    TooLong {
        line: u64,
    },
    /// A line of the list, which is out of form, or one too many.
    List {
        line: u64,
    },
    /// The script of this connection is refused at this line.
    Script {
        entry: u8,
        line: u64,
        kind: ScriptKind,
    },
    /// The connection of this line has the token of another one.
    SameToken {
        line: u64,
        holder: u8,
    },
    /// A line can't be written.
    Put,
    /// There is no memory.
    Memory,
}

impl Many {
    /// The exit status of the program.
    pub fn code(&self) -> u8
        ensures { result ≡ code_of self.now }
    {
        match self {
            Many::Done => 0,
            Many::Usage => 4,
            Many::Script { .. } => 5,
            Many::Load { .. } => 6,
            Many::Put => 7,
            Many::TooLong { .. } => 8,
            Many::Memory => 9,
            Many::List { .. } => 11,
            Many::SameToken { .. } => 13,
        }
    }

    /// The line that the program prints to standard error, without its end, or an empty text where each connection has its line.
    pub fn fault_text(&self, alloc: Global) -> Result<String, AllocError>
        ensures { IfOk result (λ text. string_bytes text ≡ fault_line self.now) }
    {
        match self {
            Many::Done => Ok(String::new(alloc)),
            other => {
                let code = other.code();
                format!(in alloc; "mptcp_sim: many {code}")
            }
        }
    }
}

impl From<AllocError> for Many {
    ghost from_gives = { λ _ many. many ≡ Memory };

    fn from(_: AllocError) -> Self {
        Many::Memory
    }
}

impl<T: Drop> From<AllocFailed<T>> for Many {
    ghost from_gives = { λ _ many. many ≡ Memory };

    fn from(_: AllocFailed<T>) -> Self {
        Many::Memory
    }
}
