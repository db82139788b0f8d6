//! How the judge ends.

ghost use Rattle.std.specs.Prelude.{◌≡◌, IfOk, string_bytes};
ghost use Rattle.judge_call.specs.Status.{code_of, fault_line, status_of};
ghost use Rattle.judge_call.specs.declared.status.Status.TheVariants.{Memory};

use capture_verdict::Ending;
use std::alloc::{AllocError, AllocFailed, Global};

/// How the judge has ended.
#[derive(Clone, Copy, Debug)]
pub enum Status {
    /// All sides kept all rules.
    Kept,
    /// A side broke a rule, or a join was reset whose connection wasn't found.
    Broken,
    /// There is no connection.
    NoConnection,
    /// The words break the form of the command line.
    Usage,
    /// The capture can't be read.
    Load,
    /// The capture has more than 268,435,456 octets.
    TooLong,
    /// The lines or a stream can't be written.
    Put,
    /// There is no memory.
    Memory,
    /// The record or block that begins at this octet of the capture has no form.
    Block { octet: u64 },
}

impl Status {
    /// That of what was judged.
    pub(crate) fn of(ending: Ending) -> Self
        ensures { result ≡ status_of ending }
    {
        match ending {
            Ending::Kept => Status::Kept,
            Ending::Broken => Status::Broken,
            Ending::NoConnection => Status::NoConnection,
        }
    }

    /// The exit status of the program.
    pub fn code(&self) -> u8
        ensures { result ≡ code_of self.now }
    {
        match self {
            Status::Kept => 0,
            Status::Usage => 4,
            Status::Load => 6,
            Status::Put => 7,
            Status::TooLong => 8,
            Status::Memory => 9,
            Status::Broken => 14,
            Status::NoConnection => 15,
            Status::Block { .. } => 16,
        }
    }

    /// The line that the program prints to standard error, without its end, or an empty text where all was told.
    pub fn fault_text(&self, alloc: Global) -> Result<String, AllocError>
        ensures { IfOk result (λ text. string_bytes text ≡ fault_line self.now) }
    {
        match self {
            Status::Kept => Ok(String::new(alloc)),
            Status::Broken => Ok(String::new(alloc)),
            Status::NoConnection => Ok(String::new(alloc)),
            Status::Usage => String::from_str(
                alloc,
                "mptcp_judge: usage: CAPTURE [--at a|b] [--streams PREFIX] [--no-tcp-sum]",
            ),
            Status::Load => String::from_str(alloc, "mptcp_judge: cannot read capture"),
            Status::Put => String::from_str(alloc, "mptcp_judge: cannot write streams"),
            Status::TooLong => String::from_str(alloc, "mptcp_judge: too big"),
            Status::Memory => String::from_str(alloc, "mptcp_judge: out of memory"),
            Status::Block { octet } => {
                format!(in alloc; "mptcp_judge: cannot read capture: block at octet {octet}")
            }
        }
    }
}

impl From<AllocError> for Status {
    ghost from_gives = { λ _ status. status ≡ Memory };

    fn from(_: AllocError) -> Self {
        Status::Memory
    }
}

impl<T: Drop> From<AllocFailed<T>> for Status {
    ghost from_gives = { λ _ status. status ≡ Memory };

    fn from(_: AllocFailed<T>) -> Self {
        Status::Memory
    }
}
