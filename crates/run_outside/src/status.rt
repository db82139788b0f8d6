ghost use Rattle.std.specs.Prelude.{◌≡◌, IfOk, string_bytes};
ghost use Rattle.run_outside.specs.Status.{code_of, fault_line, input_word, port_word};

use link_script::ScriptKind;
use outside_kit::Port;
use sides::Side;
use std::alloc::{AllocError, Global};

/// An input of a run.
#[derive(Clone, Copy, Debug)]
pub enum Named {
    /// The script: how the connection is to run, its paths, and what happens on them.
    Script,
    /// What A sends.
    FileA,
    /// What B sends.
    FileB,
    /// The log whose steps are made again.
    Order,
}

/// How a run has ended.
#[derive(Clone, Copy, Debug)]
pub enum Status {
    /// Both readers were told the end of what the other side sends.
    Delivered,
    /// The rounds are used up.
    Rounds,
    /// Every path is dead, and not both readers were told the end.
    NoPath,
    /// The reader of this side was told that its peer aborted the connection (RFC 8684, section 3.5).
    Aborted { reader: Side },
    /// The words break the form of the command line.
    Usage,
    /// The script is refused at this line, counted from 1.
    Script { line: u64, kind: ScriptKind },
    /// An input can't be read.
    Load { input: Named },
    /// A port can't be written.
    Put { port: Port },
    /// An input is longer than its limit.
    TooLong { input: Named },
    /// There is no memory.
    Memory,
    /// The log is refused at this line, counted from 1: it breaks the form of a log, or its turn can't be made.
    Log { line: u64 },
}

impl Status {
    /// The exit status of the program.
    pub fn code(&self) -> u8
        ensures { result ≡ code_of self.now }
    {
        match self {
            Status::Delivered => 0,
            Status::Rounds => 1,
            Status::NoPath => 2,
            Status::Aborted { .. } => 3,
            Status::Usage => 4,
            Status::Script { .. } => 5,
            Status::Load { .. } => 6,
            Status::Put { .. } => 7,
            Status::TooLong { .. } => 8,
            Status::Memory => 9,
            Status::Log { .. } => 12,
        }
    }
}

impl Named {
    /// The word of the input in a fault's line.
    fn word(self) -> &'static str
        ensures { result.now ≡ input_word self }
    {
        match self {
            Named::Script => "script",
            Named::FileA => "file-a",
            Named::FileB => "file-b",
            Named::Order => "order",
        }
    }
}

fn word_of(port: Port) -> &'static str
    ensures { result.now ≡ port_word port }
{
    match port {
        Port::ReadByA => "read-by-a",
        Port::ReadByB => "read-by-b",
        Port::Log => "log",
    }
}

/// The line that the program prints to standard error, without its end, or an empty text where the run came to one
/// of its own ends.
pub fn fault_text(alloc: Global, status: &Status) -> Result<String, AllocError>
    ensures { IfOk result (λ text. string_bytes text ≡ fault_line status.now) }
{
    match status {
        Status::Delivered => Ok(String::new(alloc)),
        Status::Rounds => Ok(String::new(alloc)),
        Status::NoPath => Ok(String::new(alloc)),
        Status::Aborted { .. } => Ok(String::new(alloc)),
        Status::Usage => String::from_str(
            alloc,
            "mptcp_sim: usage: --mode run|serial|timed|replay|bench SCRIPT FILE_A FILE_B READ_BY_B READ_BY_A [--rounds N] [--order LOG] [--number N]",
        ),
        Status::Script { line, kind } => {
            format!(in alloc; "mptcp_sim: script line {line}: {}", kind.word())
        }
        Status::Load { input } => format!(in alloc; "mptcp_sim: cannot read {}", input.word()),
        Status::Put { port } => format!(in alloc; "mptcp_sim: cannot write {}", word_of(*port)),
        Status::TooLong { input } => format!(in alloc; "mptcp_sim: too long: {}", input.word()),
        Status::Memory => String::from_str(alloc, "mptcp_sim: out of memory"),
        Status::Log { line } => format!(in alloc; "mptcp_sim: log line {line}"),
    }
}
