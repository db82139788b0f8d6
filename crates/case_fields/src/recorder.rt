//! An outside that notes which calls are made on it, as lines for a reader: what the clause on the order of work promises.

use outside_kit::{LoadFault, MemoryOutside, Outside, Port, PutFault};
use std::alloc::Global;

/// An outside in memory, and a line for each call that was made on it. It tells contracts nothing of what it holds.
#[derive(Drop)]
pub struct Recorder {
    outside: MemoryOutside,
    calls: String,
    /// Whether memory for a line was wanting.
    is_cut: bool,
}

/// The word of a port.
fn port_word(port: Port) -> &'static str {
    match port {
        Port::ReadByA => "read-by-a",
        Port::ReadByB => "read-by-b",
        Port::Log => "log",
    }
}

impl Recorder {
    /// Before the first call.
    pub fn new(alloc: Global, outside: MemoryOutside) -> Self {
        Recorder {
            outside,
            calls: String::new(alloc),
            is_cut: false,
        }
    }

    /// What a port holds, lent.
    pub fn port(&self, port: Port) -> &[u8] {
        self.outside.port(port)
    }

    /// The calls that were made: each on a line of its own, with LF before it. None where memory for a line was wanting.
    pub fn calls(&self) -> Option<&str> {
        if self.is_cut {
            None
        } else {
            Some(self.calls.as_str())
        }
    }
}

impl Outside for Recorder {
    ghost use Rattle.std.specs.Prelude.{None};
    ghost use Rattle.outside_kit.specs.Memory.{port_of};

    ghost told = { λ recorder. record {
      content = λ _. None;
      source = λ _. None;
      holds = λ _. None;
      load_faults = recorder.outside.memory.load_faults;
      port_faults = λ port. (port_of port recorder.outside.memory).faults;
      calls = None;
    } };

    fn load(&mut self, alloc: Global, name: &str, limit: u64) -> Result<Vec<u8>, LoadFault> {
        self.is_cut |= write!(self.calls, "\n    load {name} {limit}").is_err();
        self.outside.load(alloc, name, limit)
    }

    fn bind(&mut self, port: Port, name: &str) -> Result<(), PutFault> {
        self.is_cut |= write!(self.calls, "\n    bind {} {name}", port_word(port)).is_err();
        self.outside.bind(port, name)
    }

    fn put(&mut self, port: Port, piece: &[u8]) -> Result<(), PutFault> {
        self.is_cut |= write!(self.calls, "\n    put {} {}", port_word(port), piece.len()).is_err();
        self.outside.put(port, piece)
    }
}
