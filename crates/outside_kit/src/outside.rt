ghost use Rattle.std.specs.Prelude.{◌≡◌, ◌≢◌, ◌≤◌, ◌<◌, ◌^◌, ◌++◌, ℕ, List, [], length, Some, is_ok, IsSome, IfOk, IfSome, OnOk, OnErr, vec_len};
ghost use Rattle.outside_kit.specs.declared.port.Port.{Port};
ghost use Rattle.outside_kit.specs.Calls.{Load, Bind, Put, AreCallsAfter};
ghost use Rattle.outside_kit.specs.Faults.{load_words, put_words};
ghost use Rattle.outside_kit.specs.Outside.{Told, HasRisen, HoldsAfter, HoldsPrefix};

use crate::port::Port;
use std::alloc::Global;
use std::error::Error;
use std::fmt;

/// Why a content wasn't loaded.
#[derive(Clone, Copy, Debug)]
pub enum LoadFault {
    /// The device failed.
    Failed,
    /// The content is longer than the limit.
    TooLong,
    /// Out of memory.
    Memory,
}

impl LoadFault {
    /// The fault in words, for messages.
    pub fn words(self) -> &'static str
        ensures { result.now ≡ load_words self }
    {
        match self {
            LoadFault::Failed => "the device failed",
            LoadFault::TooLong => "the content is longer than the limit",
            LoadFault::Memory => "out of memory",
        }
    }
}

impl fmt::Display for LoadFault {
    ghost output = { λ fault. Some (load_words fault) };

    fn fmt<W: fmt::Write>(&self, f: &mut fmt::Formatter<W>) -> fmt::Result {
        f.write_str(self.words())
    }
}

impl Error for LoadFault {}

/// Why a port wasn't bound, or a piece wasn't put.
#[derive(Clone, Copy, Debug, PartialEq, Eq)]
pub enum PutFault {
    /// The device failed.
    Failed,
    /// Out of memory.
    Memory,
}

impl PutFault {
    /// The fault in words, for messages.
    pub fn words(self) -> &'static str
        ensures { result.now ≡ put_words self }
    {
        match self {
            PutFault::Failed => "the device failed",
            PutFault::Memory => "out of memory",
        }
    }
}

impl fmt::Display for PutFault {
    ghost output = { λ fault. Some (put_words fault) };

    fn fmt<W: fmt::Write>(&self, f: &mut fmt::Formatter<W>) -> fmt::Result {
        f.write_str(self.words())
    }
}

impl Error for PutFault {}

/// Named contents to read, and three ports to write.
///
/// An outside counts its faults: those of loads, and for each port those of its binds and puts. A count never falls, and
/// one that has reached 2^64 - 1 stays there.
pub trait Outside {
    /// What it tells of its contents, its ports, its faults and the calls on it.
    ghost told: { Self → Told };

    /// The whole content of `name`, of at most `limit` octets.
    fn load(&mut self, alloc: Global, name: &str, limit: u64) -> Result<Vec<u8>, LoadFault>
        requires { limit < 2 ^ 32 }

        // The content is whole and within the limit. Unless the device fails, it is called too long exactly where it is.
        ensures whole { IfOk result
            (λ bytes. IfSome ((told self.old).content name.now) (λ text. bytes.items ≡ text)) }
        ensures within { IfOk result (λ bytes. vec_len bytes ≤ limit) }
        ensures too_long { result ≡ Err LoadFault.TooLong →
            IfSome ((told self.old).content name.now) (λ text. limit < length text) }
        ensures source_within { OnOk result
            (IfSome ((told self.old).source name.now) (λ text. length text ≤ limit)) }
        ensures fits { result ≡ Err LoadFault.Memory →
            IfSome ((told self.old).source name.now) (λ text. length text ≤ limit) }

        // The count of loads never falls, and a fault of the device has raised it.
        ensures counted { (told self.old).load_faults ≤ (told self.new).load_faults }
        ensures failed { result ≡ Err LoadFault.Failed →
            HasRisen (told self.old).load_faults (told self.new).load_faults }

        // All else is as it was.
        ensures same_contents { (other : List ℕ) → (told self.new).content other ≡
            (told self.old).content other }
        ensures same_ports { (port : Port) → (told self.new).holds port ≡
            (told self.old).holds port }
        ensures same_counts { (port : Port) →
            (told self.new).port_faults port ≡ (told self.old).port_faults port }

        // Where the calls are still told, this one is the last.
        ensures recorded { AreCallsAfter (Load name.now) (is_ok result) (told self.old).calls
            (told self.new).calls };

    /// Keeps under `name` what is put to the port from now on, and leaves the port empty.
    fn bind(&mut self, port: Port, name: &str) -> Result<(), PutFault>
        ensures empty { OnOk result
            (HoldsAfter ((told self.old).holds port) ((told self.new).holds port) (λ _. [])) }
        ensures err { OnErr result ((told self.new).holds port ≡ (told self.old).holds port) }

        ensures counted { (told self.old).port_faults port ≤ (told self.new).port_faults port }
        ensures failed { result ≡ Err PutFault.Failed →
            HasRisen ((told self.old).port_faults port) ((told self.new).port_faults port) }

        ensures told { (other : List ℕ) → IsSome ((told self.old).content other) →
            IsSome ((told self.new).content other) }
        ensures other_ports { (other : Port) → other ≢ port →
            (told self.new).holds other ≡ (told self.old).holds other }
        ensures other_counts { (other : Port) → other ≢ port →
            (told self.new).port_faults other ≡ (told self.old).port_faults other }
        ensures load_counts { (told self.new).load_faults ≡ (told self.old).load_faults }

        ensures recorded { AreCallsAfter (Bind port name.now) (is_ok result) (told self.old).calls
            (told self.new).calls };

    /// Puts the piece at the end of what the port holds. Where it can't, the port has a prefix of the piece.
    fn put(&mut self, port: Port, piece: &[u8]) -> Result<(), PutFault>
        ensures ok { OnOk result
            (HoldsAfter ((told self.old).holds port) ((told self.new).holds port) (λ held. held ++ piece.now)) }
        ensures err { OnErr result
            (HoldsPrefix ((told self.old).holds port) ((told self.new).holds port) piece.now) }

        ensures counted { (told self.old).port_faults port ≤ (told self.new).port_faults port }
        ensures failed { result ≡ Err PutFault.Failed →
            HasRisen ((told self.old).port_faults port) ((told self.new).port_faults port) }

        ensures told { (other : List ℕ) → IsSome ((told self.old).content other) →
            IsSome ((told self.new).content other) }
        ensures other_ports { (other : Port) → other ≢ port →
            (told self.new).holds other ≡ (told self.old).holds other }
        ensures other_counts { (other : Port) → other ≢ port →
            (told self.new).port_faults other ≡ (told self.old).port_faults other }
        ensures load_counts { (told self.new).load_faults ≡ (told self.old).load_faults }

        ensures recorded { AreCallsAfter (Put port piece.now) (is_ok result) (told self.old).calls
            (told self.new).calls };
}
