ghost use Rattle.outside_kit.specs.Memory.{content_named, kept_at, stored, emptied, grown, after_fault};
ghost use Rattle.outside_kit.specs.Calls.{Load, Bind, Put, AreCallsAfter, made_of};
ghost use Rattle.outside_kit.specs.Outside.{HasRisen};
ghost use Rattle.std.specs.Prelude.{◌≡◌, ◌≢◌, ◌≤◌, ◌<◌, ◌↔◌, ◌⊎◌, [], length, map, Option, Some, None, take, is_ok, IsSome, IsNone, IfOk, IfSome, OnOk, OnErr, vec_len, option_copied, option_map, IsTrue, IsErrOf, IsSomeAnd};

use crate::calls::{CallRecord, RecordedCall};
use crate::files::{FailAt, NamedFile};
use crate::outside::{LoadFault, Outside, PutFault};
use crate::port::Port;
use std::alloc::Global;
use std::marker::Model;

/// An outside whose files and ports lie in memory. It tells everything, and fails where it is told to. A call that can't be noted
/// for want of memory is refused for it, and then it tells nothing more of the calls that were made on it; but a load that fails
/// otherwise is answered so all the same.
#[derive(Drop)]
pub struct MemoryOutside {
    files: Vec<NamedFile>,
    failing: Vec<FailAt>,
    /// How many calls were made, of loads, binds and puts together.
    calls: u64,
    load_faults: u64,
    read_by_a: MemoryPort,
    read_by_b: MemoryPort,
    log: MemoryPort,
    made: CallRecord,
}

/// What was put to a port, and how many of its binds and puts have failed.
#[derive(Drop)]
struct MemoryPort {
    held: Vec<u8>,
    faults: u64,
}

impl Model for MemoryPort {
    ghost use Rattle.outside_kit.specs.Memory.{StoredPort};

    ghost Value = { StoredPort };

    ghost view = { λ port. record { held = port.held.items; faults = port.faults } };
}

impl Model for MemoryOutside {
    ghost use Rattle.std.specs.Prelude.{map};
    ghost use Rattle.outside_kit.specs.Memory.{Recorded, stored};

    ghost Value = { Recorded };

    ghost view = { λ outside. record {
      memory = record {
        files = map stored outside.files.items;
        failing = outside.failing.items;
        calls = outside.calls;
        load_faults = outside.load_faults;
        read_by_a = outside.read_by_a;
        read_by_b = outside.read_by_b;
        log = outside.log;
      };
      made = outside.made;
    } };
}

impl MemoryPort {
    /// A port with nothing put to it, which takes no memory.
    fn new(alloc: Global) -> Self
        ensures { result ≡ record { held = []; faults = 0 } }
    {
        MemoryPort {
            held: Vec::new(alloc),
            faults: 0,
        }
    }

    fn put(&mut self, piece: &[u8]) -> Result<(), PutFault>
        ensures ok { OnOk result (self.new ≡ grown piece.now self.old) }
        ensures err { OnErr result (self.new ≡ self.old) }
        ensures memory { result ≢ Err PutFault.Failed }
    {
        match self.held.extend_from_slice(piece) {
            Ok(()) => Ok(()),
            Err(_) => Err(PutFault::Memory),
        }
    }

    /// The port with so much of what it holds, and this count of faults.
    fn restore(&mut self, len: usize, faults: u64)
        ensures { self.new ≡ record { held = take len self.old.held; faults = faults } }
    {
        self.held.truncate(len);
        self.faults = faults;
    }

    /// A put fails with these octets put all the same, or is refused for want of memory.
    fn fail(&mut self, kept: &[u8]) -> PutFault
        ensures failed { result ≡ PutFault.Failed →
            self.new ≡ after_fault (grown kept.now self.old) }
        ensures risen { result ≡ PutFault.Failed → HasRisen self.old.faults self.new.faults }
        ensures memory { result ≡ PutFault.Memory → self.new ≡ self.old }
    {
        match self.held.extend_from_slice(kept) {
            Ok(()) => {
                self.faults = self.faults.saturating_add(1);
                PutFault::Failed
            }
            Err(_) => PutFault::Memory,
        }
    }
}

/// The content of the first file of that name.
fn content_of<'a>(files: &'a [NamedFile], name: &str) -> Option<&'a [u8]>
    ensures { option_copied result ≡ content_named (map stored files.now) name.now }
{
    for file in files {
        if file.name.as_str() == name {
            return Some(file.content.as_slice());
        }
    }
    None
}

/// How much of its piece the call of that number keeps, where it is to fail.
fn kept_of(failing: &[FailAt], call: u64) -> Option<u64>
    ensures { result ≡ kept_at failing.now call }
{
    for fail in failing {
        if fail.call == call {
            return Some(fail.kept);
        }
    }
    None
}

impl MemoryOutside {
    ghost use Rattle.outside_kit.specs.Memory.{new_memory, stored, port_of, after_call, kept_next};

    /// An outside with these files, whose calls of these numbers fail. Its ports are empty, and it has counted no
    /// fault. It tells that no call was made. It takes no memory.
    pub fn new(alloc: Global, files: Vec<NamedFile>, failing: Vec<FailAt>) -> Self
        ensures { result ≡
            record { memory = new_memory (map stored files.items) failing.items; made = Some [] } }
    {
        MemoryOutside {
            files,
            failing,
            calls: 0,
            load_faults: 0,
            read_by_a: MemoryPort::new(alloc),
            read_by_b: MemoryPort::new(alloc),
            log: MemoryPort::new(alloc),
            made: CallRecord::new(alloc),
        }
    }

    /// What the port holds, lent.
    pub fn port(&self, port: Port) -> &[u8]
        ensures { result.now ≡ (port_of port self.now.memory).held }
    {
        match port {
            Port::ReadByA => self.read_by_a.held.as_slice(),
            Port::ReadByB => self.read_by_b.held.as_slice(),
            Port::Log => self.log.held.as_slice(),
        }
    }

    /// The calls that were made on it, in order, where it tells them.
    pub fn calls(&self) -> Option<&[RecordedCall]>
        ensures { option_map (λ calls. map made_of calls.now) result ≡ self.now.made }
    {
        self.made.calls()
    }

    /// Counts a call, and says how much of its piece it keeps, where it is to fail.
    fn start_call(&mut self) -> Option<u64>
        ensures counted { self.new.memory ≡ after_call self.old.memory }
        ensures kept { result ≡ kept_next self.old.memory }
        ensures made { self.new.made ≡ self.old.made }
    {
        self.calls = self.calls.saturating_add(1);
        kept_of(&self.failing, self.calls)
    }
}

/// A copy of a content that is within the limit.
fn copy_within(alloc: Global, content: &[u8], limit: u64) -> Result<Vec<u8>, LoadFault>
    ensures whole { IfOk result (λ bytes. bytes.items ≡ content.now) }
    ensures within { OnOk result (length content.now ≤ limit) }
    ensures too_long { result ≡ Err LoadFault.TooLong → limit < length content.now }
    ensures fits { result ≡ Err LoadFault.Memory → length content.now ≤ limit }
    ensures failed { result ≢ Err LoadFault.Failed }
{
    if content.len() as u64 > limit {
        return Err(LoadFault::TooLong);
    }
    match Vec::from_slice(alloc, content) {
        Ok(bytes) => Ok(bytes),
        Err(_) => Err(LoadFault::Memory),
    }
}

/// Binds a port, unless the call is to fail.
fn bind_port(port: &mut MemoryPort, fails: bool) -> Result<(), PutFault>
    ensures ok { OnOk result (port.new ≡ emptied port.old) }
    ensures err { OnErr result (port.new ≡ after_fault port.old) }
    ensures counted { port.old.faults ≤ port.new.faults }
    ensures failed { result ≡ Err PutFault.Failed → HasRisen port.old.faults port.new.faults }
    ensures cause { IsErrOf result PutFault.Failed ↔ IsTrue fails }
    ensures memory { result ≢ Err PutFault.Memory }
{
    if fails {
        port.faults = port.faults.saturating_add(1);
        return Err(PutFault::Failed);
    }
    port.held.clear();
    Ok(())
}

/// Puts a piece to a port, or a prefix of it where the call is to fail.
fn put_port(port: &mut MemoryPort, kept: Option<u64>, piece: &[u8]) -> Result<(), PutFault>
    ensures ok { OnOk result (port.new ≡ grown piece.now port.old) }
    ensures allowed { OnOk result (kept ≡ None) }
    ensures cause { result ≡ Err PutFault.Failed →
        IsSomeAnd kept (λ count. port.new ≡ after_fault (grown (take count piece.now) port.old)) }
    ensures memory { result ≡ Err PutFault.Memory → port.new ≡ port.old }
    ensures counted { port.old.faults ≤ port.new.faults }
    ensures failed { result ≡ Err PutFault.Failed → HasRisen port.old.faults port.new.faults }
{
    match kept {
        None => port.put(piece),
        Some(count) => Err(port.fail(prefix(piece, count))),
    }
}

/// Puts a piece to a port and notes the put. Where it can't be noted the port is as it was.
fn put_noted(
    made: &mut CallRecord,
    name: Port,
    port: &mut MemoryPort,
    kept: Option<u64>,
    piece: &[u8],
) -> Result<(), PutFault>
    ensures ok { OnOk result (port.new ≡ grown piece.now port.old) }
    ensures allowed { OnOk result (kept ≡ None) }
    ensures cause { result ≡ Err PutFault.Failed →
        IsSomeAnd kept (λ count. port.new ≡ after_fault (grown (take count piece.now) port.old)) }
    ensures memory { result ≡ Err PutFault.Memory → port.new ≡ port.old }
    ensures counted { port.old.faults ≤ port.new.faults }
    ensures failed { result ≡ Err PutFault.Failed → HasRisen port.old.faults port.new.faults }
    ensures recorded { AreCallsAfter (Put name piece.now) (is_ok result) made.old made.new }
    ensures told { result ≢ Err PutFault.Memory → IsSome made.old → IsSome made.new }
{
    let (len, faults) = (port.held.len(), port.faults);
    let answer = put_port(port, kept, piece);
    if made.note_put(name, piece, answer.is_ok()).is_err() {
        port.restore(len, faults);
        return Err(PutFault::Memory);
    }
    answer
}

/// The first `count` octets of the piece, or all of it where it is shorter.
fn prefix(piece: &[u8], count: u64) -> &[u8]
    ensures { result.now ≡ take count piece.now }
{
    if count < piece.len() as u64 {
        &piece[..count as usize]
    } else {
        piece
    }
}

impl Outside for MemoryOutside {
    ghost use Rattle.std.specs.Prelude.{is_ok};
    ghost use Rattle.outside_kit.specs.Memory.{content_named, port_of, kept_next, with_port, emptied, grown, after_fault, after_call, after_failed_load};
    ghost use Rattle.outside_kit.specs.declared.port.Port.{Port};

    ghost told = { λ outside. record {
      content = content_named outside.memory.files;
      source = content_named outside.memory.files;
      holds = λ port. Some (port_of port outside.memory).held;
      load_faults = outside.memory.load_faults;
      port_faults = λ port. (port_of port outside.memory).faults;
      calls = outside.made;
    } };

    /// As [`Outside::load`] says. It fails where this call is to fail, and for a name that no file has.
    fn load(&mut self, alloc: Global, name: &str, limit: u64) -> Result<Vec<u8>, LoadFault>
        ensures whole { IfOk result
            (λ bytes. content_named self.old.memory.files name.now ≡ Some bytes.items) }
        ensures within { IfOk result (λ bytes. vec_len bytes ≤ limit) }
        ensures too_long { result ≡ Err LoadFault.TooLong →
            IfSome (content_named self.old.memory.files name.now) (λ told. limit < length told) }
        ensures fits { result ≡ Err LoadFault.Memory →
            IfSome (content_named self.old.memory.files name.now) (λ told. length told ≤ limit) }
        ensures fails { result ≡ Err LoadFault.Failed ↔
            (IsSome (kept_next self.old.memory)
            ⊎ IsNone (content_named self.old.memory.files name.now)) }
        ensures failed { result ≡ Err LoadFault.Failed →
            HasRisen self.old.memory.load_faults self.new.memory.load_faults }
        ensures after_failed { result ≡ Err LoadFault.Failed →
            self.new.memory ≡ after_failed_load self.old.memory }
        ensures after { result ≢ Err LoadFault.Failed →
            self.new.memory ≡ after_call self.old.memory }
        ensures recorded { AreCallsAfter (Load name.now) (is_ok result) self.old.made
            self.new.made }
        ensures told { OnOk result (IsSome self.old.made → IsSome self.new.made) }
    {
        let fails = self.start_call().is_some();
        match content_of(&self.files, name) {
            Some(content) if !fails => {
                self.made
                    .note_load(name, copy_within(alloc, content, limit))
            }
            _ => {
                self.load_faults = self.load_faults.saturating_add(1);
                self.made.note_load(name, Err(LoadFault::Failed))
            }
        }
    }

    /// As [`Outside::bind`] says. It fails exactly where this call is to fail, unless it can't be noted: then nothing changes.
    fn bind(&mut self, port: Port, name: &str) -> Result<(), PutFault>
        ensures ok { OnOk result (self.new.memory ≡ with_port port
            (emptied (port_of port self.old.memory)) (after_call self.old.memory)) }
        ensures allowed { OnOk result (kept_next self.old.memory ≡ None) }
        ensures fails { result ≡ Err PutFault.Failed → IsSome (kept_next self.old.memory) }
        ensures after_failed { result ≡ Err PutFault.Failed →
            self.new.memory ≡ with_port port (after_fault (port_of port self.old.memory))
            (after_call self.old.memory) }
        ensures memory { result ≡ Err PutFault.Memory →
            self.new.memory ≡ after_call self.old.memory }
        ensures counted { (port_of port self.old.memory).faults ≤
            (port_of port self.new.memory).faults }
        ensures failed { result ≡ Err PutFault.Failed →
            HasRisen (port_of port self.old.memory).faults (port_of port self.new.memory).faults }
        ensures recorded { AreCallsAfter (Bind port name.now) (is_ok result) self.old.made
            self.new.made }
        ensures told { result ≢ Err PutFault.Memory → IsSome self.old.made → IsSome self.new.made }
    {
        let fails = self.start_call().is_some();
        if self.made.note_bind(port, name, !fails).is_err() {
            return Err(PutFault::Memory);
        }
        match port {
            Port::ReadByA => bind_port(&mut self.read_by_a, fails),
            Port::ReadByB => bind_port(&mut self.read_by_b, fails),
            Port::Log => bind_port(&mut self.log, fails),
        }
    }

    /// As [`Outside::put`] says. It fails where this call is to fail, and then keeps as much of the piece as that
    /// call is to keep; where it can't be noted it keeps nothing.
    fn put(&mut self, port: Port, piece: &[u8]) -> Result<(), PutFault>
        ensures ok { OnOk result (self.new.memory ≡ with_port port
            (grown piece.now (port_of port self.old.memory)) (after_call self.old.memory)) }
        ensures allowed { OnOk result (kept_next self.old.memory ≡ None) }
        ensures kept { result ≡ Err PutFault.Failed →
            IsSomeAnd (kept_next self.old.memory) (λ count. self.new.memory ≡ with_port port
            (after_fault (grown (take count piece.now) (port_of port self.old.memory)))
            (after_call self.old.memory)) }
        ensures memory { result ≡ Err PutFault.Memory →
            self.new.memory ≡ after_call self.old.memory }
        ensures counted { (port_of port self.old.memory).faults ≤
            (port_of port self.new.memory).faults }
        ensures failed { result ≡ Err PutFault.Failed →
            HasRisen (port_of port self.old.memory).faults (port_of port self.new.memory).faults }
        ensures recorded { AreCallsAfter (Put port piece.now) (is_ok result) self.old.made
            self.new.made }
        ensures told { result ≢ Err PutFault.Memory → IsSome self.old.made → IsSome self.new.made }
    {
        let kept = self.start_call();
        let made = &mut self.made;
        match port {
            Port::ReadByA => put_noted(made, port, &mut self.read_by_a, kept, piece),
            Port::ReadByB => put_noted(made, port, &mut self.read_by_b, kept, piece),
            Port::Log => put_noted(made, port, &mut self.log, kept, piece),
        }
    }
}
