//! The real outside: files by their names, and standard output for the log.

ghost use Rattle.std.specs.Prelude.{◌≡◌, ◌≤◌, None, IsSome, OnOk};
ghost use Rattle.outside_kit.specs.Outside.{HasRisen};

use outside_kit::{LoadFault, Outside, Port, PutFault};
use std::alloc::Global;
use std::fs;
use std::io::{self, Read, Write};
use std::rt::Files;

/// What the system refused.
#[derive(Drop)]
pub struct SystemFault {
    /// The file's name, or `standard output`.
    pub name: String,
    /// Why it was refused.
    pub reason: io::Error,
}

/// The file of a port.
#[derive(Drop)]
struct PortFile<F> {
    name: String,
    file: F,
}

/// Files and standard output. It tells contracts nothing of what they hold, and counts its faults.
#[derive(Drop)]
pub struct FileOutside<'a, R: Files + Print + Alloc<A = Global>> {
    rt: &'a R,
    read_by_a: Option<PortFile<R::File>>,
    read_by_b: Option<PortFile<R::File>>,
    fault: Option<SystemFault>,
    log_is_open: bool,
    load_faults: u64,
    read_by_a_faults: u64,
    read_by_b_faults: u64,
    log_faults: u64,
}

impl<'a, R: Files + Print + Alloc<A = Global>> FileOutside<'a, R> {
    /// No reader's port is bound yet. The log can be put only where standard output is open.
    pub fn new(rt: &'a R, log_is_open: bool) -> Self {
        FileOutside {
            rt,
            read_by_a: None,
            read_by_b: None,
            fault: None,
            log_is_open,
            load_faults: 0,
            read_by_a_faults: 0,
            read_by_b_faults: 0,
            log_faults: 0,
        }
    }

    /// What the system refused last, if it has refused anything and there was memory for the name. No clause says what it is: std tells
    /// nothing of files.
    pub fn into_fault(self) -> Option<SystemFault> {
        self.fault
    }
}

/// What the system refused at this name, where there is memory for it.
fn fault_at(alloc: Global, name: &str, reason: io::Error) -> Option<SystemFault> {
    let name = String::from_str(alloc, name).ok()?;
    Some(SystemFault { name, reason })
}

/// At most `limit` octets of a file, and one more where it has more.
fn read_front<R: Files + Alloc<A = Global>>(
    rt: &R,
    alloc: Global,
    name: &str,
    limit: u64,
) -> io::Result<Vec<u8>> {
    let file = fs::open(rt, name)?;
    let mut bytes = Vec::new(alloc);
    file.take(limit.saturating_add(1)).read_to_end(&mut bytes)?;
    Ok(bytes)
}

/// What an error of a bind or put is answered by, once the port's count has risen.
fn fault_of(error: &io::Error, count: &mut u64) -> PutFault
    ensures { HasRisen count.old count.new }
{
    *count = count.saturating_add(1);
    match error.kind() {
        io::ErrorKind::OutOfMemory => PutFault::Memory,
        _ => PutFault::Failed,
    }
}

/// What a put to a port without a file is answered by, once the port's count has risen.
fn closed(count: &mut u64) -> PutFault
    ensures { HasRisen count.old count.new }
{
    *count = count.saturating_add(1);
    PutFault::Failed
}

/// Makes the file of a port anew.
fn bind_file<R: Files + Alloc<A = Global>>(
    rt: &R,
    port: &mut Option<PortFile<R::File>>,
    count: &mut u64,
    fault: &mut Option<SystemFault>,
    name: &str,
) -> Result<(), PutFault>
    ensures bound { OnOk result (IsSome port.new) }
    ensures counted { count.old ≤ count.new }
    ensures failed { result ≡ Err PutFault.Failed → HasRisen count.old count.new }
{
    let Ok(kept) = String::from_str(rt.alloc(), name) else {
        return Err(PutFault::Memory);
    };
    match fs::create(rt, name) {
        Ok(file) => {
            *port = Some(PortFile { name: kept, file });
            Ok(())
        }
        Err(reason) => {
            let answer = fault_of(&reason, count);
            *fault = Some(SystemFault { name: kept, reason });
            Err(answer)
        }
    }
}

/// Writes a piece at the end of a port's file. A port that isn't bound has none, and fails.
fn put_file<F: Write>(
    alloc: Global,
    port: &mut Option<PortFile<F>>,
    count: &mut u64,
    fault: &mut Option<SystemFault>,
    piece: &[u8],
) -> Result<(), PutFault>
    ensures bound { OnOk result (IsSome port.old) }
    ensures counted { count.old ≤ count.new }
    ensures failed { result ≡ Err PutFault.Failed → HasRisen count.old count.new }
{
    let Some(PortFile { name, file }) = port else {
        return Err(closed(count));
    };
    match file.write_all(piece) {
        Ok(()) => Ok(()),
        Err(reason) => {
            let answer = fault_of(&reason, count);
            *fault = fault_at(alloc, name, reason);
            Err(answer)
        }
    }
}

/// Writes a piece to standard output.
fn put_log<R: Print + Alloc<A = Global>>(
    rt: &R,
    count: &mut u64,
    fault: &mut Option<SystemFault>,
    piece: &[u8],
) -> Result<(), PutFault>
    ensures counted { count.old ≤ count.new }
    ensures failed { result ≡ Err PutFault.Failed → HasRisen count.old count.new }
{
    match io::writer(rt).write_all(piece) {
        Ok(()) => Ok(()),
        Err(reason) => {
            let answer = fault_of(&reason, count);
            *fault = fault_at(rt.alloc(), "standard output", reason);
            Err(answer)
        }
    }
}

impl<R: Files + Print + Alloc<A = Global>> Outside for FileOutside<'_, R> {
    ghost use Rattle.file_outside.specs.Counts.{count_of};

    ghost told = { λ outside. record {
      content = λ _. None;
      source = λ _. None;
      holds = λ _. None;
      load_faults = outside.load_faults;
      port_faults =
          count_of outside.read_by_a_faults outside.read_by_b_faults outside.log_faults;
      calls = None;
    } };

    fn load(&mut self, alloc: Global, name: &str, limit: u64) -> Result<Vec<u8>, LoadFault> {
        match read_front(self.rt, alloc, name, limit) {
            Ok(bytes) if bytes.len() as u64 <= limit => Ok(bytes),
            Ok(_) => Err(LoadFault::TooLong),
            Err(error) => {
                self.load_faults = self.load_faults.saturating_add(1);
                let kind = error.kind();
                self.fault = fault_at(self.rt.alloc(), name, error);
                match kind {
                    io::ErrorKind::OutOfMemory => Err(LoadFault::Memory),
                    _ => Err(LoadFault::Failed),
                }
            }
        }
    }

    fn bind(&mut self, port: Port, name: &str) -> Result<(), PutFault> {
        match port {
            Port::ReadByA => bind_file(
                self.rt,
                &mut self.read_by_a,
                &mut self.read_by_a_faults,
                &mut self.fault,
                name,
            ),
            Port::ReadByB => bind_file(
                self.rt,
                &mut self.read_by_b,
                &mut self.read_by_b_faults,
                &mut self.fault,
                name,
            ),
            // the log is always standard output
            Port::Log => Ok(()),
        }
    }

    fn put(&mut self, port: Port, piece: &[u8]) -> Result<(), PutFault> {
        match port {
            Port::ReadByA => put_file(
                self.rt.alloc(),
                &mut self.read_by_a,
                &mut self.read_by_a_faults,
                &mut self.fault,
                piece,
            ),
            Port::ReadByB => put_file(
                self.rt.alloc(),
                &mut self.read_by_b,
                &mut self.read_by_b_faults,
                &mut self.fault,
                piece,
            ),
            Port::Log if self.log_is_open => {
                put_log(self.rt, &mut self.log_faults, &mut self.fault, piece)
            }
            Port::Log => Err(closed(&mut self.log_faults)),
        }
    }
}
