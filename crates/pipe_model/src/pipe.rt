ghost use Rattle.std.specs.Prelude.{◌≡◌, Some, OnOk, OnErr, IfErr};
ghost use Rattle.pipe_model.specs.Faults.{fault_words};
ghost use Rattle.pipe_model.specs.Pipe.{opening, refusal, after, IsCause};

use octet_text::Text;
use std::alloc::{AllocError, Global};
use std::error::Error;
use std::fmt;

/// One direction of a connection: all bytes that its writer gave, and how far its reader is.
#[derive(Drop)]
pub struct Pipe {
    /// All bytes that were written, from the first on.
    pub written: Text,
    /// Whether the writer has said that nothing follows.
    pub closed: bool,
    /// How many bytes were read.
    pub read: u64,
    /// How many bytes the writer was told to be received.
    pub acked: u64,
    /// Whether the reader was told that the stream has ended.
    pub told_end: bool,
}

impl Pipe {
    /// An open pipe with nothing written, which takes no memory.
    pub fn new(alloc: Global) -> Self
        ensures { result ≡ opening }
    {
        Pipe {
            written: Text::new(alloc),
            closed: false,
            read: 0,
            acked: 0,
            told_end: false,
        }
    }
}

/// What can happen to a pipe.
#[derive(Drop)]
pub enum PipeStep {
    /// The writer gives these bytes.
    Write { bytes: Text },
    /// The writer says that nothing follows.
    Close,
    /// The reader takes the next `count` bytes.
    Read { count: u64 },
    /// The writer is told that its first `to` bytes have arrived, at a time when `received` have.
    Ack { to: u64, received: u64 },
    /// The reader is told that the stream has ended.
    TellEnd,
}

/// Why a step can't happen.
#[derive(Clone, Copy, Debug)]
pub enum PipeFault {
    /// The writer has closed the stream.
    Closed,
    /// The reader was told the end.
    Told,
    /// There are not so many bytes.
    Past,
    /// The stream has not ended at the reader.
    NotAll,
    /// Out of memory.
    Memory,
}

impl PipeFault {
    /// The fault in words, for messages.
    pub fn words(self) -> &'static str
        ensures { result.now ≡ fault_words self }
    {
        match self {
            PipeFault::Closed => "the writer has closed the stream",
            PipeFault::Told => "the reader was told the end",
            PipeFault::Past => "there are not so many bytes",
            PipeFault::NotAll => "the stream has not ended at the reader",
            PipeFault::Memory => "out of memory",
        }
    }
}

impl fmt::Display for PipeFault {
    ghost output = { λ fault. Some (fault_words fault) };

    fn fmt<W: fmt::Write>(&self, f: &mut fmt::Formatter<W>) -> fmt::Result {
        f.write_str(self.words())
    }
}

impl Error for PipeFault {}

impl From<AllocError> for PipeFault {
    ghost use Rattle.pipe_model.specs.declared.pipe.PipeFault.TheVariants.{Memory};

    ghost from_gives = { λ _ fault. fault ≡ Memory };

    fn from(_: AllocError) -> Self {
        PipeFault::Memory
    }
}

/// Makes the step where it is allowed. A refused step leaves the pipe as it was.
pub fn pipe_step(pipe: &mut Pipe, step: &PipeStep) -> Result<(), PipeFault>
    ensures allowed { OnOk result (refusal step.now pipe.old ≡ None) }
    ensures after { OnOk result (pipe.new ≡ after step.now pipe.old) }
    ensures refused { IfErr result (λ fault. IsCause fault step.now pipe.old) }
    ensures err { OnErr result (pipe.new ≡ pipe.old) }
{
    match step {
        PipeStep::Write { bytes } => write(pipe, bytes),
        PipeStep::Close => {
            pipe.closed = true;
            Ok(())
        }
        PipeStep::Read { count } => read(pipe, *count),
        PipeStep::Ack { to, received } => acknowledge(pipe, *to, *received),
        PipeStep::TellEnd => tell_end(pipe),
    }
}

fn write(pipe: &mut Pipe, bytes: &Text) -> Result<(), PipeFault>
    ensures allowed { OnOk result (refusal (PipeStep.Write bytes.now) pipe.old ≡ None) }
    ensures after { OnOk result (pipe.new ≡ after (PipeStep.Write bytes.now) pipe.old) }
    ensures refused { IfErr result (λ fault. IsCause fault (PipeStep.Write bytes.now) pipe.old) }
    ensures err { OnErr result (pipe.new ≡ pipe.old) }
{
    if pipe.closed {
        return Err(PipeFault::Closed);
    }
    pipe.written.append(bytes.as_bytes())?;
    Ok(())
}

fn read(pipe: &mut Pipe, count: u64) -> Result<(), PipeFault>
    ensures allowed { OnOk result (refusal (PipeStep.Read count) pipe.old ≡ None) }
    ensures after { OnOk result (pipe.new ≡ after (PipeStep.Read count) pipe.old) }
    ensures refused { IfErr result (λ fault. refusal (PipeStep.Read count) pipe.old ≡ Some fault) }
    ensures err { OnErr result (pipe.new ≡ pipe.old) }
{
    if pipe.told_end {
        return Err(PipeFault::Told);
    }
    let written = pipe.written.len() as u64;
    let Some(read) = pipe.read.checked_add(count) else {
        return Err(PipeFault::Past);
    };
    if read > written {
        return Err(PipeFault::Past);
    }
    pipe.read = read;
    Ok(())
}

fn acknowledge(pipe: &mut Pipe, to: u64, received: u64) -> Result<(), PipeFault>
    ensures allowed { OnOk result (refusal (PipeStep.Ack to received) pipe.old ≡ None) }
    ensures after { OnOk result (pipe.new ≡ after (PipeStep.Ack to received) pipe.old) }
    ensures refused { IfErr result (λ fault. refusal (PipeStep.Ack to received) pipe.old ≡
        Some fault) }
    ensures err { OnErr result (pipe.new ≡ pipe.old) }
{
    if to < pipe.acked || received < to || received > pipe.written.len() as u64 {
        return Err(PipeFault::Past);
    }
    pipe.acked = to;
    Ok(())
}

fn tell_end(pipe: &mut Pipe) -> Result<(), PipeFault>
    ensures allowed { OnOk result (refusal PipeStep.TellEnd pipe.old ≡ None) }
    ensures after { OnOk result (pipe.new ≡ after PipeStep.TellEnd pipe.old) }
    ensures refused { IfErr result (λ fault. refusal PipeStep.TellEnd pipe.old ≡ Some fault) }
    ensures err { OnErr result (pipe.new ≡ pipe.old) }
{
    if pipe.told_end {
        return Err(PipeFault::Told);
    }
    if !pipe.closed || pipe.read != pipe.written.len() as u64 {
        return Err(PipeFault::NotAll);
    }
    pipe.told_end = true;
    Ok(())
}
