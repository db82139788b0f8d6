//! What is read of a log: all of it, or where it was cut off, as that of a run that was killed, its whole rounds.

ghost use Rattle.std.specs.Prelude.{◌≡◌, ◌∷◌, ◌++◌, [], Err, IfOk, IfErr, OnOk, string_bytes};
ghost use Rattle.link_script.specs.Scripts.{HasRanges};
ghost use Rattle.run_log.specs.declared.fault.LogFault.TheVariants as log_fault;
ghost use Rattle.run_outside.specs.Reading.{log_reading};
ghost use Rattle.mptcp_view.specs.Cutting.{IsRead, IsUnread, round_words, whole_rounds};

use link_script::Script;
use octet_text::split_line;
use run_log::Turn;
use run_outside::{Status, read_order};
use std::alloc::{AllocError, Global};

/// How much of a log is shown.
#[derive(Clone, Copy, Debug, PartialEq, Eq)]
pub enum Extent {
    /// All of it.
    Whole,
    /// Its whole rounds: it was cut off.
    WholeRounds,
}

/// What is read of a log.
#[derive(Drop)]
pub struct ReadLog {
    pub extent: Extent,
    /// The octets that are read.
    pub part: Vec<u8>,
    /// Their turns.
    pub turns: Vec<Turn>,
}

/// The line that ends the round of this number.
fn round_words(alloc: Global, number: u64) -> Result<String, AllocError>
    ensures { IfOk result (λ words. string_bytes words ≡ round_words number) }
{
    format!(in alloc; "round {number}")
}

/// Puts a line with its end.
fn push_line(octets: &mut Vec<u8>, line: &[u8]) -> Result<(), AllocError>
    ensures { OnOk result (octets.new.items ≡ octets.old.items ++ (line.now ++ 10 ∷ [])) }
{
    octets.extend_from_slice(line)?;
    octets.push(b'\n')?;
    Ok(())
}

/// The whole rounds of a log, as the log of a run that has used them up.
#[tactic(auto, using(crate::proofs::RoundsGathered::ends_round, crate::proofs::RoundsGathered::goes_on, crate::proofs::RoundsGathered::all_rounds))]
fn whole_rounds(alloc: Global, log: &[u8]) -> Result<Vec<u8>, AllocError>
    ensures { IfOk result (λ part. part.items ≡ whole_rounds log.now) }
{
    // For the proof: there are fewer than 2^63 lines.
    let _len = log.len();
    let (mut part, mut before) = (Vec::new(alloc), Vec::new(alloc));
    let (mut number, mut rest, mut end) = (0_u64, log, round_words(alloc, 0)?);
    while !rest.is_empty() {
        let (line, behind) = split_line(rest);
        push_line(&mut before, line)?;
        if line == end.as_bytes() {
            part.extend_from_slice(&before)?;
            before.clear();
            number += 1;
            end = round_words(alloc, number)?;
        }
        rest = behind;
    }
    part.extend_from_slice(b"outcome rounds\n")?;
    Ok(part)
}

/// Reads the whole rounds of a log that is refused at this line.
fn read_rounds(alloc: Global, script: &Script, log: &[u8], line: u64) -> Result<ReadLog, Status>
    requires ranges { HasRanges script.now }
    requires refused { log_reading script.now log.now ≡ Err (log_fault.Line line) }
    ensures read { IfOk result (λ read. IsRead script.now log.now
        read.extent read.part.items read.turns.items) }
    ensures fault { IfErr result (IsUnread script.now log.now) }
{
    let Ok(part) = whole_rounds(alloc, log) else {
        return Err(Status::Memory);
    };
    match read_order(alloc, script, &part) {
        Ok(turns) => Ok(ReadLog {
            extent: Extent::WholeRounds,
            part,
            turns,
        }),
        Err(Status::Log { .. }) => Err(Status::Log { line }),
        Err(_) => Err(Status::Memory),
    }
}

/// Reads a log, or where that is refused its whole rounds.
///
/// # Errors
///
/// `Log` of the first line that is refused, where the whole rounds are refused too; `Memory` where there is no memory.
pub fn read_shown(alloc: Global, script: &Script, log: Vec<u8>) -> Result<ReadLog, Status>
    requires ranges { HasRanges script.now }
    ensures read { IfOk result (λ read. IsRead script.now log.items
        read.extent read.part.items read.turns.items) }
    ensures fault { IfErr result (IsUnread script.now log.items) }
{
    match read_order(alloc, script, &log) {
        Ok(turns) => Ok(ReadLog {
            extent: Extent::Whole,
            part: log,
            turns,
        }),
        Err(Status::Log { line }) => read_rounds(alloc, script, &log, line),
        Err(_) => Err(Status::Memory),
    }
}
