//! A run of a list: `many WORDS | FAILS | NAME CONTENT | ..`.
//!
//! `WORDS` are those behind `many`, or `-` for none. `FAILS` is `-`, or the number of the call of the outside that fails, and how many
//! octets it keeps of what it is to put. `CONTENT` is told as `case_fields` says. Shown are the answer, what the program says of it, and what
//! the log holds.

use case_fields::{Case, CaseFault, failing, files_of, words_of};
use connection_table::{Many, run_many};
use outside_kit::{MemoryOutside, Port};
use std::alloc::{AllocError, Global};

/// What is shown of how a run ended, and of the log then.
fn shown(alloc: Global, many: &Many, log: &[u8]) -> Result<String, AllocError> {
    let said = many.fault_text(alloc)?;
    let log = String::from_utf8_lossy(alloc, log)?;
    format!(in alloc; "{many:?} {} {said}\n{log}", many.code())
}

/// How a run ends, and what the log holds then.
fn ended(
    alloc: Global,
    words: &[String],
    mut outside: MemoryOutside,
) -> Result<String, AllocError> {
    let many = run_many(alloc, words, &mut outside);
    shown(alloc, &many, outside.port(Port::Log))
}

/// Puts the answer to a line, whose fields the case has.
pub fn list(case: &mut Case, line: &'static str) {
    case.put(line);
    case.put("\n  ");
    let fields = case.rest();
    case.read(fields, " | ");
    let told = list_run(case);
    case.put_told(told);
}

/// What is shown of the run that the fields of a case tell.
fn list_run(case: &mut Case) -> Result<String, CaseFault> {
    let alloc = case.alloc;
    let words = words_of(alloc, case.word())?;
    let failing = failing(alloc, case.word())?;
    let files = files_of(case)?;
    let outside = MemoryOutside::new(alloc, files, failing);
    Ok(ended(alloc, words.as_slice(), outside)?)
}
