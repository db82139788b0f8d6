//! A run of the program that a case tells: `WORDS | SCRIPT | FILE_A | FILE_B | ORDER | FAILS | SHOWN`.
//!
//! `WORDS` are those before the five names `script a b to-b to-a`, or `-` for none; a first word `messages` is none of them: then
//! the lines of both files go as messages. In the script `;` stands for LF. A file's
//! octets are told as `files.rt` says. `ORDER` is what the name `log` holds: `-` where there is no such content, `log` for
//! the log of the last case whose words began with `--mode serial`, or `log` and edits of it, as `order.rt` says. `FAILS` is `-`, or
//! the number of the call of the outside that fails, and how many octets it keeps of what it is to put. `SHOWN` is
//! `sums`, `read` or `calls`.

use crate::case::Case;
use crate::fails::failing;
use crate::fields::CaseFault;
use crate::files::{content, lines_in};
use crate::listed::words_of;
use crate::order::edited;
use outside_kit::{MemoryOutside, NamedFile};
use std::alloc::{AllocError, Global};

/// What is shown of a run.
#[derive(Clone, Copy)]
pub enum Shown {
    /// How much each port holds, and digests.
    Sums,
    /// How much the readers' ports hold, and digests.
    Read,
    /// The sums, and the calls that were made on the outside.
    Calls,
}

/// A run: the words of its command line, and what its names hold.
#[derive(Clone, Copy)]
pub struct Task {
    words: &'static str,
    /// Whether the lines of both files go as messages.
    pub has_messages: bool,
    script: &'static str,
    file_a: &'static str,
    file_b: &'static str,
    order: &'static str,
    fails: &'static str,
    /// What is shown of it.
    pub shown: Shown,
}

impl Task {
    /// The run that the fields of a case tell.
    pub fn read(case: &mut Case) -> Self {
        let words = case.word();
        let behind = words.strip_prefix("messages ");
        Task {
            words: behind.unwrap_or(words),
            has_messages: behind.is_some(),
            script: case.word(),
            file_a: case.word(),
            file_b: case.word(),
            order: case.word(),
            fails: case.word(),
            shown: case.one_of(&SHOWN, Shown::Sums),
        }
    }

    /// The run by threads that the next fields of a case tell: `SCRIPT | FILE_A | FILE_B`.
    pub fn by_threads(case: &mut Case) -> Self {
        Task {
            words: "--mode run",
            has_messages: false,
            script: case.word(),
            file_a: case.word(),
            file_b: case.word(),
            order: "-",
            fails: "-",
            shown: Shown::Read,
        }
    }

    /// Whether later cases may make the steps of its log again.
    pub fn is_serial(&self) -> bool {
        self.words.starts_with("--mode serial")
    }

    /// The words of the command line.
    pub fn words(&self, alloc: Global) -> Result<Vec<String>, AllocError> {
        let words = if self.words == "-" { "" } else { self.words };
        let told = format!(in alloc; "{words} script a b to-b to-a")?;
        words_of(alloc, told.trim_start())
    }

    /// The outside that the case tells of, where `log` is that of the last serial case.
    pub fn outside(&self, alloc: Global, log: &[u8]) -> Result<MemoryOutside, CaseFault> {
        let mut files = Vec::new(alloc);
        self.put_inputs(alloc, &mut files)?;
        self.put_log(alloc, &mut files, log)?;
        let failing = failing(alloc, self.fails)?;
        Ok(MemoryOutside::new(alloc, files, failing))
    }

    /// The script and both files come behind the files.
    fn put_inputs(&self, alloc: Global, files: &mut Vec<NamedFile>) -> Result<(), CaseFault> {
        let script = lines_in(alloc, self.script)?.into_bytes();
        push_file(alloc, files, "script", script)?;
        push_file(alloc, files, "a", content(alloc, self.file_a)?)?;
        push_file(alloc, files, "b", content(alloc, self.file_b)?)?;
        Ok(())
    }

    /// What the name `log` holds comes behind the files, where there is such content.
    fn put_log(
        &self,
        alloc: Global,
        files: &mut Vec<NamedFile>,
        log: &[u8],
    ) -> Result<(), CaseFault> {
        if let Some(order) = order(alloc, self.order, log)? {
            push_file(alloc, files, "log", order)?;
        }
        Ok(())
    }
}

/// What is shown, by its name.
const SHOWN: [(&str, Shown); 3] = [
    ("sums", Shown::Sums),
    ("read", Shown::Read),
    ("calls", Shown::Calls),
];

fn push_file(
    alloc: Global,
    files: &mut Vec<NamedFile>,
    name: &str,
    content: Vec<u8>,
) -> Result<(), AllocError> {
    let name = String::from_str(alloc, name)?;
    Ok(files.push(NamedFile { name, content })?)
}

/// The content of the name `log`, where there is one.
fn order(alloc: Global, field: &str, log: &[u8]) -> Result<Option<Vec<u8>>, CaseFault> {
    match field.split_once(" ") {
        Some(("log", edits)) => Ok(Some(edited(alloc, log, edits)?)),
        None if field == "log" => Ok(Some(Vec::from_slice(alloc, log)?)),
        None if field == "-" => Ok(None),
        _ => Err(CaseFault::Form),
    }
}
