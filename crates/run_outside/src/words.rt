//! The words of a command line.

ghost use Rattle.std.specs.Prelude.{◌≡◌, ◌⊎◌, Some, map, string_bytes, IfOk, IfErr};
ghost use Rattle.run_words.specs.Lines.{HasRanges, line_of, as_line, shown_work};
ghost use Rattle.run_outside.specs.Causes.{IsWordsFault};

use crate::status::Status;
use run_words::{CommandLine, WordsFault, read};
use std::alloc::Global;
use std::env::{self, Env};
use std::io;

/// The words behind the program's name.
///
/// # Errors
///
/// `Usage` where one of them isn't UTF-8 or they can't be had, and `Memory` where memory runs out. No clause says which words they
/// are: std tells nothing of them.
pub fn command_words(rt: &(impl Env + Alloc<A = Global>)) -> Result<Vec<String>, Status>
    ensures fault { IfErr result (λ status. (status ≡ Status.Usage) ⊎ (status ≡ Status.Memory)) }
{
    let mut words = Vec::new(rt.alloc());
    match env::args(rt) {
        Ok(args) => {
            for word in args.skip(1) {
                if words.push(word).is_err() {
                    return Err(Status::Memory);
                }
            }
            Ok(words)
        }
        Err(error) if error.kind() == io::ErrorKind::OutOfMemory => Err(Status::Memory),
        Err(_) => Err(Status::Usage),
    }
}

/// What the words behind the program's name ask for, whether or not its mode is run.
///
/// # Errors
///
/// `Usage` where the words break the form of the command line, and `Memory` where memory runs out.
pub fn read_words<'a>(alloc: Global, words: &'a [String]) -> Result<CommandLine<'a>, Status>
    ensures line { IfOk result (λ line. line_of (map string_bytes words.entry.now) ≡
        Some (as_line line)) }
    ensures ranges { IfOk result (λ line. HasRanges (shown_work line.mode)) }
    ensures fault { IfErr result (IsWordsFault (map string_bytes words.entry.now)) }
{
    match read(alloc, words) {
        Ok(line) => Ok(line),
        Err(WordsFault::Usage) => Err(Status::Usage),
        Err(WordsFault::Memory) => Err(Status::Memory),
    }
}
