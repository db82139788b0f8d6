//! The judge's call.

ghost use Rattle.std.specs.Prelude.{◌∷◌, [], Option, List, map, option_map, string_bytes};
ghost use Rattle.outside_kit.specs.Calls as call;
ghost use Rattle.outside_kit.specs.Calls.{Made};
ghost use Rattle.capture_verdict.specs.Judging.{judged_capture};
ghost use Rattle.rule_book.specs.State.{book_of, judged_of};
ghost use Rattle.judge_call.specs.Answers.{IsAnswer, IsAnswered, IsShown, IsTold};
ghost use Rattle.judge_call.specs.Plan.{AddsAll, Does, Follows, puts_of, steps_if};
ghost use Rattle.judge_call.specs.Words.{as_line, line_of};

use crate::line::{CommandLine, read_line};
use crate::putting::put;
use crate::status::Status;
use crate::streams::put_streams;
use capture_reader::CaptureFault;
use capture_verdict::{ending_of, judge_capture, report};
use outside_kit::{LoadFault, Outside, Port};
use rule_book::{Book, Judged};
use std::alloc::Global;

/// Judges the capture that the words name: loads it, puts the lines that are told of it to the port `Log`, and writes the streams where
/// that is asked, those of A by the port `ReadByB`. A capture has at most 268,435,456 octets.
pub fn judge<O: Outside>(alloc: Global, words: &[String], outside: &mut O) -> Status
    ensures exact { IsAnswer (line_of (map string_bytes words.now)) (O.told outside.old)
        (O.told outside.new) result }
{
    match read_line(words) {
        Some(line) => judge_line(alloc, &line, outside),
        None => Status::Usage,
    }
}

// What a command line asks for.
fn judge_line<O: Outside>(alloc: Global, line: &CommandLine<'_>, outside: &mut O) -> Status
    ensures { IsAnswered (as_line line.now) (O.told outside.old) (O.told outside.new) result }
{
    match outside.load(alloc, line.capture, 268_435_456) {
        Ok(octets) => judge_octets(alloc, line, outside, &octets),
        Err(LoadFault::Failed) => Status::Load,
        Err(LoadFault::TooLong) => Status::TooLong,
        Err(LoadFault::Memory) => Status::Memory,
    }
}

// The octets of a capture that was loaded.
fn judge_octets<O: Outside>(
    alloc: Global,
    line: &CommandLine<'_>,
    outside: &mut O,
    octets: &[u8],
) -> Status
    ensures { (before : Option (List Made)) →
        AddsAll (Does (call.Load line.now.capture.now) ∷ []) before (O.told outside.old).calls
        → IsShown (as_line line.now)
        (judged_capture line.now.judging.at line.now.judging.check_sums octets.now) before
        (O.told outside.new).calls result }
{
    match judge_capture(alloc, &line.judging, octets) {
        Ok(judged) => tell(alloc, line, outside, &judged),
        Err(CaptureFault::Block { octet }) => Status::Block { octet },
        Err(CaptureFault::Memory) => Status::Memory,
    }
}

// What was judged.
fn tell<O: Outside>(
    alloc: Global,
    line: &CommandLine<'_>,
    outside: &mut O,
    judged: &Judged<'_>,
) -> Status
    ensures { (before : Option (List Made)) →
        AddsAll (Does (call.Load line.now.capture.now) ∷ []) before (O.told outside.old).calls
        → IsTold (as_line line.now) (judged_of judged.now) before (O.told outside.new).calls result }
{
    match put_all(alloc, line.streams, outside, judged) {
        Ok(()) => Status::of(ending_of(judged)),
        Err(status) => status,
    }
}

// The lines, and the streams where that is asked.
fn put_all<O: Outside>(
    alloc: Global,
    prefix: Option<&str>,
    outside: &mut O,
    judged: &Judged<'_>,
) -> Result<(), Status>
    ensures { Follows (puts_of (option_map (λ text. text.now) prefix.entry) (judged_of judged.now))
        (O.told outside.old).calls (O.told outside.new).calls result }
{
    let text = report(alloc, judged)?;
    put(outside, Port::Log, text.as_bytes())?;
    put_if_asked(alloc, prefix, outside, &judged.books)
}

// The streams, where that is asked.
fn put_if_asked<O: Outside>(
    alloc: Global,
    prefix: Option<&str>,
    outside: &mut O,
    books: &[Book<'_>],
) -> Result<(), Status>
    ensures { Follows
        (steps_if (option_map (λ text. text.now) prefix.entry) (map book_of books.now))
        (O.told outside.old).calls (O.told outside.new).calls result }
{
    match prefix {
        Some(prefix) => put_streams(alloc, outside, prefix, books),
        None => Ok(()),
    }
}
