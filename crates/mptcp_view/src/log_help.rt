//! What helps with a log that is refused at a line.

ghost use Rattle.std.specs.Prelude.{◌≡◌};
ghost use Rattle.run_words.specs.Lines.{as_line, replay};

use crate::asking::{Asked, asked_by};
use crate::cutting::read_shown;
use crate::messages::file_names;
use fault_help::{put_form_fault, put_turn_fault};
use message_pipe::FramedOutside;
use outside_kit::Outside;
use run_outside::{Input, Logged, Status, load_logged};
use std::alloc::{AllocError, Global};

/// Of a line that breaks the form of a log.
fn put_form<O: Outside>(
    text: &mut String,
    alloc: Global,
    outside: &mut O,
    asked: &Asked<'_>,
    input: &Input,
    line: u64,
) -> Result<(), AllocError> {
    match outside.load(alloc, asked.log, 268_435_456) {
        Ok(log) => put_form_fault(text, &input.script, &log, line),
        Err(_) => Ok(()),
    }
}

/// Puts what helps with a log that is refused at this line. Nothing is put where the inputs can't be read again.
fn put_help<O: Outside>(
    text: &mut String,
    alloc: Global,
    outside: &mut O,
    asked: &Asked<'_>,
    line: u64,
) -> Result<(), AllocError>
    requires { (as_line asked.now.line).work ≡ replay asked.now.log.now }
{
    let Ok(Logged { input, log }) = load_logged(alloc, outside, &asked.line, asked.log) else {
        return Ok(());
    };
    match read_shown(alloc, &input.script, log) {
        Ok(read) => put_turn_fault(text, alloc, &input, &read.part, &read.turns, line),
        Err(Status::Log { .. }) => put_form(text, alloc, outside, asked, &input, line),
        Err(_) => Ok(()),
    }
}

/// Of a run of messages. The outside is given back.
fn put_framed_help<O: Outside>(
    text: &mut String,
    alloc: Global,
    outside: O,
    asked: &Asked<'_>,
    line: u64,
) -> (Result<(), AllocError>, O)
    requires { (as_line asked.now.line).work ≡ replay asked.now.log.now }
{
    match file_names(alloc, &asked.line) {
        Ok((file_a, file_b)) => {
            let mut framed = FramedOutside::new(outside, file_a, file_b);
            let put = put_help(text, alloc, &mut framed, asked, line);
            (put, framed.into_inner())
        }
        Err(error) => (Err(error), outside),
    }
}

/// Puts what helps with the log that these words ask to show, as one of a run of messages, which is refused at this line. The outside is
/// given back.
pub fn put_messages_help<O: Outside>(
    text: &mut String,
    alloc: Global,
    words: &[String],
    outside: O,
    line: u64,
) -> (Result<(), AllocError>, O) {
    match asked_by(true, words) {
        Some(asked) => put_framed_help(text, alloc, outside, &asked, line),
        None => (Ok(()), outside),
    }
}

/// Puts what helps with the log that these words ask to show, which is refused at this line: where the line leaves its form and what
/// stands there, that its turn can't be made, or what differs in the segment that is sent.
pub fn put_log_help<O: Outside>(
    text: &mut String,
    alloc: Global,
    words: &[String],
    outside: &mut O,
    line: u64,
) -> Result<(), AllocError> {
    match asked_by(false, words) {
        Some(asked) => put_help(text, alloc, outside, &asked, line),
        None => Ok(()),
    }
}
