//! What helps where a run of one connection is refused.

use fault_help::{put_framed_log_help, put_log_help, put_script_help};
use file_outside::FileOutside;
use run_outside::{Status, read_words};
use run_words::CommandLine;
use std::alloc::AllocError;

/// Puts what helps with a log that is refused at this line, of a run of messages where that is asked.
fn put_help_of_log(
    text: &mut String,
    rt: &HostRuntime,
    asked: &CommandLine<'_>,
    messages: bool,
    line: u64,
) -> Result<(), AllocError> {
    let mut outside = FileOutside::new(rt, false);
    if messages {
        let (put, _outside) = put_framed_log_help(text, rt.alloc(), outside, asked, line);
        put
    } else {
        put_log_help(text, rt.alloc(), &mut outside, asked, line)
    }
}

/// Puts what helps where a command line's run has ended so.
fn put_help_of_line(
    text: &mut String,
    rt: &HostRuntime,
    asked: &CommandLine<'_>,
    messages: bool,
    status: &Status,
) -> Result<(), AllocError> {
    match *status {
        Status::Script { line, kind } => {
            let mut outside = FileOutside::new(rt, false);
            put_script_help(text, rt.alloc(), &mut outside, asked.script, line, kind)
        }
        Status::Log { line } => put_help_of_log(text, rt, asked, messages, line),
        _ => Ok(()),
    }
}

/// Puts what helps where a run of these words, behind `messages` where that is asked, has ended so.
fn put_help_of_words(
    text: &mut String,
    rt: &HostRuntime,
    words: &[String],
    messages: bool,
    status: &Status,
) -> Result<(), AllocError> {
    match read_words(rt.alloc(), words) {
        Ok(asked) => put_help_of_line(text, rt, &asked, messages, status),
        Err(_) => Ok(()),
    }
}

/// Puts what helps where `enough` has ended so for a script of this name.
fn put_help_of_script(
    text: &mut String,
    rt: &HostRuntime,
    script: &str,
    status: &Status,
) -> Result<(), AllocError> {
    match *status {
        Status::Script { line, kind } => {
            let mut outside = FileOutside::new(rt, false);
            put_script_help(text, rt.alloc(), &mut outside, script, line, kind)
        }
        _ => Ok(()),
    }
}

/// Puts what helps where a run has ended so: of a script or a log that is refused, where the line leaves its form and what stands there, what
/// the kind means, or why the turn can't be made.
pub fn put_help(
    text: &mut String,
    rt: &HostRuntime,
    words: &[String],
    status: &Status,
) -> Result<(), AllocError> {
    match words {
        [first, others @ ..] if first.as_str() == "messages" => {
            put_help_of_words(text, rt, others, true, status)
        }
        [first, script, ..] if first.as_str() == "enough" => {
            put_help_of_script(text, rt, script.as_str(), status)
        }
        _ => put_help_of_words(text, rt, words, false, status),
    }
}
