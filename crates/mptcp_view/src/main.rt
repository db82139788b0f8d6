//! Shows a run: `mptcp_view capture|rates|summary|picture|text|json|page SCRIPT FILE_A FILE_B LOG OUT` makes the steps of a log again, and writes
//! what was sent on each path to OUT; `capture --at a` and `capture --at b`, what passes the interfaces of one side. Behind a first word
//! `messages` the log is that of a run of messages.
#![tactic(auto)]

mod asking;
mod cutting;
mod deaths;
mod log_help;
mod messages;
mod showing;
mod telling;
mod terminal;
mod whole;

use cutting::Extent;
use fault_help::put_script_help;
use file_outside::{FileOutside, SystemFault};
use log_help::{put_log_help, put_messages_help};
use messages::view_messages;
use run_outside::{Named, Status, command_words};
use showing::view_words;
use std::alloc::{AllocError, Global};
use std::process::ExitCode;
use terminal::Terminal;

/// The line that `mptcp_sim` prints, with this program's name.
fn renamed(alloc: Global, status: &Status) -> Result<String, AllocError> {
    let line = run_outside::fault_text(alloc, status)?;
    match line.as_str().strip_prefix("mptcp_sim") {
        Some(rest) => format!(in alloc; "mptcp_view{rest}"),
        None => Ok(line),
    }
}

/// The line on standard error, without its end. The log and OUT have the names of the command line.
fn fault_line(alloc: Global, status: &Status) -> Result<String, AllocError> {
    let line = match status {
        Status::Usage => {
            "mptcp_view: usage: [messages] capture [--at a|b]|rates|summary|picture|text [--absolute]|json|page SCRIPT FILE_A FILE_B LOG OUT"
        }
        Status::Load {
            input: Named::Order,
        } => "mptcp_view: cannot read log",
        Status::TooLong {
            input: Named::Order,
        } => "mptcp_view: too long: log",
        Status::Put { .. } => "mptcp_view: cannot write out",
        _ => return renamed(alloc, status),
    };
    String::from_str(alloc, line)
}

/// What came of a view, and what the system refused for it.
#[derive(Drop)]
struct Viewed {
    extent: Result<Extent, Status>,
    fault: Option<SystemFault>,
}

/// Writes what the words ask for, and tells a terminal how far it is.
fn shown(rt: &HostRuntime, words: &[String], terminal: &mut Terminal<'_>) -> Viewed {
    let mut outside = FileOutside::new(rt, false);
    let extent = match words {
        [first, others @ ..] if first.as_str() == "messages" => {
            let (extent, given) = view_messages(rt.alloc(), others, outside, terminal);
            outside = given;
            extent
        }
        _ => view_words(rt.alloc(), words, &mut outside, terminal),
    };
    Viewed {
        extent,
        fault: outside.into_fault(),
    }
}

/// Writes what the words ask for, and ends the terminal's line.
fn view_of(rt: &HostRuntime, words: &[String]) -> Viewed {
    let mut terminal = Terminal::new(rt);
    let shown = shown(rt, words, &mut terminal);
    terminal.end();
    shown
}

/// The name of the script: the last five words are names.
fn script_name(words: &[String]) -> Option<&str> {
    let word = words.get(words.len().checked_sub(5)?)?;
    Some(word.as_str())
}

/// Puts what helps with a log that is refused at this line.
fn put_help_of_log(
    text: &mut String,
    rt: &HostRuntime,
    words: &[String],
    line: u64,
) -> Result<(), AllocError> {
    let mut outside = FileOutside::new(rt, false);
    match words {
        [first, others @ ..] if first.as_str() == "messages" => {
            let (put, _outside) = put_messages_help(text, rt.alloc(), others, outside, line);
            put
        }
        _ => put_log_help(text, rt.alloc(), words, &mut outside, line),
    }
}

/// Puts what helps with a script or a log that is refused.
fn put_help(
    text: &mut String,
    rt: &HostRuntime,
    words: &[String],
    status: &Status,
) -> Result<(), AllocError> {
    match (*status, script_name(words)) {
        (Status::Script { line, kind }, Some(name)) => {
            let mut outside = FileOutside::new(rt, false);
            put_script_help(text, rt.alloc(), &mut outside, name, line, kind)
        }
        (Status::Log { line }, _) => put_help_of_log(text, rt, words, line),
        _ => Ok(()),
    }
}

/// What helps, behind a colon, or nothing where it isn't known.
fn help_of(rt: &HostRuntime, words: &[String], status: &Status) -> String {
    let (mut help, mut text) = (String::new(rt.alloc()), String::new(rt.alloc()));
    if put_help(&mut text, rt, words, status).is_ok() && !text.is_empty() {
        let _ = write!(help, ": {text}");
    }
    help
}

/// Tells why nothing is shown, and behind a file that can't be read or written the system's reason.
fn tell_fault(rt: &HostRuntime, words: &[String], status: &Status, fault: &Option<SystemFault>) {
    let Ok(line) = fault_line(rt.alloc(), status) else {
        return;
    };
    let help = help_of(rt, words, status);
    let _ = eprintln!(rt; "{line}{help}");
    if let (Status::Load { .. } | Status::Put { .. }, Some(fault)) = (status, fault) {
        let _ = eprintln!(rt; "mptcp_view: {}: {}", fault.name, fault.reason);
    }
}

/// Says that a log was cut off.
fn tell(rt: &HostRuntime, extent: Extent) {
    if extent == Extent::WholeRounds {
        let _ = eprintln!(rt; "mptcp_view: the log was cut off: shown up to its last whole round");
    }
}

/// Writes what the words ask for, and tells how much that is, or why it is nothing.
fn exit_of(rt: &HostRuntime, words: &[String]) -> ExitCode {
    let Viewed { extent, fault } = view_of(rt, words);
    match extent {
        Ok(extent) => {
            tell(rt, extent);
            ExitCode::from(0)
        }
        Err(status) => {
            tell_fault(rt, words, &status, &fault);
            ExitCode::from(status.code())
        }
    }
}

fn main(rt: HostRuntime) -> ExitCode {
    match command_words(&rt) {
        Ok(words) => exit_of(&rt, &words),
        Err(status) => {
            tell_fault(&rt, &[], &status, &None);
            ExitCode::from(status.code())
        }
    }
}
