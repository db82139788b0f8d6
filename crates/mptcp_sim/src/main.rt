//! Sends two files, one each way, through a Multipath TCP connection over simulated links: `mptcp_sim --mode serial SCRIPT FILE_A
//! FILE_B READ_BY_B READ_BY_A`. Behind a first word `messages` each line of a file goes as one message; behind `many` a list names up
//! to 64 connections that share one listener; behind `enough` it is told how many rounds are enough.
#![tactic(auto)]

mod helping;
mod list_helping;

use actor_turn::OpenGate;
use connection_table::{Many, run_many};
use file_outside::{FileOutside, SystemFault};
use helping::put_help;
use list_helping::put_help_of_many;
use mptcp_run::{Status, fault_text, run, run_messages, tell_enough};
use run_outside::command_words;
use std::alloc::{AllocError, Global};
use std::env::Env;
use std::os::fd::AsFd;
use std::process::ExitCode;
use std::sync::Wait;
use std::thread::Threads;

/// How the program ends: its exit status, and what is told on standard error.
#[derive(Drop)]
struct End {
    code: u8,
    /// The line of the fault, empty where nothing is said or there is no memory for it.
    line: String,
    /// What helps with it, empty where nothing is known.
    help: String,
    /// What the system refused.
    fault: Option<SystemFault>,
}

/// A line, or none where there is no memory for it.
fn said(alloc: Global, line: Result<String, AllocError>) -> String {
    match line {
        Ok(line) => line,
        Err(_) => String::new(alloc),
    }
}

/// What was put to a text, or nothing where memory for it was wanting.
fn help_put(alloc: Global, text: String, put: Result<(), AllocError>) -> String {
    match put {
        Ok(()) => text,
        Err(_) => String::new(alloc),
    }
}

/// How a run of one connection has ended, and what the system refused for it.
#[derive(Drop)]
struct Ran {
    status: Status,
    fault: Option<SystemFault>,
}

/// The line of a fault, where these are the words.
fn line_of(alloc: Global, words: &[String], status: &Status) -> Result<String, AllocError> {
    match words {
        [first, ..] if first.as_str() == "enough" && matches!(status, Status::Usage) => {
            String::from_str(alloc, "mptcp_sim: usage: enough SCRIPT FILE_A FILE_B")
        }
        _ => fault_text(alloc, status),
    }
}

/// The end of a run of one connection.
fn end_of(rt: &HostRuntime, words: &[String], ran: Ran) -> End {
    let (alloc, mut help) = (rt.alloc(), String::new(rt.alloc()));
    let Ran { status, fault } = ran;
    let put = put_help(&mut help, rt, words, &status);
    let fault = match status {
        Status::Load { .. } | Status::Put { .. } => fault,
        _ => None,
    };
    End {
        code: status.code(),
        line: said(alloc, line_of(alloc, words, &status)),
        help: help_put(alloc, help, put),
        fault,
    }
}

/// The end of a run of the connections of a list, for which the system refused this.
fn end_of_listed(
    rt: &HostRuntime,
    words: &[String],
    many: &Many,
    fault: Option<SystemFault>,
) -> End {
    let (alloc, mut help) = (rt.alloc(), String::new(rt.alloc()));
    let put = put_help_of_many(&mut help, rt, words, many);
    let fault = match many {
        Many::Load { .. } | Many::Put => fault,
        _ => None,
    };
    End {
        code: many.code(),
        line: said(alloc, many.fault_text(alloc)),
        help: help_put(alloc, help, put),
        fault,
    }
}

/// Runs the connections of a list.
fn end_of_many(rt: &HostRuntime, words: &[String]) -> End {
    let mut outside = FileOutside::new(rt, has_output(rt));
    let many = run_many(rt.alloc(), words, &mut outside);
    end_of_listed(rt, words, &many, outside.into_fault())
}

/// An end of which nothing is told but its exit status.
fn quiet_end(alloc: Global, code: u8) -> End {
    End {
        code,
        line: String::new(alloc),
        help: String::new(alloc),
        fault: None,
    }
}

/// Tells how many rounds are enough for what stands behind the first word.
fn end_of_enough(rt: &HostRuntime, words: &[String], others: &[String]) -> End {
    let mut outside = FileOutside::new(rt, has_output(rt));
    let told = tell_enough(rt.alloc(), others, &mut outside);
    let fault = outside.into_fault();
    match told {
        Ok(Some(_)) => quiet_end(rt.alloc(), 0),
        Ok(None) => quiet_end(rt.alloc(), 1),
        Err(status) => end_of(rt, words, Ran { status, fault }),
    }
}

/// Whether standard output is open. Where it isn't, a file that is opened later may have its number.
fn has_output(rt: &HostRuntime) -> bool {
    rt.stdout().as_fd().try_clone_to_owned().is_ok()
}

/// Runs a connection as the words say, over files and standard output, with threads of that runtime.
fn ran_by<R: Threads + Wait + Sync>(rt: &HostRuntime, threads: &R, words: &[String]) -> Ran {
    let mut outside = FileOutside::new(rt, has_output(rt));
    let status = match words {
        [first, others @ ..] if first.as_str() == "messages" => {
            let (status, given) = run_messages(threads, rt.alloc(), others, outside, &OpenGate);
            outside = given;
            status
        }
        _ => run(threads, rt.alloc(), words, &mut outside, &OpenGate),
    };
    Ran {
        status,
        fault: outside.into_fault(),
    }
}

/// Runs what the words ask for.
fn run_words<R: Threads + Wait + Sync>(rt: &HostRuntime, threads: &R, words: &[String]) -> End {
    match words {
        [first, others @ ..] if first.as_str() == "many" => end_of_many(rt, others),
        [first, others @ ..] if first.as_str() == "enough" => end_of_enough(rt, words, others),
        _ => end_of(rt, words, ran_by(rt, threads, words)),
    }
}

/// Whether the first word is `many`, whatever the words behind it are.
fn is_of_many(rt: &HostRuntime) -> bool {
    let mut word = [0; 4];
    matches!(rt.arg(1, &mut word), Ok(4)) && word == *b"many"
}

/// How a run of the connections of a list ends whose words can't be had: one of them isn't UTF-8, or there is no memory.
fn many_without_words(status: &Status) -> Many {
    match status {
        Status::Memory => Many::Memory,
        _ => Many::Usage,
    }
}

/// The end where the words can't be had.
fn end_without_words(rt: &HostRuntime, status: Status) -> End {
    if is_of_many(rt) {
        end_of_listed(rt, &[], &many_without_words(&status), None)
    } else {
        let fault = None;
        end_of(rt, &[], Ran { status, fault })
    }
}

/// Tells how the program ends: the line of the fault with what helps behind a colon, and behind it what the system refused.
fn tell(rt: &HostRuntime, end: &End) {
    if end.line.is_empty() {
        return;
    }
    if end.help.is_empty() {
        let _ = eprintln!(rt; "{}", end.line);
    } else {
        let _ = eprintln!(rt; "{}: {}", end.line, end.help);
    }
    if let Some(fault) = &end.fault {
        let _ = eprintln!(rt; "mptcp_sim: {}: {}", fault.name, fault.reason);
    }
}

fn main(rt: HostRuntime) -> ExitCode {
    let end = match command_words(&rt) {
        Ok(words) => run_words(&rt, &rt, &words),
        Err(status) => end_without_words(&rt, status),
    };
    tell(&rt, &end);
    ExitCode::from(end.code)
}
