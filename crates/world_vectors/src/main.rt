//! Cases of what no words of `mptcp_sim` say of a run: which calls it makes on its outside, what it does where one of them fails, and
//! threads that meet. Reads one a line from standard input, and prints how `mptcp_run` ends it, and what the outside holds then. `stdin`
//! holds the cases, `stdout` the wanted answers. Lines that begin with `#` are printed as they stand, and say how the answers were found.
//! Runs that words say stand in `checks/runs.cases`.
//!
//! `task.rt` of `case_fields` tells the form of a case, which is printed before its answer. Of the answer, `sums` shows how many octets the
//! readers' ports hold, how many lines the log has, and the SHA-256 of each; `read` the same of the readers' ports alone; `calls` these sums,
//! and the calls that were made on the outside: the name and the limit of a load, the port and the name of a bind, the port and the number
//! of octets of a put. A line that begins with `meet` is a run by threads, as `meeting.rt` tells; one that begins with `round` is the
//! first round of a run by threads at locks, as `opening.rt` tells; one that begins with `enough` asks within how many rounds a clean
//! script ends, as `enough.rt` tells; one that begins with `many` is a run of a list of connections, as `lists.rt` tells; one that
//! begins with `table` is calls of a table of connections, as `tables.rt` tells; one that begins with `tables` is rounds by threads at the
//! tables of books, as `at_tables.rt` tells; and one that begins with `path` is a run with segments that no end sent, as `paths.rt`
//! tells.
#![tactic(auto)]

mod at_tables;
mod caller;
mod enough;
mod inputs;
mod lists;
mod meeting;
mod opening;
mod paths;
mod tables;

use actor_turn::OpenGate;
use at_tables::at_tables;
use case_fields::{Case, CaseFault, Recorder, Task, kept_line, put_report};
use enough::enough;
use lists::list;
use meeting::meeting;
use mptcp_run::{Status, run, run_messages};
use opening::first_round;
use outside_kit::Port;
use paths::path;
use std::alloc::{AllocError, Global};
use std::io;
use std::sync::Wait;
use std::thread::Threads;
use tables::table;

/// The run of a case: how it ended, and the outside then.
fn ended<R: Threads + Wait + Sync>(
    rt: &R,
    alloc: Global,
    task: &Task,
    words: &[String],
    mut outside: Recorder,
) -> (Status, Recorder) {
    if task.has_messages {
        return run_messages(rt, alloc, words, outside, &OpenGate);
    }
    let status = run(rt, alloc, words, &mut outside, &OpenGate);
    (status, outside)
}

/// Puts how a run ends, and what is shown of it. A serial run leaves its log in `log`.
fn put_run<R: Threads + Wait + Sync>(rt: &R, case: &mut Case, task: &Task, log: &mut Vec<u8>) {
    match task.words(case.alloc) {
        Ok(words) => put_run_of(rt, case, task, words.as_slice(), log),
        Err(_) => case.fail(),
    }
}

/// Puts how the run of these words ends.
fn put_run_of<R: Threads + Wait + Sync>(
    rt: &R,
    case: &mut Case,
    task: &Task,
    words: &[String],
    log: &mut Vec<u8>,
) {
    let alloc = case.alloc;
    match task.outside(alloc, log.as_slice()) {
        Ok(outside) => {
            let outside = Recorder::new(alloc, outside);
            let (status, outside) = ended(rt, alloc, task, words, outside);
            put_ended(case, task, &status, &outside, log);
        }
        Err(_) => case.refuse(),
    }
}

/// Puts how a run ended, and what is shown of the outside then.
fn put_ended(case: &mut Case, task: &Task, status: &Status, outside: &Recorder, log: &mut Vec<u8>) {
    case.tell_behind("\n  ", status);
    put_report(case, task.shown, outside);
    if task.is_serial() {
        keep_log(case, log, outside.port(Port::Log));
    }
}

fn keep_log(case: &mut Case, log: &mut Vec<u8>, told: &[u8]) {
    match Vec::from_slice(case.alloc, told) {
        Ok(told) => *log = told,
        Err(_) => case.fail(),
    }
}

/// Puts what is printed for a line of standard input.
fn put_answer<R: Threads + Wait + Sync>(
    rt: &R,
    case: &mut Case,
    line: &'static str,
    log: &mut Vec<u8>,
) {
    if line.is_empty() || line.starts_with("#") {
        return case.put(line);
    }
    match case.word() {
        "path" => path(case, line),
        "table" => table(case, line),
        "tables" => at_tables(rt, case, line),
        "meet" => meeting(rt, case, line),
        "many" => list(case, line),
        name => put_other(rt, case, name, line, log),
    }
}

/// Puts the answer to a line all of whose fields have ` | ` between them.
fn put_other<R: Threads + Wait + Sync>(
    rt: &R,
    case: &mut Case,
    name: &str,
    line: &'static str,
    log: &mut Vec<u8>,
) {
    case.read(line, " | ");
    match name {
        "round" => first_round(rt, case, line),
        "enough" => enough(case, line),
        _ => {
            let task = Task::read(case);
            case.put(line);
            put_run(rt, case, &task, log);
        }
    }
}

/// What is printed for a line of standard input.
fn answer<R: Threads + Wait + Sync>(
    rt: &R,
    alloc: Global,
    line: &'static str,
    log: &mut Vec<u8>,
) -> Result<String, CaseFault> {
    let mut case = Case::new(alloc, line);
    put_answer(rt, &mut case, line, log);
    case.end()
}

/// Prints the answer to a line of standard input.
fn print_answer(
    rt: &HostRuntime,
    line: &str,
    answered: Result<String, CaseFault>,
) -> io::Result<()> {
    match answered {
        Ok(text) => println!(rt; "{text}"),
        Err(CaseFault::Form) => println!(rt; "not a case: {line}"),
        Err(CaseFault::Memory) => Err(AllocError.into()),
    }
}

fn main(rt: HostRuntime) -> io::Result<()> {
    let mut log = Vec::new(rt.alloc());
    for line in rt.lines(rt.alloc()) {
        let line = kept_line(line?);
        let answered = answer(&rt, rt.alloc(), line, &mut log);
        print_answer(&rt, line, answered)?;
    }
    Ok(())
}
