//! Runs by threads in which actors wait for one another: `meet PLACES | SCRIPT | FILE_A | FILE_B`.
//!
//! `PLACES` are told as `case_fields` says. Which step comes first is up to the threads, and so is the log: shown is what is the same whatever
//! they do, how the run ends, what the readers' ports hold, whether all of them met, and how many turns threads began in each round.

use case_fields::{Case, CountingGate, Recorder, Task, gate_of, put_meeting, put_report};
use mptcp_run::{Status, run};
use outside_kit::Port;
use std::alloc::Global;
use std::sync::Wait;
use std::thread::Threads;

/// A run at this gate: how it ended, and the outside then.
fn run_at<R: Threads + Wait + Sync>(
    rt: &R,
    alloc: Global,
    words: &[String],
    mut outside: Recorder,
    gate: &CountingGate,
) -> (Status, Recorder) {
    let status = run(rt, alloc, words, &mut outside, gate);
    (status, outside)
}

/// Puts what is printed of a run by threads at the gate that a line tells, whose fields the case has.
pub fn meeting<R: Threads + Wait + Sync>(rt: &R, case: &mut Case, line: &'static str) {
    let places = match case.rest().split_once(" | ") {
        Some((places, _)) => places,
        None => "",
    };
    case.read(places, " ");
    let Ok(gate) = gate_of(case) else {
        return case.fail();
    };
    case.read(line, " | ");
    case.word();
    let task = Task::by_threads(case);
    case.put(line);
    put_met(rt, case, &task, &gate);
}

/// Puts what is printed of a run by threads at this gate.
fn put_met<R: Threads + Wait + Sync>(rt: &R, case: &mut Case, task: &Task, gate: &CountingGate) {
    match task.words(case.alloc) {
        Ok(words) => put_met_by(rt, case, task, words.as_slice(), gate),
        Err(_) => case.fail(),
    }
}

/// Puts what is printed of the run of these words.
fn put_met_by<R: Threads + Wait + Sync>(
    rt: &R,
    case: &mut Case,
    task: &Task,
    words: &[String],
    gate: &CountingGate,
) {
    let alloc = case.alloc;
    let Ok(outside) = task.outside(alloc, &[]) else {
        return case.refuse();
    };
    let outside = Recorder::new(alloc, outside);
    let (status, outside) = run_at(rt, alloc, words, outside, gate);
    case.tell_behind("\n  ", &status);
    put_report(case, task.shown, &outside);
    put_meeting(case, gate, outside.port(Port::Log));
}
