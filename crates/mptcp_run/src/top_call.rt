//! The top call.

ghost use Rattle.std.specs.Prelude.{◌≡◌, ◌≢◌, ◌≤◌, ◌++◌, false, [], ◌∷◌, map, IsNone, IfOk, IfErr, IfSome, OnOk, OnErr, string_bytes};
ghost use Rattle.world_core.specs.Kept.{HasFewNotes};
ghost use Rattle.world_core.specs.Logged.{all_turns};
ghost use Rattle.outside_kit.specs.declared.port.Port.{Port};
ghost use Rattle.outside_kit.specs.Calls as call;
ghost use Rattle.outside_kit.specs.Outside.{HoldsAfter, HoldsPrefix};
ghost use Rattle.link_script.specs.Scripts.{HasRanges};
ghost use Rattle.run_words.specs.Lines as lines;
ghost use Rattle.run_words.specs.Lines.{replay, bench, as_line};
ghost use Rattle.world_laws.specs.Outcomes.{outcome_of};
ghost use Rattle.run_outside.specs.Calling.{Puts};
ghost use Rattle.mptcp_run.specs.Answers.{IsAnswer, IsMadeAnswer, NothingWasRun};
ghost use Rattle.mptcp_run.specs.Asked.{AsksInRange, asked_in, if_run};
ghost use Rattle.mptcp_run.specs.Clean.{DeliversIfClean, DeliversIfFew};
ghost use Rattle.mptcp_run.specs.Ends.{CameToEnd, IsCut, ReplayEnds, either};
ghost use Rattle.mptcp_run.specs.Made.{Bench, bench_of, bench_in};
ghost use Rattle.run_outside.specs.Plan.{AddsShort};
ghost use Rattle.run_outside.specs.Ports.{IsPortsFault};
ghost use Rattle.mptcp_run.specs.Promised.{NoneIsAltered, ReadersHaveAsMany, ReadersHaveFiles};
ghost use Rattle.mptcp_run.specs.Putting.{last_line_of, status_of};
ghost use Rattle.mptcp_run.specs.Replaying.{IsReplayFault};
ghost use Rattle.mptcp_run.specs.Rounds.{IsOpened};
ghost use Rattle.mptcp_run.specs.Schedules.{work_by};
ghost use Rattle.mptcp_run.specs.Task.{task_from, task_with};
ghost use Rattle.mptcp_run.specs.Task as course;
ghost use Rattle.mptcp_run.specs.Taken.{report_in, task_taken, EndsEarly, HasFewLines, TurnsFault};

use crate::outcome::{put_last, status_of};
use crate::replay::make_turns;
use crate::report::Report;
use crate::rounds::Run;
use crate::schedule::Schedule;
use crate::scheduled::make_rounds;
use crate::threads::make_threaded_rounds;
use crate::turns::Turns;
use actor_turn::Gate;
use outside_kit::{Outside, Port};
use run_outside::{
    Input, Replay, Status, bind_readers, load_input, load_replay, made_input, read_words,
};
use run_words::{CommandLine, Mode};
use std::alloc::Global;
use std::sync::Wait;
use std::thread::Threads;

/// Puts the last line of a run whose rounds were made, and answers how it ended.
fn end<O: Outside>(
    alloc: Global,
    outside: &mut O,
    run: &Run,
    report: Report,
) -> Result<Status, Status>
    ensures status { IfOk result
        (λ status. status ≡ status_of (outcome_of run.now.world.state.crew)) }
    ensures ok { OnOk result (HoldsAfter
        ((O.told outside.old).holds Port.Log) ((O.told outside.new).holds Port.Log)
        (λ held. held ++ last_line_of report run.now.rounds run.now.world.state)) }
    ensures err { OnErr result (HoldsPrefix
        ((O.told outside.old).holds Port.Log) ((O.told outside.new).holds Port.Log)
        (last_line_of report run.now.rounds run.now.world.state)) }
    ensures other_ports { (other : Port) → other ≢ Port.Log →
        (O.told outside.new).holds other ≡ (O.told outside.old).holds other }
    ensures short { IfErr result (λ status. AddsShort
        (call.Put Port.Log (last_line_of report run.now.rounds run.now.world.state) ∷ [])
        status (O.told outside.old).calls (O.told outside.new).calls) }
    ensures puts { Puts
        (call.Put Port.Log (last_line_of report run.now.rounds run.now.world.state) ∷ [])
        (O.told outside.old) (O.told outside.new) result }
    ensures few { run.now.world.failed ≡ false → HasFewNotes run.now.world.state }
{
    let status = status_of(run.world.outcome());
    put_last(alloc, outside, run, report)?;
    Ok(status)
}

/// Makes rounds by a schedule, at most so many, of a run before its first step, and puts its last line.
fn take_rounds<O: Outside>(
    alloc: Global,
    outside: &mut O,
    line: &CommandLine<'_>,
    input: &Input,
    schedule: Schedule,
    rounds: u32,
    report: Report,
    run: &mut Run,
) -> Result<Status, Status>
    requires { IsOpened input.now report run.old }
    ensures ended { IfOk result (CameToEnd [] (as_line line.now)
        (task_with input.now (course.rounds schedule rounds) report)
        (O.told outside.old) (O.told outside.new)) }
    ensures cut { IfErr result (IsCut [] (as_line line.now)
        (task_with input.now (course.rounds schedule rounds) report)
        (O.told outside.old) (O.told outside.new)) }
    ensures fault { IfErr result
        (IsPortsFault (O.told outside.old).port_faults (O.told outside.new).port_faults) }
    ensures load_counts { (O.told outside.new).load_faults ≡ (O.told outside.old).load_faults }
{
    bind_readers(outside, line)?;
    make_rounds(alloc, outside, schedule, run, rounds)?;
    end(alloc, outside, run, report)
}

/// Makes the turns of a log in a run before its first step, and puts its last line.
fn take_turns<O: Outside>(
    alloc: Global,
    outside: &mut O,
    line: &CommandLine<'_>,
    input: &Input,
    replay: &Replay,
    run: &mut Run,
) -> Result<Status, Status>
    requires opened { IsOpened input.now Report.Log run.old }
    requires few { replay.now.lines ≤ 3 }
    ensures ended { IfOk result (CameToEnd [] (as_line line.now)
        (task_from input.now (course.told (all_turns replay.now.turns.items)))
        (O.told outside.old) (O.told outside.new)) }
    ensures err { IfErr result (ReplayEnds [] (as_line line.now)
        (task_from input.now (course.told (all_turns replay.now.turns.items)))
        (O.told outside.old) (O.told outside.new)
        replay.now.lines) }
    ensures fault { IfErr result
        (IsReplayFault (O.told outside.old).port_faults (O.told outside.new).port_faults) }
    ensures load_counts { (O.told outside.new).load_faults ≡ (O.told outside.old).load_faults }
{
    bind_readers(outside, line)?;
    make_turns(alloc, outside, run, &replay.turns, replay.lines)?;
    end(alloc, outside, run, Report::Log)
}

/// Takes the turns in a run before its first step, and puts its last line.
fn take<O: Outside>(
    alloc: Global,
    outside: &mut O,
    line: &CommandLine<'_>,
    input: &Input,
    turns: &Turns<'_>,
    run: &mut Run,
) -> Result<Status, Status>
    requires opened { IsOpened input.now (report_in turns.now) run.old }
    requires few { HasFewLines turns.now }
    ensures ended { IfOk result
        (CameToEnd [] (as_line line.now) (task_taken input.now turns.now)
        (O.told outside.old) (O.told outside.new)) }
    ensures early { IfErr result
        (EndsEarly turns.now (as_line line.now) (task_taken input.now turns.now)
        (O.told outside.old) (O.told outside.new)) }
    ensures fault { IfErr result
        (TurnsFault turns.now (O.told outside.old).port_faults (O.told outside.new).port_faults) }
    ensures load_counts { (O.told outside.new).load_faults ≡ (O.told outside.old).load_faults }
{
    match turns {
        Turns::Scheduled {
            schedule,
            rounds,
            report,
        } => take_rounds(
            alloc, outside, line, input, *schedule, *rounds, *report, run,
        ),
        Turns::Logged(replay) => take_turns(alloc, outside, line, input, replay, run),
    }
}

/// Opens a run, takes its turns, and puts its last line.
fn perform<O: Outside>(
    alloc: Global,
    outside: &mut O,
    line: &CommandLine<'_>,
    input: &Input,
    turns: &Turns<'_>,
) -> Result<Status, Status>
    requires ranges { HasRanges input.now.script }
    requires few { HasFewLines turns.now }
    ensures ended { IfOk result
        (CameToEnd [] (as_line line.now) (task_taken input.now turns.now)
        (O.told outside.old) (O.told outside.new)) }
    ensures early { IfErr result
        (EndsEarly turns.now (as_line line.now) (task_taken input.now turns.now)
        (O.told outside.old) (O.told outside.new)) }
    ensures fault { IfErr result
        (TurnsFault turns.now (O.told outside.old).port_faults (O.told outside.new).port_faults) }
    ensures load_counts { (O.told outside.new).load_faults ≡ (O.told outside.old).load_faults }
{
    let Ok(mut run) = Run::open(alloc, input, turns.report()) else {
        return Err(Status::Memory);
    };
    let ended = take(alloc, outside, line, input, turns, &mut run);
    run.close();
    ended
}

/// What is answered, whether a run came to its own end or was cut off.
fn ended(told: Result<Status, Status>) -> Status
    ensures { result ≡ either told }
{
    match told {
        Ok(status) => status,
        Err(status) => status,
    }
}

/// A run of rounds by a schedule, at most so many.
fn run_scheduled<O: Outside>(
    alloc: Global,
    outside: &mut O,
    line: &CommandLine<'_>,
    schedule: Schedule,
    rounds: u32,
) -> Status
    requires asked { (as_line line.now).work ≡ work_by schedule rounds }
    requires in_range { AsksInRange (as_line line.now).work }
    ensures { IsAnswer (as_line line.now) (O.told outside.old) (O.told outside.new) result }
{
    let input = match load_input(alloc, outside, line) {
        Ok(input) => input,
        Err(status) => return status,
    };
    let report = Report::Log;
    let turns = Turns::Scheduled {
        schedule,
        rounds,
        report,
    };
    ended(perform(alloc, outside, line, &input, &turns))
}

/// Makes rounds by threads, at most so many, of a run before its first step, and puts its last line.
fn take_threaded_rounds<O: Outside, G: Gate + Sync, R: Threads + Wait + Sync>(
    rt: &R,
    alloc: Global,
    outside: &mut O,
    line: &CommandLine<'_>,
    input: &Input,
    rounds: u32,
    gate: &G,
    run: Run,
) -> (Run, Result<Status, Status>)
    requires opened { IsOpened input.now Report.Log run }
    ensures ended { IfOk result.1 (CameToEnd [] (as_line line.now)
        (task_from input.now (course.threads rounds))
        (O.told outside.old) (O.told outside.new)) }
    ensures cut { IfErr result.1 (IsCut [] (as_line line.now)
        (task_from input.now (course.threads rounds))
        (O.told outside.old) (O.told outside.new)) }
    ensures fault { IfErr result.1
        (IsPortsFault (O.told outside.old).port_faults (O.told outside.new).port_faults) }
{
    match bind_readers(outside, line) {
        Ok(()) => {}
        Err(status) => return (run, Err(status)),
    }
    let (run, told) = make_threaded_rounds(rt, alloc, outside, run, rounds, gate);
    match told {
        Ok(()) => {
            let told = end(alloc, outside, &run, Report::Log);
            (run, told)
        }
        Err(status) => (run, Err(status)),
    }
}

/// Opens a run, makes rounds by threads, at most so many, and puts its last line.
fn perform_threads<O: Outside, G: Gate + Sync, R: Threads + Wait + Sync>(
    rt: &R,
    alloc: Global,
    outside: &mut O,
    line: &CommandLine<'_>,
    input: &Input,
    rounds: u32,
    gate: &G,
) -> Result<Status, Status>
    requires ranges { HasRanges input.now.script }
    ensures ended { IfOk result (CameToEnd [] (as_line line.now)
        (task_from input.now (course.threads rounds))
        (O.told outside.old) (O.told outside.new)) }
    ensures cut { IfErr result (IsCut [] (as_line line.now)
        (task_from input.now (course.threads rounds))
        (O.told outside.old) (O.told outside.new)) }
    ensures fault { IfErr result
        (IsPortsFault (O.told outside.old).port_faults (O.told outside.new).port_faults) }
{
    let Ok(run) = Run::open(alloc, input, Report::Log) else {
        return Err(Status::Memory);
    };
    let (run, told) = take_threaded_rounds(rt, alloc, outside, line, input, rounds, gate, run);
    run.close();
    told
}

/// A run of rounds by threads, at most so many.
fn run_threads<O: Outside, G: Gate + Sync, R: Threads + Wait + Sync>(
    rt: &R,
    alloc: Global,
    outside: &mut O,
    line: &CommandLine<'_>,
    rounds: u32,
    gate: &G,
) -> Status
    requires asked { (as_line line.now).work ≡ lines.run rounds }
    requires in_range { AsksInRange (as_line line.now).work }
    ensures { IsAnswer (as_line line.now) (O.told outside.old) (O.told outside.new) result }
{
    let input = match load_input(alloc, outside, line) {
        Ok(input) => input,
        Err(status) => return status,
    };
    ended(perform_threads(rt, alloc, outside, line, &input, rounds, gate))
}

/// A run of whole turns over the made input of a number; nothing is loaded.
fn run_bench<O: Outside>(
    alloc: Global,
    outside: &mut O,
    line: &CommandLine<'_>,
    rounds: u32,
    number: u16,
) -> Status
    requires asked { (as_line line.now).work ≡ bench rounds number }
    requires in_range { AsksInRange (as_line line.now).work }
    ensures { IfSome (bench_of (as_line line.now)) (λ made. IsMadeAnswer made
        (O.told outside.old) (O.told outside.new) result) }
{
    let Ok(input) = made_input(alloc, number) else {
        return Status::Memory;
    };
    let report = Report::Summary { number };
    let turns = Turns::Scheduled {
        schedule: Schedule::Serial,
        rounds,
        report,
    };
    ended(perform(alloc, outside, line, &input, &turns))
}

/// A run of the turns of a log.
fn run_replay<O: Outside>(
    alloc: Global,
    outside: &mut O,
    line: &CommandLine<'_>,
    order: &str,
) -> Status
    requires { (as_line line.now).work ≡ replay order.now }
    ensures { IsAnswer (as_line line.now) (O.told outside.old) (O.told outside.new) result }
{
    let replay = match load_replay(alloc, outside, line, order) {
        Ok(replay) => replay,
        Err(status) => return status,
    };
    let turns = Turns::Logged(&replay);
    ended(perform(alloc, outside, line, &replay.input, &turns))
}

/// What a command line asks for, if it is run.
fn run_line<O: Outside, G: Gate + Sync, R: Threads + Wait + Sync>(
    rt: &R,
    alloc: Global,
    outside: &mut O,
    line: &CommandLine<'_>,
    gate: &G,
) -> Status
    requires in_range { AsksInRange (as_line line.now).work }
    ensures answer { IfSome (if_run (as_line line.now)) (λ asked. IsAnswer
        asked (O.told outside.old) (O.told outside.new) result) }
    ensures bench { IfSome (bench_of (as_line line.now)) (λ made. IsMadeAnswer made
        (O.told outside.old) (O.told outside.new) result) }
    ensures neither { IsNone (if_run (as_line line.now)) →
        IsNone (bench_of (as_line line.now)) → NothingWasRun
        (O.told outside.old) (O.told outside.new) result }
{
    match line.mode {
        Mode::Serial { rounds } => run_scheduled(alloc, outside, line, Schedule::Serial, rounds),
        Mode::Timed { rounds } => run_scheduled(alloc, outside, line, Schedule::Timed, rounds),
        Mode::Replay { order } => run_replay(alloc, outside, line, order),
        Mode::Bench { rounds, number } => run_bench(alloc, outside, line, rounds, number),
        Mode::Run { rounds } => run_threads(rt, alloc, outside, line, rounds, gate),
    }
}

/// Runs a connection as the words say: `--mode serial SCRIPT FILE_A FILE_B READ_BY_B READ_BY_A
/// [--rounds N]`, `--mode timed` or `--mode run` with the same words, `--mode replay` with `--order
/// LOG` in the place of the rounds, or `--mode bench` with `--number N`.
///
/// In `serial` the actors take whole turns, one after the other, round by round, until both readers
/// were told the end, each path is dead, or N rounds were made (1 to 65,536; 4,096 where nothing is
/// said). In `replay` they take the turns that a log tells. After each round what B's reader and A's
/// reader have read in it is put to `ReadByB` and `ReadByA`, if it is anything, and the lines of the
/// round's steps to `Log`, by stamp, then actor; and last the outcome. In `bench`, with `--number N`
/// (1 to 256), nothing is loaded: the input is made from the number and run as in `serial`, and
/// `Log` gets one line in the place of a log, at the end.
///
/// `timed` is `serial` with another order of the steps: in each round both applications take their
/// turns, A first, and then that path makes a step, as long as its turn goes on, whose clock at its
/// next ask is least, of several the one with the least number. So from one step to the next of any
/// path within a round no clock goes back.
///
/// In `run` the actors of a round take their turns at the same time, each in a thread of its own,
/// over books that lie in tables, each behind a ticket lock for as long as the round takes; the rest
/// is as in `serial`. Which steps come first is up to the threads, so two runs may differ, but each
/// is that of its log: the steps of every round can be put in order by stamp. Only in `run` is a
/// thread started and `gate` passed, and only there may the call wait. In each mode stamps that are
/// used up, behind 2^62 steps, count as want of memory.
///
/// The promises on what `outside` holds are kept as far as it tells it. None says that a thread is
/// started, that a lock is got, or that the call returns.
pub fn run<O: Outside, G: Gate + Sync, R: Threads + Wait + Sync>(
    rt: &R,
    alloc: Global,
    words: &[String],
    outside: &mut O,
    gate: &G,
) -> Status
    // Status 0, where no line of the script alters a payload: what each reader's port holds is what the other side's file holds.
    ensures delivered { result ≡ Status.Delivered →
        IfSome (asked_in (map string_bytes words.now)) (λ line.
        NoneIsAltered (O.told outside.old).content line → ReadersHaveFiles
        ((O.told outside.old).content line.names.file_a) ((O.told outside.old).content line.names.file_b)
        (O.told outside.old).holds (O.told outside.new).holds) }
    // Status 0, whatever the script alters: each port holds as many octets as that file has.
    ensures counted { result ≡ Status.Delivered →
        IfSome (asked_in (map string_bytes words.now)) (λ line. ReadersHaveAsMany
        ((O.told outside.old).content line.names.file_a) ((O.told outside.old).content line.names.file_b)
        (O.told outside.old).holds (O.told outside.new).holds) }
    // Words that ask for `run`, `serial`, `timed` or `replay`: the row of the answer.
    ensures answer { IfSome (asked_in (map string_bytes words.now)) (λ line. IsAnswer
        line (O.told outside.old) (O.told outside.new) result) }
    // A clean script, one path and no line, in `run`, `serial` or `timed`, with rounds that are enough for its files: both are delivered,
    // or memory is wanting, as long as the inputs are valid and no count of faults rises.
    ensures clean { IfSome (asked_in (map string_bytes words.now)) (λ line. DeliversIfClean
        line (O.told outside.old) (O.told outside.new) result) }
    // A script with one path by whose text few segments are lost, in the same modes, with rounds that are enough for it: the same.
    ensures few { IfSome (asked_in (map string_bytes words.now)) (λ line. DeliversIfFew
        line (O.told outside.old) (O.told outside.new) result) }
    // Words that ask for `bench`: its row.
    ensures bench { IfSome (bench_in (map string_bytes words.now)) (λ made. IsMadeAnswer made
        (O.told outside.old) (O.told outside.new) result) }
    // Words that ask for neither: they are refused, and nothing is done.
    ensures neither { IsNone (asked_in (map string_bytes words.now)) →
        IsNone (bench_in (map string_bytes words.now)) → NothingWasRun
        (O.told outside.old) (O.told outside.new) result }
{
    match read_words(alloc, words) {
        Ok(line) => run_line(rt, alloc, outside, &line, gate),
        Err(status) => status,
    }
}
