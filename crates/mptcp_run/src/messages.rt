//! Runs whose files go as messages, each line as one.

ghost use Rattle.std.specs.Prelude.{◌≡◌, [], Some, map, string_bytes, IfOk, IfSome, IsNone};
ghost use Rattle.outside_kit.specs.declared.port.Port.{Port};
ghost use Rattle.run_words.specs.Lines.{as_line, shown_work};
ghost use Rattle.mptcp_run.specs.Answers.{NothingWasRun};
ghost use Rattle.message_pipe.specs.Lined.{lined_content};
ghost use Rattle.mptcp_run.specs.Asked.{asked_in, is_run};
ghost use Rattle.mptcp_run.specs.Clean.{DeliversIfClean, DeliversIfFew};
ghost use Rattle.mptcp_run.specs.Ends.{HasEnded};
ghost use Rattle.mptcp_run.specs.MessagesCalls.{CalledToEnd};
ghost use Rattle.mptcp_run.specs.Promised.{NoneIsAltered};
ghost use Rattle.mptcp_run.specs.Task.{task_of};
ghost use Rattle.run_outside.specs.Inputs.{order_of};
ghost use Rattle.mptcp_run.specs.Messages.{as_framed, IsMessagesAnswer, IsRunOverFrames, ReadersShow, is_apart, is_order, messages_in, takes_messages};

use crate::top_call::run;
use actor_turn::Gate;
use message_pipe::{LineOutside, Naming};
use outside_kit::Outside;
use run_outside::{Status, read_words};
use run_words::{CommandLine, Mode};
use std::alloc::{AllocError, Global};
use std::marker::Brand;
use std::sync::Wait;
use std::thread::Threads;

/// Whether the mode takes a script and files: `run`, `serial`, `timed` or `replay`.
fn is_run(mode: Mode<'_>) -> bool
    ensures { result ≡ is_run (shown_work mode.entry) }
{
    match mode {
        Mode::Serial { .. } => true,
        Mode::Timed { .. } => true,
        Mode::Replay { .. } => true,
        Mode::Run { .. } => true,
        Mode::Bench { .. } => false,
    }
}

/// Whether a name is that of the log whose steps are made again.
fn is_order(mode: Mode<'_>, name: &str) -> bool
    ensures { result ≡ is_order (order_of (shown_work mode.entry)) name.now }
{
    match mode {
        Mode::Replay { order } => name == order,
        _ => false,
    }
}

/// Whether a name is neither that of the script nor that of the log.
fn is_apart(line: &CommandLine<'_>, name: &str) -> bool
    ensures { result ≡ is_apart (as_line line.now) name.now }
{
    name != line.script && !is_order(line.mode, name)
}

/// Whether the lines of both files can be messages.
fn takes_messages(line: &CommandLine<'_>) -> bool
    ensures { result ≡ takes_messages (as_line line.now) }
{
    is_run(line.mode) && is_apart(line, line.file_a) && is_apart(line, line.file_b)
}

/// The names of both files, copied.
fn file_names(alloc: Global, line: &CommandLine<'_>) -> Result<(String, String), AllocError>
    ensures file_a { IfOk result (λ names. string_bytes names.0 ≡ line.now.file_a.now) }
    ensures file_b { IfOk result (λ names. string_bytes names.1 ≡ line.now.file_b.now) }
{
    let file_a = String::from_str(alloc, line.file_a)?;
    let file_b = String::from_str(alloc, line.file_b)?;
    Ok((file_a, file_b))
}

/// Runs over the frames of the lines of both files, whose names are copied, in an outside whose ports N tells.
fn run_over_frames<O: Outside, G: Gate + Sync, R: Threads + Wait + Sync, N: Naming>(
    rt: &R,
    alloc: Global,
    words: &[String],
    line: &CommandLine<'_>,
    files: (String, String),
    outside: O,
    gate: &G,
) -> (Status, O)
    requires held { (port : Port) → N.held port ≡ (O.told outside).holds port }
    requires faults { (port : Port) → N.faults port ≡ (O.told outside).port_faults port }
    requires calls { N.calls ≡ (O.told outside).calls }
    requires empty_a { IfSome ((O.told outside).holds Port.ReadByA) (λ text. text ≡ []) }
    requires empty_b { IfSome ((O.told outside).holds Port.ReadByB) (λ text. text ≡ []) }
    requires words { asked_in (map string_bytes words.now) ≡ Some (as_line line.now) }
    requires file_a { string_bytes files.0 ≡ line.now.file_a.now }
    requires file_b { string_bytes files.1 ≡ line.now.file_b.now }
    ensures { IsRunOverFrames (as_line line.now) (O.told outside) (O.told result.1) result.0 }
{
    let mut lines: LineOutside<O, N> = LineOutside::new(alloc, outside, files.0, files.1);
    let status = run(rt, alloc, words, &mut lines, gate);
    (status, lines.into_inner())
}

/// Runs a command line whose files' lines are messages.
fn run_line<O: Outside, G: Gate + Sync, R: Threads + Wait + Sync>(
    rt: &R,
    alloc: Global,
    words: &[String],
    line: &CommandLine<'_>,
    outside: O,
    gate: &G,
) -> (Status, O)
    requires empty_a { IfSome ((O.told outside).holds Port.ReadByA) (λ text. text ≡ []) }
    requires empty_b { IfSome ((O.told outside).holds Port.ReadByB) (λ text. text ≡ []) }
    requires words { asked_in (map string_bytes words.now) ≡ Some (as_line line.now) }
    ensures { IsMessagesAnswer (as_line line.now) (O.told outside) (O.told result.1) result.0 }
{
    match file_names(alloc, line) {
        Ok(files) => {
            run_over_frames::<O, G, R, Brand>(rt, alloc, words, line, files, outside, gate)
        }
        Err(_) => (Status::Memory, outside),
    }
}

/// Runs a connection as the words say, with each line of FILE_A and of FILE_B as one message: what [`run`](crate::run) does where
/// both files hold the frames of their lines, each line behind its length in four octets. Lines end with LF, and a last line
/// without one counts. A reader's port gets each message with LF behind it, once all of it has come.
///
/// The modes are `run`, `serial`, `timed` and `replay`; a log of `replay` is that of a run of messages. Neither file is the script or
/// the log. The limit of a file is that of its frames. The readers' ports are empty, where that is told. The outside is given back
/// as it stands.
pub fn run_messages<O: Outside, G: Gate + Sync, R: Threads + Wait + Sync>(
    rt: &R,
    alloc: Global,
    words: &[String],
    outside: O,
    gate: &G,
) -> (Status, O)
    requires empty_a { IfSome ((O.told outside).holds Port.ReadByA) (λ text. text ≡ []) }
    requires empty_b { IfSome ((O.told outside).holds Port.ReadByB) (λ text. text ≡ []) }
    // What each reader's port shows of the lines of the other side's file, where no line of the script alters a payload: all of
    // them at status 0, first ones at another end of the run, a prefix where it was cut off, and else nothing.
    ensures lines { IfSome (messages_in (map string_bytes words.now)) (λ line.
        NoneIsAltered (O.told outside).content line → ReadersShow
        ((O.told outside).content line.names.file_a) ((O.told outside).content line.names.file_b)
        (O.told outside).holds (O.told result.1).holds result.0) }
    // Which calls a run makes that comes to its own end, where no line of the script alters a payload: the loads in their order, the
    // binds, for each reader one put for each line, all of them at status 0, and the last line at last.
    ensures calls { IfSome (messages_in (map string_bytes words.now)) (λ line.
        NoneIsAltered (O.told outside).content line → HasEnded result.0 → CalledToEnd result.0
        ((O.told outside).content line.names.file_a) ((O.told outside).content line.names.file_b)
        (task_of (lined_content line.names.file_a line.names.file_b (O.told outside).content) line) line
        (O.told outside).calls (O.told result.1).calls) }
    // A clean script, one path and no line, in `run`, `serial` or `timed`, with rounds that are enough for the frames of its files: all lines
    // are delivered, or memory is wanting, as long as the inputs are valid and no count of faults rises.
    ensures clean { IfSome (messages_in (map string_bytes words.now)) (λ line. DeliversIfClean
        line (as_framed line (O.told outside)) (O.told result.1) result.0) }
    // One by whose text few segments are lost, with rounds that are enough for the frames: the same.
    ensures few { IfSome (messages_in (map string_bytes words.now)) (λ line. DeliversIfFew
        line (as_framed line (O.told outside)) (O.told result.1) result.0) }
    // Why it ends so: what `run` answers where both files hold the frames of their lines.
    ensures answer { IfSome (messages_in (map string_bytes words.now)) (λ line. IsMessagesAnswer
        line (O.told outside) (O.told result.1) result.0) }
    // Words that ask for no such run: they are refused, and nothing is done.
    ensures neither { IsNone (messages_in (map string_bytes words.now)) → NothingWasRun
        (O.told outside) (O.told result.1) result.0 }
{
    match read_words(alloc, words) {
        Ok(line) if takes_messages(&line) => run_line(rt, alloc, words, &line, outside, gate),
        Ok(_) => (Status::Usage, outside),
        Err(status) => (status, outside),
    }
}
