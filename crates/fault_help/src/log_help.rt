//! What helps with a log that is refused at a line.

ghost use Rattle.std.specs.Prelude.{◌≡◌};
ghost use Rattle.link_script.specs.Scripts.{HasRanges};
ghost use Rattle.run_outside.specs.Ports.{IsUntouched};
ghost use Rattle.run_words.specs.Lines.{as_line, replay};

use crate::log_forms::put_form_fault;
use crate::log_steps::put_step_fault;
use message_pipe::FramedOutside;
use outside_kit::Outside;
use run_log::Turn;
use run_outside::{Input, Logged, load_logged, read_order};
use run_words::{CommandLine, Mode};
use std::alloc::{AllocError, Global};
use world_core::World;

/// Puts why a line of a log is refused that has its form, of a run of these inputs: its turn can't be made, or it tells another segment
/// than the one that is sent; and the first line before it that tells another step than is made.
pub fn put_turn_fault(
    text: &mut String,
    alloc: Global,
    input: &Input,
    log: &[u8],
    turns: &[Turn],
    line: u64,
) -> Result<(), AllocError>
    requires { HasRanges input.now.script }
{
    let mut world = World::open(alloc, input)?;
    let put = put_step_fault(text, alloc, &mut world, log, turns, line);
    // What drops a world stands in its crate alone.
    world.close();
    put
}

/// Of a log that the inputs of a command line are read with.
fn put_help<O: Outside>(
    text: &mut String,
    alloc: Global,
    outside: &mut O,
    asked: &CommandLine<'_>,
    order: &str,
    line: u64,
) -> Result<(), AllocError>
    requires { (as_line asked.now).work ≡ replay order.now }
    ensures { IsUntouched (O.told outside.old) (O.told outside.new) }
{
    let Ok(Logged { input, log }) = load_logged(alloc, outside, asked, order) else {
        return Ok(());
    };
    match read_order(alloc, &input.script, &log) {
        Ok(turns) => put_turn_fault(text, alloc, &input, &log, &turns, line),
        Err(_) => put_form_fault(text, &input.script, &log, line),
    }
}

/// Puts what helps with the log of a command line whose steps are to be made again, and which is refused at this line: where the line leaves
/// its form and what stands there, or why its turn can't be made. Nothing is put where the inputs can't be read again. No port is
/// touched.
pub fn put_log_help<O: Outside>(
    text: &mut String,
    alloc: Global,
    outside: &mut O,
    asked: &CommandLine<'_>,
    line: u64,
) -> Result<(), AllocError>
    ensures { IsUntouched (O.told outside.old) (O.told outside.new) }
{
    match asked.mode {
        Mode::Replay { order } => put_help(text, alloc, outside, asked, order, line),
        _ => Ok(()),
    }
}

/// The names of both files, copied.
fn file_names(alloc: Global, asked: &CommandLine<'_>) -> Result<(String, String), AllocError> {
    let file_a = String::from_str(alloc, asked.file_a)?;
    let file_b = String::from_str(alloc, asked.file_b)?;
    Ok((file_a, file_b))
}

/// Puts what helps with a refused line of a log, where the lines of both files are messages. The outside is given back.
pub fn put_framed_log_help<O: Outside>(
    text: &mut String,
    alloc: Global,
    outside: O,
    asked: &CommandLine<'_>,
    line: u64,
) -> (Result<(), AllocError>, O)
    ensures { IsUntouched (O.told outside) (O.told result.1) }
{
    match file_names(alloc, asked) {
        Ok((file_a, file_b)) => {
            let mut framed = FramedOutside::new(outside, file_a, file_b);
            let put = put_log_help(text, alloc, &mut framed, asked, line);
            (put, framed.into_inner())
        }
        Err(error) => (Err(error), outside),
    }
}
