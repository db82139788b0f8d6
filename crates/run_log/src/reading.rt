//! Reads a log.

ghost use Rattle.std.specs.Prelude.{◌≡◌, ◌<◌, ◌+◌, ◌-◌, ◌^◌, ◌++◌, OnOk, IfOk};
ghost use Rattle.run_log.specs.Form.{HasRoundBelow, taken_line, turn_list, after_line, reading, Gives};

use crate::fault::LogFault;
use crate::form::{Expected, Setting};
use crate::turn::Turn;
use octet_text::split_line;
use std::alloc::{AllocError, Global};

/// Adds the turn that a line tells, if it tells one.
fn note_turn(turns: &mut Vec<Turn>, turn: Option<Turn>) -> Result<(), AllocError>
    ensures { OnOk result (turns.new.items ≡ turns.old.items ++ turn_list turn) }
{
    match turn {
        Some(turn) => Ok(turns.push(turn)?),
        None => Ok(()),
    }
}

/// Takes the line with this number: what may stand next, and the turn that it tells.
fn take_line(
    alloc: Global,
    setting: Setting,
    number: u64,
    expected: &mut Expected,
    turns: &mut Vec<Turn>,
    line: &[u8],
) -> Result<(), LogFault>
    requires { HasRoundBelow (2 ^ 64 - 1) expected.old }
    ensures { Gives (λ _. (expected.new, turns.new.items)) result
        (after_line number turns.old.items
        (taken_line setting.actors setting.width expected.old line.now)) }
{
    let Some(taken) = expected.take(alloc, setting, line)? else {
        return Err(LogFault::Line(number));
    };
    note_turn(turns, taken.turn)?;
    *expected = taken.next;
    Ok(())
}

fn read_lines(alloc: Global, setting: Setting, bytes: &[u8]) -> Result<Vec<Turn>, LogFault>
    ensures { Gives (λ turns. turns.items) result (reading setting.actors setting.width bytes.now) }
{
    // For the proof: there are fewer than 2^63 lines.
    let _len = bytes.len();
    let mut turns = Vec::new(alloc);
    let mut expected = Expected::Format;
    let mut number = 1;
    let mut rest = bytes;
    while !rest.is_empty() {
        let (line, after) = split_line(rest);
        take_line(alloc, setting, number, &mut expected, &mut turns, line)?;
        number += 1;
        rest = after;
    }
    if !expected.is_nothing() {
        return Err(LogFault::Line(number));
    }
    Ok(turns)
}

/// Reads the turns of a log, or says which line is refused first.
///
/// The run has so many actors, and its data numbers have `width` octets, 8 or 4. Both formats are read; the second line
/// of format 2 has to name this width, and format 1 names none. Each line ends with LF, which the last line may lack.
/// Every octet is allowed, and every text is answered.
pub fn read_log(alloc: Global, bytes: &[u8], actors: u8, width: u8) -> Result<Vec<Turn>, LogFault>
    // The turns that the text tells or the first line that is refused, unless memory ran out.
    ensures exact { Gives (λ turns. turns.items) result (reading actors width bytes.now) }
{
    read_lines(alloc, Setting { actors, width }, bytes)
}
