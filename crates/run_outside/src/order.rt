//! The log whose steps are made again.

ghost use Rattle.std.specs.Prelude.{◌≡◌, ◌≤◌, Ok, IfOk, IfErr};
ghost use Rattle.link_script.specs.Scripts.{HasRanges};
ghost use Rattle.run_outside.specs.Causes.{IsFormFault};
ghost use Rattle.run_outside.specs.Reading.{actors_of, width_of, log_reading};
ghost use Rattle.run_outside.specs.Inputs.{opening_count};

use crate::parting::split_at_first;
use crate::status::Status;
use link_script::Script;
use run_log::{LogFault, Turn, read_log};
use std::alloc::Global;

/// The first line of a log of the format that names no width.
const OLD_FORMAT: &[u8] = b"mptcp-log 1";

/// How many actors a run has: two applications, and each path.
fn actors_of(script: &Script) -> u8
    requires { HasRanges script.now }
    ensures { result ≡ actors_of script.now }
{
    2 + script.paths.as_slice().len() as u8
}

/// How many octets a data number has.
pub fn width_of(script: &Script) -> u8
    ensures { result ≡ width_of script.now }
{
    if script.short { 4 } else { 8 }
}

/// The turns that a log tells of a run of this script, or the first line that is refused.
pub fn read_order(alloc: Global, script: &Script, log: &[u8]) -> Result<Vec<Turn>, Status>
    requires { HasRanges script.now }
    ensures turns { IfOk result (λ turns. log_reading script.now log.now ≡ Ok turns.items) }
    ensures fault { IfErr result (IsFormFault script.now log.now) }
{
    match read_log(alloc, log, actors_of(script), width_of(script)) {
        Ok(turns) => Ok(turns),
        Err(LogFault::Line(line)) => Err(Status::Log { line }),
        Err(LogFault::Memory) => Err(Status::Memory),
    }
}

/// How many lines of a log stand before its first turn: three, or two in the format that names no width.
pub fn opening_count(log: &[u8]) -> u64
    ensures count { result ≡ opening_count log.now }
    ensures few { result ≤ 3 }
{
    let (first, _) = split_at_first(log, b'\n');
    if first == OLD_FORMAT { 2 } else { 3 }
}
