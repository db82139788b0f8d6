//! When an application stops the connection, by its script.
ghost use Rattle.std.specs.Prelude.{◌≡◌, ◌/◌, find, option_map};
ghost use Rattle.link_script.specs.Places.{same_side};
ghost use Rattle.stream_apps.specs.Starts.{fast_close_of, is_fast_close, rounds_before};

use link_script::ScriptLine;
use sides::Side;

/// Ticks of a round.
const ROUND: u64 = 100;

/// How many rounds end before the one that holds the tick.
fn rounds_before(tick: u64) -> u64
    ensures { result ≡ rounds_before tick }
{
    tick / ROUND
}

/// How many rounds end before the one that holds the tick at which the side stops the connection, where a line says so.
pub(crate) fn rounds_before_stop(side: Side, lines: &[ScriptLine]) -> Option<u64>
    ensures { result ≡ option_map rounds_before (fast_close_of side lines.now) }
{
    match fast_close_of(side, lines) {
        Some(tick) => Some(rounds_before(tick)),
        None => None,
    }
}

/// The tick at which the side stops the connection, by the first line that says so.
fn fast_close_of(side: Side, lines: &[ScriptLine]) -> Option<u64>
    ensures { result ≡ fast_close_of side lines.now }
{
    match fast_close_line(side, lines) {
        Some(ScriptLine::FastClose { tick, .. }) => Some(tick),
        _ => None,
    }
}

fn fast_close_line(side: Side, lines: &[ScriptLine]) -> Option<ScriptLine>
    ensures { result ≡ find (is_fast_close side) lines.now }
{
    lines.iter().copied().find(|line| is_fast_close(side, line))
}

/// Whether the side stops the connection by this line.
fn is_fast_close(stops: Side, line: &ScriptLine) -> bool
    ensures { result ≡ is_fast_close stops line.now }
{
    match line {
        ScriptLine::FastClose { side, .. } => is_same(stops, *side),
        _ => false,
    }
}

fn is_same(a: Side, b: Side) -> bool
    ensures { result ≡ same_side a b }
{
    a == b
}
