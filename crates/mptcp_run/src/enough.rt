//! How many rounds are enough.

ghost use Rattle.std.specs.Prelude.{◌≡◌, ◌≤◌, ◌+◌, ◌*◌, ◌&&◌, count_by, not};
ghost use Rattle.std.specs.List.{list_all};
ghost use Rattle.sides.specs.declared.side.Side.TheVariants.{A};
ghost use Rattle.link_model.specs.Laws.{moves};
ghost use Rattle.whole_paths.specs.QuietTexts.{is_first};
ghost use Rattle.whole_paths.specs.Finish.{harms, harms_to, patient_rounds, segments};
ghost use Rattle.mptcp_run.specs.Enough as few;

use link_script::{Direction, Happens, PathLine, Script, ScriptLine, Segment};
use sides::Side;

/// Whether a line lets no path die, takes nothing away, alters and stops nothing, and speaks of no whole direction.
fn is_gentle(line: &ScriptLine) -> bool
    ensures { result ≡ few.is_gentle line.now }
{
    match *line {
        ScriptLine::OnSegment(_, Happens::Lost | Happens::Late(_) | Happens::Again(_))
        | ScriptLine::Prio { .. }
        | ScriptLine::Add { .. } => true,
        ScriptLine::Remove { id, .. } => 0 < id,
        ScriptLine::OnSegment(..)
        | ScriptLine::OnDirection(..)
        | ScriptLine::StripAll { .. }
        | ScriptLine::Die { .. }
        | ScriptLine::FastClose { .. } => false,
    }
}

/// Whether by a line one of A's first eight segments is lost, late or repeated, or waits.
fn moves_a(line: &ScriptLine) -> bool
    ensures { result ≡ (moves A line.now && is_first 8 line.now) }
{
    match *line {
        ScriptLine::OnSegment(
            Segment {
                from: Side::A,
                number,
                ..
            },
            Happens::Lost | Happens::Late(_) | Happens::Again(_),
        ) => number <= 8,
        ScriptLine::OnDirection(Direction { from: Side::A, .. }, _) => true,
        _ => false,
    }
}

/// Whether by a line a segment of path 0 is lost or late.
fn harms(line: &ScriptLine) -> bool
    ensures { result ≡ harms 0 line.now }
{
    match *line {
        ScriptLine::OnSegment(segment, Happens::Lost | Happens::Late(_)) => segment.path == 0,
        _ => false,
    }
}

/// By how many lines a segment of path 0 is lost or late.
fn harms_of(script: &Script) -> u64
    ensures { result ≡ harms_to 0 script.now }
{
    script
        .lines
        .as_slice()
        .iter()
        .filter(|line| harms(line))
        .count() as u64
}

/// Whether a file of so many octets fits into the first window.
fn fits_first(buffer: u64, length: u64) -> bool
    requires { length ≤ 16777216 }
    ensures { result ≡ few.fits_first buffer length }
{
    length + 3 <= buffer && length + 1 <= 65_535
}

/// Whether each line is gentle.
fn are_gentle(script: &Script) -> bool
    ensures { result ≡ list_all few.is_gentle script.now.lines }
{
    script.lines.as_slice().iter().all(|line| is_gentle(line))
}

/// Whether none of the lines moves one of A's first eight segments.
fn moves_none_of_a(script: &Script) -> bool
    ensures { result ≡ few.moves_none_of_a script.now.lines }
{
    script.lines.as_slice().iter().all(|line| !moves_a(line))
}

/// Whether few segments are lost by the script's text.
fn loses_few(script: &Script, length_a: u64) -> bool
    requires { length_a ≤ 16777216 }
    ensures { result ≡ few.loses_few script.now length_a }
{
    are_gentle(script)
        && harms_of(script) <= 4
        && (moves_none_of_a(script) || fits_first(script.buffer, length_a))
}

/// In how many full segments so many octets go.
fn full_segments(mss: u16, length: u64) -> u64
    ensures value { result ≡ segments mss length }
    ensures few { result ≤ length }
{
    let payload = u64::from(mss).saturating_sub(28).max(1);
    length.div_ceil(payload)
}

/// How many lines by which a segment is lost or late are allowed for.
fn harms_allowed(path: &PathLine, script: &Script, length_a: u64) -> u64
    requires harms { harms_to 0 script.now ≤ 4 }
    requires a { length_a ≤ 16777216 }
    ensures value { result ≡ few.harms_allowed path.now script.now length_a }
    ensures few { result ≤ 4 + length_a }
{
    let early = if moves_none_of_a(script) {
        0
    } else {
        full_segments(path.mss, length_a)
    };
    harms_of(script) + early
}

/// 10,800 rounds, 23 for each full segment of either file, and 3,150 for each harm.
fn patient_rounds(path: &PathLine, length_a: u64, length_b: u64, harms: u64) -> u64
    requires a { length_a ≤ 16777216 }
    requires b { length_b ≤ 16777216 }
    requires harms { harms ≤ 4 + length_a }
    ensures { result ≡ patient_rounds path.now.mss length_a length_b harms }
{
    10_800
        + 23 * (full_segments(path.mss, length_a) + full_segments(path.mss, length_b))
        + 3_150 * harms
}

/// How many rounds are enough where the text of the script tells that few segments are lost.
fn few_enough(script: &Script, length_a: u64, length_b: u64) -> Option<u64>
    requires a { length_a ≤ 16777216 }
    requires b { length_b ≤ 16777216 }
    ensures { result ≡ few.few_enough script.now length_a length_b }
{
    match script.paths.as_slice() {
        [path] if loses_few(script, length_a) => Some(patient_rounds(
            path,
            length_a,
            length_b,
            harms_allowed(path, script, length_a),
        )),
        _ => None,
    }
}

/// How many rounds are enough for both files to be delivered (`clean_runs_deliver`, `few_runs_deliver`); none where nothing is promised.
/// Lengths of the files are in octets. Takes no memory.
///
/// A script with one path and no line: 80 rounds, and 16 for each full segment of either file. One with one path and lines by which few
/// segments are lost or late: 10,800 rounds, 23 for each full segment, and 3,150 for each of these lines, four at most. Where one of its
/// lines is a `drop`, `late` or `dup` of A's segments, A's file has three octets fewer than the script's buffer, and at most 65,534; and
/// each full segment of it counts as such a line besides. None of its lines strips, alters, kills or stops anything, speaks of a whole
/// direction, or takes back address 0.
pub fn rounds_enough(script: &Script, length_a: u64, length_b: u64) -> Option<u64>
    requires a { length_a ≤ 16777216 }
    requires b { length_b ≤ 16777216 }
    ensures { result ≡ few.rounds_enough script.now length_a length_b }
{
    match clean_finish::rounds_enough(script, length_a, length_b) {
        Some(rounds) => Some(rounds),
        None => few_enough(script, length_a, length_b),
    }
}
