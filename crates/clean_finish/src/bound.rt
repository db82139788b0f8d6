//! How many rounds are enough.

ghost use Rattle.std.specs.Prelude.{◌≡◌, ◌≤◌, max};
ghost use Rattle.std.specs.Int.{div_ceil};
ghost use Rattle.clean_finish.specs.Bound.{segments, bound_of, enough};

use link_script::{PathLine, Script};

/// How many rounds are enough for both files to be delivered (`clean_scripts_finish`), where the script is clean, which means that it
/// has one path and no line; none where it isn't. Lengths of the files are in octets.
pub fn rounds_enough(script: &Script, length_a: u64, length_b: u64) -> Option<u64>
    requires a { length_a ≤ 16777216 }
    requires b { length_b ≤ 16777216 }
    ensures { result ≡ enough script.now length_a length_b }
{
    match (script.paths.as_slice(), script.lines.as_slice()) {
        ([path], []) => Some(bound(path.mss, length_a, length_b)),
        _ => None,
    }
}

/// 80 rounds, and 16 more for each full segment of either file.
fn bound(mss: u16, length_a: u64, length_b: u64) -> u64
    requires a { length_a ≤ 16777216 }
    requires b { length_b ≤ 16777216 }
    ensures { result ≡ bound_of mss length_a length_b }
{
    80 + 16 * (full_segments(mss, length_a) + full_segments(mss, length_b))
}

/// In how many full segments so many octets go.
fn full_segments(mss: u16, length: u64) -> u64
    ensures value { result ≡ segments mss length }
    ensures few { result ≤ length }
{
    let payload = u64::from(mss).saturating_sub(28).max(1);
    length.div_ceil(payload)
}
