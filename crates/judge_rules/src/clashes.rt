//! The rule `mapping` on positions that have places already.

ghost use Rattle.std.specs.Prelude.{◌≡◌, ◌+◌, ◌-◌, ◌^◌, ◌<◌, ◌≤◌};
ghost use Rattle.first_runs.specs.Runs.{Fits, told_at, told_by};
ghost use Rattle.judge_rules.specs.Clashes.{clash_by, first_clash};

use crate::finding::Finding;
use first_runs::{FirstRuns, Run};

/// The lowest of the positions from one on, below another, that has another place than a mapping gives it, which begins with the first
/// of them at this place. The images of positions are their places, and the packets that told these their tellers.
pub fn first_clash(places: &FirstRuns, from: u64, to: u64, place: u64) -> Option<Finding>
    requires order { from ≤ to }
    requires fits { place + (to - from) < 2 ^ 64 }
    ensures { result ≡ first_clash (told_at places.now) from place (to - from) }
{
    let mut position = from;
    while position < to {
        let run = places.first_behind(position)?;
        let begin = run.from.max(position);
        if to <= begin {
            return None;
        }
        if let Some(finding) = clash_by(&run, begin, place + (begin - from)) {
            return Some(finding);
        }
        position = run.to;
    }
    None
}

// A position of a run, beside the place that a mapping gives it.
fn clash_by(run: &Run, position: u64, place: u64) -> Option<Finding>
    requires begun { run.now.from ≤ position }
    requires within { position < run.now.to }
    requires fits { Fits run.now }
    ensures { result ≡ clash_by (told_by run.now position) position place }
{
    let was = run.image_at(position);
    if was == place {
        return None;
    }
    Some(Finding::OtherPlace {
        position,
        was,
        packet: run.teller,
        is: place,
    })
}
