//! Runs in order and apart. They are searched by halves.

ghost use Rattle.std.specs.Prelude.{◌≡◌, ℕ, ◌<◌, ◌≤◌, None, length, nat_le, IfSome, IfNone, OnOk, OnErr};
ghost use Rattle.std.specs.Option.{option_or};
ghost use Rattle.std.specs.List.{prefix_len};
ghost use Rattle.first_runs.specs.Runs.{told_at, told_by, AreInOrder, Fits, IsFirstBehind};

use crate::run::Run;
use std::alloc::AllocError;

// How many of these runs end at or before the place.
fn ended_by(runs: &[Run], place: u64) -> usize
    requires { AreInOrder 0 runs.now }
    ensures value { result ≡ prefix_len (λ run. nat_le run.to place) runs.now }
    ensures within { result ≤ length runs.now }
{
    runs.partition_point(|run| run.to <= place)
}

/// The first run that ends behind a place.
pub(crate) fn first_behind(runs: &[Run], place: u64) -> Option<Run>
    requires { AreInOrder 0 runs.now }
    ensures some { IfSome result (λ run. IsFirstBehind runs.now place run) }
    ensures none { IfNone result ((p : ℕ) → place ≤ p → told_at runs.now p ≡ None) }
{
    let index = ended_by(runs, place);
    match runs.get(index) {
        Some(run) => Some(*run),
        None => None,
    }
}

/// Adds a run of whose places nothing is told.
pub(crate) fn put(runs: &mut Vec<Run>, run: Run) -> Result<(), AllocError>
    requires order { AreInOrder 0 runs.old.items }
    requires some { run.from < run.to }
    requires fits { Fits run }
    requires free { (p : ℕ) → run.from ≤ p → p < run.to → told_at runs.old.items p ≡ None }
    ensures order { AreInOrder 0 runs.new.items }
    ensures ok { OnOk result ((p : ℕ) →
        told_at runs.new.items p ≡ option_or (told_at runs.old.items p) (told_by run p)) }
    ensures err { OnErr result (runs.new.items ≡ runs.old.items) }
{
    let index = ended_by(runs, run.from);
    runs.insert(index, run)?;
    Ok(())
}
