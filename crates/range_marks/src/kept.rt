//! What the changes of marks do to the runs that are kept.
ghost use Rattle.std.specs.Prelude.{◌≡◌, ℕ, ◌-◌, ◌<◌, ◌≤◌, ◌++◌, drop, length, replicate, OnOk, OnErr};
ghost use Rattle.range_marks.specs.Runs.{marks_of, LieSideBySide, NeighboursDiffer, ended_by, begun_before, runs_from, runs_below};

use crate::mark::Mark;
use crate::run::Run;
use std::alloc::AllocError;

/// Appends a run that begins where the last one ends, or makes the last one longer where it has the same mark.
pub(crate) fn append<M: Mark>(runs: &mut Vec<Run<M>>, run: Run<M>) -> Result<(), AllocError>
    requires { run.from ≤ run.to }
    ensures places { (from : ℕ) → LieSideBySide from run.from runs.old.items
        → OnOk result (LieSideBySide from run.to runs.new.items) }
    ensures marks { (from : ℕ) → LieSideBySide from run.from runs.old.items
        → OnOk result
        (marks_of runs.new.items ≡ marks_of runs.old.items ++ replicate (run.to - run.from)
        run.mark) }
    ensures fewest { NeighboursDiffer runs.old.items →
        OnOk result (NeighboursDiffer runs.new.items) }
    ensures err { OnErr result (runs.new.items ≡ runs.old.items) }
{
    if run.from == run.to {
        return Ok(());
    }
    let len = runs.len();
    if len > 0 && runs[len - 1].mark == run.mark {
        runs[len - 1].to = run.to;
        return Ok(());
    }
    runs.push(run)?;
    Ok(())
}

/// How many runs end at or before this place: the index of the run that holds it.
pub(crate) fn ended_by<M: Copy>(runs: &[Run<M>], place: u64) -> usize
    ensures value { result ≡ ended_by place runs.now }
    ensures within { result ≤ length runs.now }
{
    for (index, run) in runs.iter().enumerate() {
        if place < run.to {
            return index;
        }
    }
    runs.len()
}

/// How many runs begin before this place.
fn begun_before<M: Copy>(runs: &[Run<M>], place: u64) -> usize
    ensures value { result ≡ begun_before place runs.now }
    ensures within { result ≤ length runs.now }
{
    for (index, run) in runs.iter().enumerate() {
        if place <= run.from {
            return index;
        }
    }
    runs.len()
}

/// Takes away the first `count` runs.
fn remove_first<M: Copy>(runs: &mut Vec<Run<M>>, count: usize)
    requires { count ≤ length runs.old.items }
    ensures { runs.new.items ≡ drop count runs.old.items }
{
    runs.drain(..count);
}

/// Leaves the places from `place` on.
pub(crate) fn drop_runs<M: Copy>(runs: &mut Vec<Run<M>>, place: u64)
    ensures { runs.new.items ≡ runs_from place runs.old.items }
{
    let ended = ended_by(runs, place);
    remove_first(runs, ended);
    if let Some(first) = runs.first_mut() {
        first.from = first.from.max(place);
    }
}

/// Leaves the places below `place`.
pub(crate) fn cut_runs<M: Copy>(runs: &mut Vec<Run<M>>, place: u64)
    ensures { (from to : ℕ) → LieSideBySide from to runs.old.items
        → runs.new.items ≡ runs_below place runs.old.items }
{
    let begun = begun_before(runs, place);
    runs.truncate(begun);
    if let Some(last) = runs.last_mut() {
        last.to = last.to.min(place);
    }
}
