//! Runs in order, of which no two have a position in common. They are searched by halves.
ghost use Rattle.std.specs.Prelude.{◌≡◌, ◌+◌, ◌-◌, ◌^◌, ◌<◌, ◌≤◌, ◌∷◌, ◌++◌, true, length, take, drop, IfSome, nat_lt};
ghost use Rattle.std.specs.List.{insert, prefix_len};
ghost use Rattle.std.specs.Vec.{vec_len, vec_capacity};
ghost use Rattle.dss_mapping.specs.Runs.{covers, place_in, IsSound};
ghost use Rattle.dss_mapping.specs.Places.{with_run};
ghost use Rattle.dss_mapping.specs.Mappings.{tail_at};
ghost use Rattle.dss_mapping.specs.Kept.{AreOrdered, places_of, place_among, place_by, lies_before, absorbed, count_joined, IsStretch, AgreeAmong, AreApart};

use crate::run::Run;
use crate::stretch::Stretch;
use seq_units::Pos;

/// How many of these runs end before the position.
fn ended_before(runs: &[Run], pos: Pos) -> usize
    requires { AreOrdered 0 runs.now }
    ensures value { result ≡ prefix_len (λ run. nat_lt run.to pos) runs.now }
    ensures within { result ≤ length runs.now }
{
    runs.partition_point(|run| run.to < pos)
}

/// The positions from `at` on, below `limit`, as the infinite run has them.
fn stretch_of_tail(tail: Option<Run>, at: Pos, limit: Pos) -> Stretch
    requires sound { IfSome tail IsSound }
    requires some { at < limit }
    ensures stretch { IsStretch (tail_at tail) at result }
    ensures within { result.to ≤ limit }
{
    match tail {
        Some(run) if run.covers(at) => Stretch {
            place: Some(run.place_of(at)),
            to: run.to.min(limit),
        },
        Some(run) if at < run.pos => Stretch {
            place: None,
            to: run.pos.min(limit),
        },
        _ => Stretch {
            place: None,
            to: limit,
        },
    }
}

/// The positions from `at` on as far as they are alike. Takes as long as a search by halves of the runs.
pub(crate) fn stretch_at(runs: &[Run], tail: Option<Run>, at: Pos) -> Stretch
    requires ordered { AreOrdered 0 runs.now }
    requires sound { IfSome tail IsSound }
    requires within { at < 2 ^ 64 - 1 }
    ensures { IsStretch (place_by runs.now tail) at result }
{
    let index = ended_before(runs, at + 1);
    match runs.get(index) {
        Some(run) if run.pos <= at => Stretch {
            place: Some(run.place_of(at)),
            to: run.to,
        },
        Some(run) => stretch_of_tail(tail, at, run.pos),
        None => stretch_of_tail(tail, at, u64::MAX),
    }
}

/// The place of a position, where it has one. Takes as long as a search by halves of the runs.
pub(crate) fn place_at(runs: &[Run], tail: Option<Run>, pos: Pos) -> Option<u64>
    requires ordered { AreOrdered 0 runs.now }
    requires sound { IfSome tail IsSound }
    ensures { result ≡ place_by runs.now tail pos }
{
    if pos == u64::MAX {
        return None;
    }
    stretch_at(runs, tail, pos).place
}

/// The told run joined with the first ones of these, as long as it joins the next, and how many those are.
fn absorb(runs: &[Run], told: Run) -> (Run, usize)
    requires ordered { AreOrdered 0 runs.now }
    requires sound { IsSound told }
    ensures run { result.0 ≡ absorbed told runs.now }
    ensures count { result.1 ≡ count_joined told runs.now }
    ensures within { result.1 ≤ length runs.now }
{
    let mut joined = told;
    for (index, run) in runs.iter().enumerate() {
        if !joined.joins(*run) {
            return (joined, index);
        }
        joined = joined.joined(*run);
    }
    (joined, runs.len())
}

/// Puts the run in place of those from `from` on, below `to`. There is room for one more.
fn replace(runs: &mut Vec<Run>, from: usize, to: usize, run: Run)
    requires order { from ≤ to }
    requires within { to ≤ length runs.old.items }
    requires room { vec_len runs.old < vec_capacity runs.old }
    ensures items { runs.new.items ≡ take from runs.old.items ++ run ∷ drop to runs.old.items }
    ensures len { vec_len runs.new ≤ vec_len runs.old + 1 }
    ensures capacity { vec_capacity runs.old ≤ vec_capacity runs.new }
{
    if from == to {
        insert_within(runs, from, run);
        return;
    }
    runs[from] = run;
    runs.drain(from + 1..to);
}

/// Puts the run before the one at this index. There is room for it.
fn insert_within(runs: &mut Vec<Run>, index: usize, run: Run)
    requires index { index ≤ vec_len runs.old }
    requires room { vec_len runs.old < vec_capacity runs.old }
    ensures items { runs.new.items ≡ insert runs.old.items index run }
    ensures len { vec_len runs.new ≡ vec_len runs.old + 1 }
    ensures capacity { vec_capacity runs.old ≤ vec_capacity runs.new }
{
    match runs.insert(index, run) {
        Ok(()) => {}
        Err(_) => unreachable!(),
    }
}

/// How many of these runs lie before the told one and don't join it.
fn count_before(runs: &[Run], told: Run) -> usize
    requires ordered { AreOrdered 0 runs.now }
    requires sound { IsSound told }
    ensures value { result ≡ prefix_len (lies_before told) runs.now }
    ensures within { result ≤ length runs.now }
{
    let ended = ended_before(runs, told.pos);
    let Some(run) = runs.get(ended) else {
        return ended;
    };
    if run.lies_before(told) {
        ended + 1
    } else {
        ended
    }
}

/// Gives the positions of the told run, of which none has another place, their places. Takes a search by halves of the runs,
/// and as long as there are runs that become one with it or come after it. There is room for one more.
pub(crate) fn put_in(runs: &mut Vec<Run>, told: Run)
    requires ordered { AreOrdered 0 runs.old.items }
    requires fewest { AreApart runs.old.items }
    requires some { told.pos < told.to }
    requires sound { IsSound told }
    requires agree { AgreeAmong told runs.old.items }
    requires room { vec_len runs.old < vec_capacity runs.old }
    ensures places { places_of runs.new.items ≡ with_run told (places_of runs.old.items) }
    ensures ordered { AreOrdered 0 runs.new.items }
    ensures fewest { AreApart runs.new.items }
    ensures len { vec_len runs.new ≤ vec_len runs.old + 1 }
    ensures capacity { vec_capacity runs.old ≤ vec_capacity runs.new }
{
    let from = count_before(runs, told);
    let (run, count) = absorb(&runs[from..], told);
    replace(runs, from, from + count, run);
}
