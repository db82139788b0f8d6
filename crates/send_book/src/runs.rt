//! Questions about the runs of marks, and changes of them. Each takes as long as there are runs.
ghost use Rattle.std.specs.Prelude.{◌≡◌, ◌+◌, ◌^◌, ◌<◌, ◌≤◌, false, length, OnOk};
ghost use Rattle.range_marks.specs.Marks.{marks_len, followed_by};
ghost use Rattle.send_book.specs.Kept.{first_in, free_up_to, held_in, gathered_in, moved_in, moved, HasPath};

use crate::mark::ByteMark;
use range_marks::{Mark, RangeMarks, Runs};
use std::alloc::AllocError;

impl Mark for ByteMark {
    ghost use Rattle.send_book.specs.MarkEquality.{mark_exact};

    ghost exact = { mark_exact };
}

/// What is done to a mark.
#[derive(Clone, Copy)]
pub(crate) enum Move {
    /// The mark stays.
    Keep,
    /// The byte is given to this path.
    Give(u8),
    /// A path gives the byte back.
    TakeBack(u8),
}

impl Move {
    /// The mark after this.
    fn of(self, mark: ByteMark) -> ByteMark
        requires { HasPath self }
        ensures { result ≡ moved self mark }
    {
        match self {
            Move::Keep => mark,
            Move::Give(path) => mark.given(path),
            Move::TakeBack(path) => mark.returned(path),
        }
    }
}

/// The first byte that this path may take.
pub(crate) fn first_in(runs: Runs<'_, ByteMark>, path: u8) -> Option<u64>
    requires { path < 16 }
    ensures { result ≡ first_in path runs.entry }
{
    for run in runs {
        if run.mark.is_free_for(path) {
            return Some(run.from);
        }
    }
    None
}

/// The place up to which this path may take all bytes from `at` on.
pub(crate) fn free_up_to(runs: Runs<'_, ByteMark>, path: u8, at: u64) -> u64
    requires { path < 16 }
    ensures { result ≡ free_up_to path at runs.entry }
{
    let mut end = at;
    for run in runs {
        if end < run.to {
            if !run.mark.is_free_for(path) {
                return end;
            }
            end = run.to;
        }
    }
    end
}

/// How many bytes this path holds.
pub(crate) fn held_in(runs: Runs<'_, ByteMark>, path: u8) -> u64
    ensures { result ≡ held_in path 0 runs.entry }
{
    let mut count: u64 = 0;
    for run in runs {
        if run.mark.is_held_by(path) {
            count = count.saturating_add(run.to.saturating_sub(run.from));
        }
    }
    count
}

/// Whether the bytes that this path tried come first, and behind them those that no path tried.
pub(crate) fn gathered_in(runs: Runs<'_, ByteMark>, path: u8) -> bool
    requires { path < 16 }
    ensures { result ≡ gathered_in path false runs.entry }
{
    let mut behind = false;
    for run in runs {
        if run.mark.is_untouched() {
            behind = true;
        } else if behind || !run.mark.has_tried(path) {
            return false;
        }
    }
    true
}

/// Appends the marks of the places below `to`, from where the marks end, each moved.
pub(crate) fn append_moved(
    marks: &mut RangeMarks<ByteMark>,
    runs: Runs<'_, ByteMark>,
    to: u64,
    change: Move,
) -> Result<(), AllocError>
    requires path { HasPath change }
    requires below { to < 2 ^ 63 }
    requires begins { marks_len marks.old ≤ to }
    ensures { OnOk result (marks.new ≡
        followed_by (moved_in change (marks_len marks.old) to runs.entry) marks.old) }
{
    for run in runs {
        let end = run.to.min(to).max(marks.len());
        marks.extend(end - marks.len(), change.of(run.mark))?;
    }
    Ok(())
}
