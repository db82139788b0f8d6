ghost use Rattle.std.specs.Prelude.{◌≡◌, ◌≢◌, ℕ, ◌==◌, ◌+◌, ◌-◌, ◌++◌, take, drop, max, min, ◌^◌, ◌<◌, ◌≤◌, ◌↔◌, ◌⊎◌, [], OnOk, OnErr, IfOk, IfSome, IfNone, IsNone};
ghost use Rattle.range_marks.specs.Marks.{marks_len};

use crate::kept::{append, cut_runs, drop_runs, ended_by};
use crate::mark::Mark;
use crate::run::{Run, Runs};
use std::alloc::{AllocError, Global};
use std::marker::Model;

/// One mark for each place from 0 on, of which the first ones may be forgotten. Contracts see how many places are
/// forgotten, and the list of the marks of all others. Places are counted from 0, forgotten ones included, and there
/// are fewer than 2^63 of them.
#[derive(Drop)]
pub struct RangeMarks<M> {
    alloc: Global,
    /// How many places are forgotten.
    forgotten: u64,
    /// How many places there are, forgotten ones included.
    len: u64,
    /// The places from `forgotten` on in runs, as few as can be: no run is empty, and neighbours have different marks.
    runs: Vec<Run<M>>,
}

impl<M> Model for RangeMarks<M> {
    ghost use Rattle.range_marks.specs.Marks.{Marks};

    ghost Value = { Marks M };

    ghost use Rattle.std.specs.Prelude.{◌^◌, ◌<◌};
    ghost use Rattle.range_marks.specs.Runs.{marks_of, AreKept};

    ghost view = { λ r. record { forgotten = r.forgotten; marks = marks_of r.runs.items } };

    ghost invariant = { λ r. AreKept r.forgotten r.len r.runs.items };
}

impl<M: Mark> RangeMarks<M> {
    ghost use Rattle.range_marks.specs.Marks.{no_marks, after_extend, after_mark, after_drop_front, after_cut_back, followed_by, part, mark_at, IsRunAt, IsFirstWhere};
    ghost use Rattle.range_marks.specs.Runs.{AreRunsOf};

    /// Marks of no place, which take no memory.
    pub fn new(alloc: Global) -> Self
        ensures { result ≡ no_marks }
    {
        RangeMarks {
            alloc,
            forgotten: 0,
            len: 0,
            runs: Vec::new(alloc),
        }
    }

    /// How many places there are, forgotten ones included: the place that the next `extend` marks first.
    pub fn len(&self) -> u64
        ensures value { result ≡ marks_len self.now }
        ensures bound { result < 2 ^ 63 }
    {
        self.len
    }

    /// Whether there is no place, not even a forgotten one.
    pub fn is_empty(&self) -> bool
        ensures { result ≡ (marks_len self.now == 0) }
    {
        self.len() == 0
    }

    /// How many places are forgotten: the first place that has a mark, where there is one.
    pub fn forgotten(&self) -> u64
        ensures value { result ≡ self.now.forgotten }
        ensures within { result ≤ marks_len self.now }
    {
        self.forgotten
    }

    /// Appends `count` places with this mark. Without memory for it all is as it was.
    pub fn extend(&mut self, count: u64, mark: M) -> Result<(), AllocError>
        requires { marks_len self.old + count < 2 ^ 63 }
        ensures ok { OnOk result (self.new ≡ after_extend count mark self.old) }
        ensures err { OnErr result (self.new ≡ self.old) }
    {
        let run = Run {
            from: self.len,
            to: self.len + count,
            mark,
        };
        append(&mut self.runs, run)?;
        self.len += count;
        Ok(())
    }

    /// Marks each place from `from` on and below `to`, except forgotten ones, which stay forgotten. Without memory for
    /// it all is as it was.
    pub fn mark(&mut self, from: u64, to: u64, mark: M) -> Result<(), AllocError>
        requires order { from ≤ to }
        requires within { to ≤ marks_len self.old }
        ensures ok { OnOk result (self.new ≡ after_mark from to mark self.old) }
        ensures err { OnErr result (self.new ≡ self.old) }
    {
        let from = from.max(self.forgotten());
        if from < to {
            *self = self.marked(from, to, mark)?;
        }
        Ok(())
    }

    /// Marks of no place but so many forgotten ones, with memory for so many runs.
    fn all_forgotten(alloc: Global, forgotten: u64, capacity: usize) -> Result<Self, AllocError>
        requires { forgotten < 2 ^ 63 }
        ensures { IfOk result (λ marks. marks ≡ record { forgotten = forgotten; marks = [] }) }
    {
        Ok(RangeMarks {
            alloc,
            forgotten,
            len: forgotten,
            runs: Vec::with_capacity(alloc, capacity)?,
        })
    }

    /// The marks with this one at the places from `from` on and below `to`.
    fn marked(&self, from: u64, to: u64, mark: M) -> Result<Self, AllocError>
        requires kept { self.now.forgotten ≤ from }
        requires order { from < to }
        requires within { to ≤ marks_len self.now }
        ensures { IfOk result (λ marks. marks ≡ after_mark from to mark self.now) }
    {
        let mut marked = Self::all_forgotten(self.alloc, self.forgotten(), self.runs.len() + 2)?;
        marked.extend_from(self, from)?;
        marked.extend(to - from, mark)?;
        marked.extend_from(self, self.len())?;
        Ok(marked)
    }

    /// Appends the marks of the places of `other` from where these end up to `to`.
    fn extend_from(&mut self, other: &Self, to: u64) -> Result<(), AllocError>
        requires begins { other.now.forgotten ≤ marks_len self.old }
        requires order { marks_len self.old ≤ to }
        requires within { to ≤ marks_len other.now }
        ensures { OnOk result (self.new ≡
            followed_by (part (marks_len self.old) to other.now) self.old) }
    {
        for run in &other.runs {
            let end = run.to.min(to).max(self.len());
            self.extend(end - self.len(), run.mark)?;
        }
        Ok(())
    }

    /// The mark of the place `at` and the end of its run: the greatest place up to which every place from `at` on has
    /// that mark. `None` exactly where the place is forgotten or past the last one.
    pub fn run_at(&self, at: u64) -> Option<(u64, M)>
        ensures run { IfSome result (λ run. IsRunAt self.now at run.0 run.1) }
        ensures none { IsNone result ↔ ((at < self.now.forgotten) ⊎ (marks_len self.now ≤ at)) }
    {
        if at < self.forgotten || self.len <= at {
            return None;
        }
        let index = ended_by(&self.runs, at);
        let run = self.runs[index];
        Some((run.to, run.mark))
    }

    /// The first place at or after `from` that has this mark. `None` where there is none.
    pub fn first_where(&self, from: u64, test: &M) -> Option<u64>
        ensures found { IfSome result (λ place. IsFirstWhere self.now from test.now place) }
        ensures none { IfNone result ((place : ℕ) → from ≤ place →
            mark_at self.now place ≢ Some test.now) }
    {
        for run in &self.runs {
            if from < run.to && run.mark == *test {
                return Some(run.from.max(from));
            }
        }
        None
    }

    /// Forgets the marks of all places below `to`. Takes no memory.
    pub fn drop_front(&mut self, to: u64)
        requires { to ≤ marks_len self.old }
        ensures { self.new ≡ after_drop_front to self.old }
    {
        drop_runs(&mut self.runs, to);
        self.forgotten = self.forgotten.max(to);
    }

    /// Takes away every place at or past `to`, so that the next `extend` goes on there. Where there is none it changes
    /// nothing. Takes no memory.
    pub fn cut_back(&mut self, to: u64)
        requires { self.old.forgotten ≤ to }
        ensures { self.new ≡ after_cut_back to self.old }
    {
        cut_runs(&mut self.runs, to);
        self.len = self.len.min(to);
    }

    /// The runs of all places that aren't forgotten, in order: side by side, and no two neighbours with the same mark.
    pub fn runs(&self) -> Runs<'_, M>
        ensures { AreRunsOf self.now result }
    {
        Runs::of(self.runs.as_slice())
    }
}
