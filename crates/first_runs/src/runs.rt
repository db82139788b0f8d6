//! Of each place the first image.

ghost use Rattle.std.specs.Prelude.{◌≡◌, ◌≢◌, ℕ, ◌-◌, ◌<◌, ◌≤◌, None, IfSome, IfNone, IfOk, OnOk, OnErr};
ghost use Rattle.std.specs.Option.{option_or};
ghost use Rattle.first_runs.specs.Runs.{told_at, told_by, missing, cut_to, Fits, IsFilledBelow, IsFirstBehind, IsGap};

use crate::kept::{first_behind, put};
use crate::run::Run;
use std::alloc::{AllocError, Global};
use std::marker::Model;

/// Of each place the image that was told first, if any was, and who told it. Contracts see the runs that are kept, which are in
/// order and apart: `told_at` says what they tell of a place.
#[derive(Drop)]
pub struct FirstRuns {
    runs: Vec<Run>,
}

impl Model for FirstRuns {
    ghost use Rattle.std.specs.Prelude.{List};
    ghost use Rattle.first_runs.specs.declared.run.Run.{Run};
    ghost use Rattle.first_runs.specs.Runs.{AreInOrder};

    ghost Value = { List Run };

    ghost view = { λ told. told.runs.items };

    ghost invariant = { λ told. AreInOrder 0 told.runs.items };
}

impl FirstRuns {
    ghost use Rattle.std.specs.Prelude.{[]};

    /// No place has an image.
    pub fn new(alloc: Global) -> Self
        ensures { result ≡ [] }
    {
        FirstRuns {
            runs: Vec::new(alloc),
        }
    }

    /// The runs, in order and apart.
    pub fn runs(&self) -> &[Run]
        ensures { result.now ≡ self.now }
    {
        &self.runs
    }

    /// The first run that ends behind a place: the one that has it, where one does. Takes as long as a search by halves.
    pub fn first_behind(&self, place: u64) -> Option<Run>
        ensures some { IfSome result (λ run. IsFirstBehind self.now place run) }
        ensures none { IfNone result ((p : ℕ) → place ≤ p → told_at self.now p ≡ None) }
    {
        first_behind(&self.runs, place)
    }

    /// The run that has a place.
    pub fn run_at(&self, place: u64) -> Option<Run>
        ensures some { IfSome result (λ run. IsFirstBehind self.now place run) }
        ensures has { IfSome result (λ run. run.from ≤ place) }
        ensures none { IfNone result (told_at self.now place ≡ None) }
    {
        match self.first_behind(place) {
            Some(run) if run.from <= place => Some(run),
            _ => None,
        }
    }

    /// The first places of a range that have no image, as many as follow one another.
    pub fn first_gap(&self, from: u64, to: u64) -> Option<(u64, u64)>
        ensures some { IfSome result (λ gap. IsGap self.now from to gap.0 gap.1) }
        ensures none { IfNone result ((p : ℕ) → from ≤ p → p < to → told_at self.now p ≢ None) }
    {
        let mut begin = from;
        while begin < to {
            match self.first_behind(begin) {
                Some(run) if run.from <= begin => begin = run.to,
                Some(run) => return Some((begin, run.from.min(to))),
                None => return Some((begin, to)),
            }
        }
        None
    }

    /// How many places of a range have no image.
    pub fn count_missing(&self, from: u64, to: u64) -> u64
        ensures { result ≡ missing self.now from (to - from) }
    {
        let mut count = 0;
        let mut place = from;
        while place < to {
            let Some((begin, end)) = self.first_gap(place, to) else {
                return count;
            };
            count += end - begin;
            place = end;
        }
        count
    }

    /// Gives the places of a run that have no image their images.
    ///
    /// # Errors
    ///
    /// Want of memory, and then the places of the run below one of them have their images.
    pub fn fill(&mut self, run: Run) -> Result<(), AllocError>
        requires { Fits run }
        ensures ok { OnOk result ((p : ℕ) → told_at self.new p ≡
            option_or (told_at self.old p) (told_by run p)) }
        ensures err { OnErr result (IsFilledBelow run self.old self.new) }
    {
        let mut place = run.from;
        while place < run.to {
            place = self.fill_gap(&run, place)?;
        }
        Ok(())
    }

    // Gives places from one of the run on their images, up to the end of the first gap. Answers the place behind it.
    fn fill_gap(&mut self, run: &Run, place: u64) -> Result<u64, AllocError>
        requires begun { run.now.from ≤ place }
        requires within { place < run.now.to }
        requires fits { Fits run.now }
        ensures further { IfOk result (λ end. place < end) }
        ensures within { IfOk result (λ end. end ≤ run.now.to) }
        ensures told { IfOk result (λ end. (p : ℕ) → told_at self.new p
            ≡ option_or (told_at self.old p) (told_by (cut_to place end run.now) p)) }
        ensures err { OnErr result (self.new ≡ self.old) }
    {
        match self.first_gap(place, run.to) {
            Some((begin, end)) => {
                self.put(run.within(begin, end))?;
                Ok(end)
            }
            None => Ok(run.to),
        }
    }

    /// Adds a run none of whose places has an image.
    ///
    /// # Errors
    ///
    /// Want of memory, and then nothing was added.
    pub fn put(&mut self, run: Run) -> Result<(), AllocError>
        requires some { run.from < run.to }
        requires fits { Fits run }
        requires free { (p : ℕ) → run.from ≤ p → p < run.to → told_at self.old p ≡ None }
        ensures ok { OnOk result ((p : ℕ) → told_at self.new p ≡
            option_or (told_at self.old p) (told_by run p)) }
        ensures err { OnErr result (self.new ≡ self.old) }
    {
        put(&mut self.runs, run)
    }
}
