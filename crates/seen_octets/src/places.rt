//! Which places were seen.

ghost use Rattle.std.specs.Prelude.{◌≡◌, ℕ, ◌-◌, ◌^◌, ◌<◌, ◌≤◌, ◌&&◌, ◌||◌, [], true, nat_le, nat_lt, OnOk};
ghost use Rattle.seen_octets.specs.Places.{is_seen, whole, IsStretch};

use first_runs::{FirstRuns, Run};
use std::alloc::{AllocError, Global};
use std::marker::Model;

/// Places from one on, up to `end`, which is none of them: all are marked, or none is.
#[derive(Clone, Copy)]
pub struct Stretch {
    pub end: u64,
    pub marked: bool,
}

/// Which places were seen. Contracts see the runs of these: `is_seen` says whether a place was.
#[derive(Drop)]
pub struct SeenPlaces {
    runs: FirstRuns,
    // The end of what was seen without a hole from this place on.
    from: u64,
    end: u64,
}

impl Model for SeenPlaces {
    ghost use Rattle.std.specs.Prelude.{◌≡◌, ◌^◌, ◌≤◌, List};
    ghost use Rattle.first_runs.specs.declared.run.Run.{Run};
    ghost use Rattle.seen_octets.specs.Places.{is_seen, whole};

    ghost Value = { List Run };

    ghost view = { λ s. s.runs };

    ghost invariant = { λ s. (s.from ≤ 2 ^ 62) × (s.end ≡ whole (is_seen s.runs) s.from) };
}

impl SeenPlaces {
    /// No place was seen. From this one on `whole` is told at once.
    pub fn new(alloc: Global, from: u64) -> Self
        requires { from ≤ 2 ^ 62 }
        ensures { result ≡ [] }
    {
        SeenPlaces {
            runs: FirstRuns::new(alloc),
            from,
            end: from,
        }
    }

    /// The runs of places that were seen.
    pub fn runs(&self) -> &[Run]
        ensures { result.now ≡ self.now }
    {
        self.runs.runs()
    }

    /// The end of the places that were seen without a hole from one on, below 2^62.
    pub fn whole(&self, from: u64) -> u64
        requires { from ≤ 2 ^ 62 }
        ensures value { result ≡ whole (is_seen self.now) from }
        ensures few { result ≤ 2 ^ 62 }
    {
        if self.from == from {
            self.end
        } else {
            end_from(&self.runs, from)
        }
    }

    /// Whether a place was seen.
    pub fn has(&self, place: u64) -> bool
        ensures { result ≡ is_seen self.now place }
    {
        self.runs.run_at(place).is_some()
    }

    /// The places from one on, below another, are seen.
    ///
    /// # Errors
    ///
    /// Want of memory. Some of them are seen then.
    pub fn add(&mut self, from: u64, to: u64) -> Result<(), AllocError>
        ensures ok { OnOk result ((p : ℕ) → is_seen self.new p ≡
            (is_seen self.old p || (nat_le from p && nat_lt p to))) }
        ensures stays { (p : ℕ) → is_seen self.old p ≡ true → is_seen self.new p ≡ true }
    {
        let added = self.runs.fill(Run {
            from,
            to,
            image: 0,
            teller: 0,
        });
        self.end = end_from(&self.runs, self.end);
        added
    }

    /// The places from one on, below another, that were all seen or all not, as many as are told at once.
    pub fn stretch(&self, from: u64, to: u64) -> Stretch
        requires { from < to }
        ensures { IsStretch (is_seen self.now) from to result }
    {
        match self.runs.first_behind(from) {
            Some(run) if run.from <= from => Stretch {
                end: run.to.min(to),
                marked: true,
            },
            Some(run) => Stretch {
                end: run.from.min(to),
                marked: false,
            },
            None => Stretch {
                end: to,
                marked: false,
            },
        }
    }
}

// The first place from one on that wasn't seen, up to 2^62.
fn end_from(runs: &FirstRuns, place: u64) -> u64
    requires { place ≤ 2 ^ 62 }
    ensures { result ≡ whole (is_seen runs.now) place }
{
    match runs.first_gap(place, 1 << 62) {
        Some((begin, _)) => begin,
        None => 1 << 62,
    }
}
