//! Of each place the octet that was held first.

ghost use Rattle.std.specs.Prelude.{◌≡◌, ◌≢◌, ℕ, ◌+◌, ◌-◌, ◌^◌, ◌<◌, ◌≤◌, false, None, length, OnOk};
ghost use Rattle.std.specs.Option.{option_or};
ghost use Rattle.first_runs.specs.Runs.{Fits, told_at, told_by};
ghost use Rattle.seen_octets.specs.Octets.{all_held, has_place, octet_at, octet_by, IsPiece};
ghost use Rattle.seen_octets.specs.Others.{first_other, other_by};

use crate::octet::{Octet, OtherOctet, first_difference};
use first_runs::{FirstRuns, Run};
use std::alloc::{AllocError, Global};
use std::marker::Model;

/// Of each place the octet that was held first, if one was, and who told it. Contracts see the octets that are kept, and the runs of
/// places that have them: `octet_at` says what a place has.
#[derive(Drop)]
pub struct SeenOctets {
    octets: Vec<u8>,
    runs: FirstRuns,
}

impl Model for SeenOctets {
    ghost use Rattle.seen_octets.specs.Octets.{Kept, AreThere};

    ghost Value = { Kept };

    ghost view = { λ s. record { octets = s.octets.items; runs = s.runs } };

    ghost invariant = { λ s. AreThere s.octets.items s.runs };
}

impl SeenOctets {
    ghost use Rattle.std.specs.Prelude.{[]};

    /// No place has an octet.
    pub fn new(alloc: Global) -> Self
        ensures { result ≡ record { octets = []; runs = [] } }
    {
        SeenOctets {
            octets: Vec::new(alloc),
            runs: FirstRuns::new(alloc),
        }
    }

    /// Gives octets to places from one on that have none.
    ///
    /// # Errors
    ///
    /// Want of memory. Some of the places have theirs then, and all others what they had.
    pub fn fill(&mut self, from: u64, part: &[u8], teller: u32) -> Result<(), AllocError>
        requires { from + length part.now < 2 ^ 64 }
        ensures filled { OnOk result ((p : ℕ) → octet_at self.new p ≡
            option_or (octet_at self.old p) (octet_by from part.now teller p)) }
        ensures others { (p : ℕ) → has_place from part.now p ≡ false → octet_at self.new p ≡
            octet_at self.old p }
    {
        if self.is_whole(from, from + part.len() as u64) {
            return Ok(());
        }
        self.add(from, part, teller)
    }

    // Fills the places that have no octet, whether there are any or not.
    fn add(&mut self, from: u64, part: &[u8], teller: u32) -> Result<(), AllocError>
        requires { from + length part.now < 2 ^ 64 }
        ensures filled { OnOk result ((p : ℕ) → octet_at self.new p ≡
            option_or (octet_at self.old p) (octet_by from part.now teller p)) }
        ensures others { (p : ℕ) → has_place from part.now p ≡ false → octet_at self.new p ≡
            octet_at self.old p }
    {
        let image = self.octets.len() as u64;
        self.octets.extend_from_slice(part)?;
        self.runs.fill(Run {
            from,
            to: from + part.len() as u64,
            image,
            teller,
        })
    }

    /// The octet of a place, if one was held.
    pub fn octet(&self, place: u64) -> Option<Octet>
        ensures { result ≡ octet_at self.now place }
    {
        let run = self.runs.run_at(place)?;
        Some(Octet {
            octet: self.octets[run.image_at(place) as usize],
            teller: run.teller,
        })
    }

    /// Whether all places from one on, below another, have octets.
    pub fn is_whole(&self, from: u64, to: u64) -> bool
        ensures { result ≡ all_held (octet_at self.now) from (to - from) }
    {
        self.runs.first_gap(from, to).is_none()
    }

    /// The octets of places from one on, below another, as far as one run has them. There are none where the first place has none.
    pub fn piece(&self, from: u64, to: u64) -> &[u8]
        requires { from < to }
        ensures within { length result.now ≤ to - from }
        ensures held { IsPiece (octet_at self.now) from result.now }
        ensures none { length result.now ≡ 0 → octet_at self.now from ≡ None }
    {
        match self.runs.run_at(from) {
            Some(run) => self.part(&run, from, run.to.min(to)),
            None => &[],
        }
    }

    // The octets of the places of a run from one of them on, below another.
    fn part(&self, run: &Run, from: u64, to: u64) -> &[u8]
        requires begun { run.now.from ≤ from }
        requires some { from < to }
        requires within { to ≤ run.now.to }
        requires fits { Fits run.now }
        requires alone { (p : ℕ) → from ≤ p → p < run.now.to → told_at self.now.runs p ≡
            told_by run.now p }
        ensures len { length result.now ≡ to - from }
        ensures held { IsPiece (octet_at self.now) from result.now }
    {
        let begin = run.image_at(from) as usize;
        &self.octets[begin..begin + (to - from) as usize]
    }

    /// The end of the places from one on, below another, none of which has an octet.
    pub fn gap_end(&self, from: u64, to: u64) -> u64
        requires { from ≤ to }
        ensures begun { from ≤ result }
        ensures within { result ≤ to }
        ensures free { (p : ℕ) → from ≤ p → p < result → octet_at self.now p ≡ None }
        ensures most { result < to → octet_at self.now result ≢ None }
    {
        match self.runs.first_behind(from) {
            Some(run) => run.from.max(from).min(to),
            None => to,
        }
    }

    /// The first of the places from one on that has another octet than these.
    pub fn first_other(&self, from: u64, part: &[u8]) -> Option<OtherOctet>
        requires { from + length part.now < 2 ^ 64 }
        ensures { result ≡ first_other (octet_at self.now) from part.now }
    {
        let to = from + part.len() as u64;
        let mut place = from;
        while place < to {
            let piece = self.piece(place, to);
            let rest = &part[(place - from) as usize..];
            if let Some(index) = first_difference(piece, rest) {
                return self.other(place + index as u64, rest[index]);
            }
            place = self.gap_end(place + piece.len() as u64, to);
        }
        None
    }

    // A place beside an octet that is told of it.
    fn other(&self, place: u64, octet: u8) -> Option<OtherOctet>
        ensures { result ≡ other_by (octet_at self.now place) place octet }
    {
        let was = self.octet(place)?;
        if was.octet == octet {
            return None;
        }
        Some(OtherOctet {
            place,
            was: was.octet,
            teller: was.teller,
            is: octet,
        })
    }
}
