ghost use Rattle.std.specs.Prelude.{◌≡◌, ◌≢◌, false, ◌+◌, ◌-◌, ◌^◌, ◌<◌, ◌≤◌, length, All, IfOk, OnOk, OnErr, IfSome, IsSome, IsNone, ◌++◌, ◌∷◌, [], find, filter, nat_lt};
ghost use Rattle.std.specs.Vec.{vec_len, vec_capacity};
ghost use Rattle.dss_mapping.specs.Runs.{covers, infinite_run, IsSound};
ghost use Rattle.dss_mapping.specs.Mappings.{run_of};
ghost use Rattle.dss_mapping.specs.declared.learn.Learn.TheVariants.{New};

use crate::kept::KeptMapping;
use crate::learn::Learn;
use crate::live::Live;
use crate::ordered::{place_at, put_in, stretch_at};
use crate::run::Run;
use crate::stretch::Stretch;
use seq_units::{Mapping, Pos};
use std::alloc::{AllocError, Global};
use std::marker::Model;

/// What a side learned of the mappings of one direction of a subflow. Contracts see which place each position has, by the
/// mappings and by the infinite one, the mappings that were not let go, the position below which they were, the mappings
/// that are held until they are treated, and for how many more there is room.
#[derive(Drop)]
pub struct Mappings {
    /// The positions that have a place by a mapping, in order. No two runs touch that have one distance between place and
    /// position, so that there are as few as can be.
    runs: Vec<Run>,
    /// The positions of the infinite mapping.
    tail: Option<Run>,
    /// The mappings that may be asked for, in the order in which they were learned.
    live: Live,
    /// Below this position no mapping is told.
    forgotten: Pos,
    /// The mappings that were told and are still to be treated, in order. There is room to learn each of them.
    held: Vec<KeptMapping>,
}

impl Model for Mappings {
    ghost use Rattle.dss_mapping.specs.Mappings.{MappingStore, store_code};

    ghost Value = { MappingStore };

    ghost coded = { store_code };

    ghost use Rattle.std.specs.Prelude.{◌+◌, ◌-◌, ◌≤◌, min, All};
    ghost use Rattle.std.specs.Vec.{vec_len, vec_capacity};
    ghost use Rattle.dss_mapping.specs.Kept.{places_of, ArePlaced, IsKept};
    ghost use Rattle.dss_mapping.specs.Learning.{IsWithin};

    ghost view = { λ m. record {
      mappings = record {
        places = places_of m.runs.items;
        tail = m.tail;
        live = m.live.kept;
        forgotten = m.forgotten;
        held = m.held.items;
      };
      ready = min (vec_capacity m.runs - vec_len m.runs) m.live.ready;
    } };

    ghost invariant = { λ m. IsKept m.runs.items m.tail
        × (vec_len m.runs + vec_len m.held ≤ vec_capacity m.runs)
        × (vec_len m.held ≤ m.live.ready)
        × All IsWithin m.held.items
        × ArePlaced m.runs.items m.live.kept };
}

impl Mappings {
    ghost use Rattle.dss_mapping.specs.Mappings.{no_mappings, place_at, Agree, IsAnswer, after_learn, after_infinite, mapping_at, after_forget};
    ghost use Rattle.dss_mapping.specs.Kept.{IsStretch};
    ghost use Rattle.dss_mapping.specs.Learning.{IsWithin, clash_of, answer_by, learn_of, first_held, held_clashes, after_hold, after_skip_held, after_learn_held, clashes, learned};

    /// No mapping, which takes no memory.
    pub fn new(alloc: Global) -> Self
        ensures { result.mappings ≡ no_mappings }
    {
        Mappings {
            runs: Vec::new(alloc),
            tail: None,
            live: Live::new(alloc),
            forgotten: 0,
            held: Vec::new(alloc),
        }
    }

    /// Learns that the positions from `pos` on, so many as the mapping's length, have the places from `place` on. Positions
    /// from 2^64 - 1 on are passed over. Where a position has another place already, the first such one is told; there,
    /// where all have these, and without memory, all stays as it was. A new one takes the room of one mapping at most.
    ///
    /// Positions whose places are known are kept as runs of one distance between place and position, in order. The call takes
    /// a search by halves of the runs for each run that the mapping meets. A new one moves the runs behind it.
    pub fn learn(&mut self, pos: Pos, place: u64, mapping: &Mapping) -> Result<Learn, AllocError>
        requires { place + mapping.now.length ≤ 2 ^ 62 }
        ensures value { IfOk result (λ answer. answer ≡
            learn_of (record { pos = pos; place = place; mapping = mapping.now; fin = false })
            self.old.mappings) }
        ensures answer { IfOk result (λ answer.
            IsAnswer
            (run_of (record { pos = pos; place = place; mapping = mapping.now; fin = false }))
            self.old.mappings answer) }
        ensures after { IfOk result (λ answer. self.new.mappings ≡
            after_learn (record { pos = pos; place = place; mapping = mapping.now; fin = false })
            answer self.old.mappings) }
        ensures ready { self.old.ready ≤ self.new.ready + 1 }
        ensures err { OnErr result (self.new.mappings ≡ self.old.mappings) }
    {
        let kept = KeptMapping {
            pos,
            place,
            mapping: *mapping,
            fin: false,
        };
        let answer = self.answer(kept.run());
        if let Learn::New = answer {
            let room = self.held.len() + 1;
            self.make_ready(room)?;
            self.keep(kept);
        }
        Ok(answer)
    }

    /// Makes room for so many mappings more. The mappings stay, also where there is no memory for them.
    pub fn make_ready(&mut self, count: usize) -> Result<(), AllocError>
        ensures ok { OnOk result (count ≤ self.new.ready) }
        ensures more { self.old.ready ≤ self.new.ready }
        ensures mappings { self.new.mappings ≡ self.old.mappings }
    {
        self.runs.reserve(count)?;
        self.live.reserve(count)
    }

    /// Holds these mappings, until they are treated one after the other. Those that were held before are let go. Takes no
    /// memory.
    pub fn hold(&mut self, told: Vec<KeptMapping>)
        requires room { length told.items ≤ self.old.ready }
        requires within { All IsWithin told.items }
        ensures { self.new ≡
            record self.old { mappings = after_hold told.items self.old.mappings } }
    {
        self.held = told;
    }

    /// The first of the mappings that are held. Its places are at most 2^62.
    pub fn first_held(&self) -> Option<KeptMapping>
        ensures value { result ≡ first_held self.now.mappings }
        ensures within { IfSome result IsWithin }
    {
        self.held.first().copied()
    }

    /// Whether the first of the mappings that are held gives a position another place than it has.
    pub fn held_clashes(&self) -> bool
        ensures { result ≡ held_clashes self.now.mappings }
    {
        match self.first_held() {
            Some(kept) => self.clashes(kept),
            None => false,
        }
    }

    /// Learns the first of the mappings that are held, as [`learn`](Mappings::learn) does, and holds it no longer. Takes no
    /// memory, and the room of one mapping at most; where none is held, nothing changes.
    pub fn learn_held(&mut self)
        ensures mappings { self.new.mappings ≡ after_learn_held self.old.mappings }
        ensures ready { self.old.ready ≤ self.new.ready + 1 }
        ensures none { self.old.mappings.held ≡ [] → self.new ≡ self.old }
    {
        if let Some(kept) = self.take_first() {
            self.learn_kept(kept);
        }
    }

    /// Holds the first of the mappings that are held no longer, and there is as much room as before. Takes no memory; where
    /// none is held, nothing changes.
    pub fn skip_held(&mut self)
        ensures mappings { self.new.mappings ≡ after_skip_held self.old.mappings }
        ensures ready { self.new.ready ≡ self.old.ready }
    {
        self.take_first();
    }

    /// Learns that every position from `pos` on has its place, counted from `place`: the infinite mapping (RFC 8684,
    /// section 3.7). Positions and places from 2^64 - 1 on are passed over. A new one takes the place of the one before it.
    /// Takes no memory, and a search by halves of the runs for each run from `pos` on.
    pub fn infinite(&mut self, pos: Pos, place: u64) -> Learn
        requires { place ≤ 2 ^ 62 }
        ensures answer { IsAnswer (infinite_run pos place) self.old.mappings result }
        ensures after { self.new ≡
            record self.old { mappings = after_infinite pos place result self.old.mappings } }
    {
        let told = Run::infinite(pos, place);
        let answer = self.answer(told);
        if let Learn::New = answer {
            self.tail = Some(told);
        }
        answer
    }

    /// The place of a position, by the mappings and the infinite one. Takes a search by halves of the runs.
    pub fn place_of(&self, pos: Pos) -> Option<u64>
        ensures { result ≡ place_at self.now.mappings pos }
    {
        place_at(self.runs.as_slice(), self.tail, pos)
    }

    /// The mapping learned first of those that cover the position. `None` below the position up to which they were let go,
    /// and where none covers it. Takes a search by halves of the runs, and where the position has a place as long as there are
    /// mappings before the one that covers it.
    pub fn mapping_at(&self, pos: Pos) -> Option<KeptMapping>
        ensures { result ≡ mapping_at self.now.mappings pos }
    {
        if pos < self.forgotten {
            return None;
        }
        match self.place_of(pos) {
            Some(_) => self.live.first_at(pos),
            None => None,
        }
    }

    /// Lets go of the mappings that lie below this position, and tells none below it from now on. The places of positions
    /// stay. Takes no memory, and as long as there are mappings that are let go, and some that were learned after one that ended behind
    /// them.
    pub fn forget_below(&mut self, pos: Pos)
        ensures mappings { self.new.mappings ≡ after_forget pos self.old.mappings }
        ensures ready { self.old.ready ≤ self.new.ready }
    {
        self.live.forget_below(pos);
        self.forgotten = self.forgotten.max(pos);
    }

    /// The positions from `at` on as far as they are alike.
    fn stretch_at(&self, at: Pos) -> Stretch
        requires { at < 2 ^ 64 - 1 }
        ensures { IsStretch (place_at self.now.mappings) at result }
    {
        stretch_at(self.runs.as_slice(), self.tail, at)
    }

    /// What is answered where this run is told.
    fn answer(&self, told: Run) -> Learn
        requires { IsSound told }
        ensures answer { IsAnswer told self.now.mappings result }
        ensures value { result ≡
            answer_by (clash_of told self.now.mappings) told self.now.mappings }
    {
        // For the proof: what is answered by the rule is one value.
        self.first_answer(told)
    }

    /// The first clash, or else whether all positions of the run have their places.
    fn first_answer(&self, told: Run) -> Learn
        requires { IsSound told }
        ensures { IsAnswer told self.now.mappings result }
    {
        let mut at = told.pos;
        let mut is_new = false;
        while at < told.to {
            let stretch = self.stretch_at(at);
            let here = told.place_of(at);
            if let Some(kept) = other_place(stretch.place, here) {
                return Learn::Clash {
                    pos: at,
                    kept,
                    told: here,
                };
            }
            is_new |= stretch.place.is_none();
            at = stretch.to;
        }
        if is_new { Learn::New } else { Learn::Same }
    }

    /// Whether a position of this mapping has another place.
    fn clashes(&self, kept: KeptMapping) -> bool
        requires { IsWithin kept }
        ensures { result ≡ clashes kept self.now.mappings }
    {
        matches!(self.answer(kept.run()), Learn::Clash { .. })
    }

    /// The first of the mappings that are held, which is held no longer.
    fn take_first(&mut self) -> Option<KeptMapping>
        ensures value { result ≡ first_held self.old.mappings }
        ensures after { self.new.mappings ≡ after_skip_held self.old.mappings }
        ensures ready { self.new.ready ≡ self.old.ready }
        ensures within { IfSome result IsWithin }
        ensures room { IsSome result → length self.new.mappings.held < self.new.ready }
    {
        if self.held.is_empty() {
            return None;
        }
        Some(self.held.remove(0))
    }

    /// Learns a mapping for which there is room.
    fn learn_kept(&mut self, kept: KeptMapping)
        requires within { IsWithin kept }
        requires room { length self.old.mappings.held < self.old.ready }
        ensures mappings { self.new.mappings ≡ learned kept self.old.mappings }
        ensures ready { self.old.ready ≤ self.new.ready + 1 }
    {
        match self.answer(kept.run()) {
            Learn::New => self.keep(kept),
            Learn::Same | Learn::Clash { .. } => {}
        }
    }

    /// Keeps the mapping as the last one. There is room for it.
    fn keep(&mut self, kept: KeptMapping)
        requires some { (run_of kept).pos < (run_of kept).to }
        requires sound { IsSound (run_of kept) }
        requires agree { Agree (run_of kept) (run_of kept).to self.old.mappings }
        requires room { length self.old.mappings.held < self.old.ready }
        ensures mappings { self.new.mappings ≡ after_learn kept New self.old.mappings }
        ensures ready { self.old.ready ≤ self.new.ready + 1 }
    {
        self.live.push(kept);
        put_in(&mut self.runs, kept.run());
    }
}

/// The place, if there is one, and it isn't this one.
fn other_place(place: Option<u64>, here: u64) -> Option<u64>
    ensures other { IfSome result (λ kept. (place ≡ Some kept) × (kept ≢ here)) }
    ensures same { IsNone result → IfSome place (λ kept. kept ≡ here) }
{
    place.filter(|kept| *kept != here)
}
