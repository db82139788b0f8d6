//! The mappings that may be asked for.

ghost use Rattle.std.specs.Prelude.{◌≡◌, ◌+◌, ◌<◌, ◌≤◌, ◌++◌, ◌∷◌, [], true, OnOk, find, filter, nat_lt};
ghost use Rattle.std.specs.List.Sorted.{IsNonDecreasingBy};
ghost use Rattle.std.specs.VecDeque.{deque_len, deque_capacity};
ghost use Rattle.std.specs.Vec.{vec_len, vec_capacity};
ghost use Rattle.dss_mapping.specs.Live.{end_of, ends_after};
ghost use Rattle.dss_mapping.specs.Mappings.{run_of};
ghost use Rattle.dss_mapping.specs.Runs.{covers};

use crate::kept::KeptMapping;
use seq_units::Pos;
use std::alloc::{AllocError, Global};
use std::collections::VecDeque;
use std::marker::Model;

/// Mappings in the order in which they were learned. Contracts see their list, and for how many more there is room.
#[derive(Drop)]
pub(crate) struct Live {
    /// The first ones, of which none ends before one that stands before it.
    rising: VecDeque<KeptMapping>,
    /// Those behind them: none, until one ended before the last of these.
    later: Vec<KeptMapping>,
}

impl Model for Live {
    ghost use Rattle.std.specs.Prelude.{◌-◌, ◌++◌, min};
    ghost use Rattle.std.specs.List.Sorted.{IsNonDecreasingBy};
    ghost use Rattle.std.specs.VecDeque.{deque_len, deque_capacity};
    ghost use Rattle.std.specs.Vec.{vec_len, vec_capacity};
    ghost use Rattle.dss_mapping.specs.Live.{LiveMappings, end_of};

    ghost Value = { LiveMappings };

    ghost view = { λ l. record {
      kept = l.rising.items ++ l.later.items;
      ready = min (deque_capacity l.rising - deque_len l.rising)
          (vec_capacity l.later - vec_len l.later);
    } };

    ghost invariant = { λ l. IsNonDecreasingBy end_of l.rising.items };
}

/// Whether a mapping doesn't end before any of these.
fn ends_last(rising: &VecDeque<KeptMapping>, kept: KeptMapping) -> bool
    requires { IsNonDecreasingBy end_of rising.now.items }
    ensures { result ≡ true → IsNonDecreasingBy end_of (rising.now.items ++ kept ∷ []) }
{
    match rising.back() {
        Some(last) => last.run().to <= kept.run().to,
        None => true,
    }
}

/// The first of these mappings that covers the position.
fn first_of(rising: &VecDeque<KeptMapping>, pos: Pos) -> Option<KeptMapping>
    ensures { result ≡ find (λ kept. covers pos (run_of kept)) rising.now.items }
{
    rising.iter().copied().find(|kept| kept.covers(pos))
}

/// The first of these mappings that covers the position.
fn first_later(later: &[KeptMapping], pos: Pos) -> Option<KeptMapping>
    ensures { result ≡ find (λ kept. covers pos (run_of kept)) later.now }
{
    later.iter().copied().find(|kept| kept.covers(pos))
}

/// Lets go of the mappings that lie below the position.
fn let_first_go(rising: &mut VecDeque<KeptMapping>, pos: Pos)
    requires { IsNonDecreasingBy end_of rising.old.items }
    ensures items { rising.new.items ≡ filter (ends_after pos) rising.old.items }
    ensures len { deque_len rising.new ≤ deque_len rising.old }
    ensures capacity { deque_capacity rising.new ≡ deque_capacity rising.old }
{
    while let Some(first) = rising.front() {
        if first.ends_after(pos) {
            return;
        }
        rising.pop_front();
    }
}

/// Lets go of the mappings that lie below the position.
fn let_go(later: &mut Vec<KeptMapping>, pos: Pos)
    ensures items { later.new.items ≡ filter (ends_after pos) later.old.items }
    ensures len { vec_len later.new ≤ vec_len later.old }
    ensures capacity { vec_capacity later.new ≡ vec_capacity later.old }
{
    later.retain(|kept| kept.ends_after(pos));
}

impl Live {
    /// No mapping, which takes no memory.
    pub(crate) fn new(alloc: Global) -> Self
        ensures { result.kept ≡ [] }
    {
        Live {
            rising: VecDeque::new(alloc),
            later: Vec::new(alloc),
        }
    }

    /// Makes room for so many mappings more. They stay, also where there is no memory.
    pub(crate) fn reserve(&mut self, count: usize) -> Result<(), AllocError>
        ensures ok { OnOk result (count ≤ self.new.ready) }
        ensures more { self.old.ready ≤ self.new.ready }
        ensures kept { self.new.kept ≡ self.old.kept }
    {
        self.rising.reserve(count)?;
        self.later.reserve(count)
    }

    /// Puts a mapping behind the others. There is room for it.
    pub(crate) fn push(&mut self, kept: KeptMapping)
        requires { 0 < self.old.ready }
        ensures kept { self.new.kept ≡ self.old.kept ++ kept ∷ [] }
        ensures ready { self.old.ready ≤ self.new.ready + 1 }
    {
        if self.later.is_empty() && ends_last(&self.rising, kept) {
            self.rising.push_back_reserved(kept);
        } else {
            self.later.push_reserved(kept);
        }
    }

    /// The first one that covers the position. Takes as long as there are mappings before it.
    pub(crate) fn first_at(&self, pos: Pos) -> Option<KeptMapping>
        ensures { result ≡ find (λ kept. covers pos (run_of kept)) self.now.kept }
    {
        match first_of(&self.rising, pos) {
            Some(kept) => Some(kept),
            None => first_later(self.later.as_slice(), pos),
        }
    }

    /// Lets go of the mappings that lie below the position. Takes no memory, and as long as there are some of these, and some that
    /// were learned after one that ended behind them.
    pub(crate) fn forget_below(&mut self, pos: Pos)
        ensures kept { self.new.kept ≡ filter (λ kept. nat_lt pos (run_of kept).to) self.old.kept }
        ensures ready { self.old.ready ≤ self.new.ready }
    {
        let_first_go(&mut self.rising, pos);
        let_go(&mut self.later, pos);
    }
}
