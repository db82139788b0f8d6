//! Runs: places side by side that have the same mark.
ghost use Rattle.std.specs.Prelude.{◌≡◌};
ghost use Rattle.std.specs.Iterator.{YieldsFirst, item_count};

use std::marker::Model;

/// Places side by side with one mark: `from`, and all places after it below `to`.
#[derive(Clone, Copy)]
pub struct Run<M> {
    /// The first place.
    pub from: u64,
    /// The place after the last one.
    pub to: u64,
    /// The mark of each of these places.
    pub mark: M,
}

/// The runs of marks in order of their places, lent. Contracts see the list of the runs that are left.
#[derive(Drop)]
pub struct Runs<'a, M> {
    left: &'a [Run<M>],
}

impl<'a, M> Model for Runs<'a, M> {
    ghost use Rattle.std.specs.Prelude.{List};
    ghost use Rattle.range_marks.specs.declared.run.Run.{Run};

    ghost Value = { List (Run M) };

    ghost view = { λ runs. runs.left.now };
}

impl<'a, M> Runs<'a, M> {
    /// All of these runs.
    pub(crate) fn of(left: &'a [Run<M>]) -> Self
        ensures { result ≡ left.now }
    {
        Runs { left }
    }
}

impl<M: Copy> Iterator for Runs<'_, M> {
    type Item = Run<M>;

    ghost next_gives = { YieldsFirst (λ runs. runs) };

    ghost remaining = { item_count (λ runs. runs) };

    fn next(&mut self) -> Option<Run<M>> {
        let (first, others) = self.left.split_first()?;
        self.left = others;
        Some(*first)
    }
}
