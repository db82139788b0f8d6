//! Runs: positions side by side whose places lie side by side too.
ghost use Rattle.std.specs.Prelude.{◌≡◌, ◌+◌, ◌-◌, ◌^◌, ◌<◌, ◌≤◌, true};
ghost use Rattle.dss_mapping.specs.Runs.{covers, place_in, infinite_run, IsSound};
ghost use Rattle.dss_mapping.specs.Kept.{joins, lies_before, joined};

use seq_units::Pos;

/// Positions side by side: `pos`, and all after it below `to`. Their places lie side by side too, from `place` on.
#[derive(Clone, Copy)]
pub struct Run {
    /// The first position.
    pub pos: Pos,
    /// The place of the first position.
    pub place: u64,
    /// The position after the last one.
    pub to: Pos,
}

impl Run {
    /// The positions from `pos` on, as long as they and their places are below 2^64 - 1.
    pub(crate) fn infinite(pos: Pos, place: u64) -> Run
        ensures value { result ≡ infinite_run pos place }
        ensures sound { IsSound result }
    {
        Run {
            pos,
            place,
            to: u64::MAX - place.saturating_sub(pos),
        }
    }

    /// Whether the position is one of these.
    pub(crate) fn covers(self, pos: Pos) -> bool
        ensures { result ≡ covers pos self }
    {
        self.pos <= pos && pos < self.to
    }

    /// The place of a position of the run, or of the one after it.
    pub(crate) fn place_of(self, pos: Pos) -> u64
        requires covered { pos ≤ self.to }
        requires sound { IsSound self }
        ensures { result ≡ place_in pos self }
    {
        self.place + pos.saturating_sub(self.pos)
    }

    /// Whether they touch or have a position in common, and there the same place.
    pub(crate) fn joins(self, other: Run) -> bool
        requires sound { IsSound self }
        requires other { IsSound other }
        ensures { result ≡ joins self other }
    {
        let pos = other.pos.max(self.pos);
        pos <= other.to && pos <= self.to && other.place_of(pos) == self.place_of(pos)
    }

    /// Whether it ends before the told one begins, or there and with another distance between place and position.
    pub(crate) fn lies_before(self, told: Run) -> bool
        requires sound { IsSound self }
        requires told { IsSound told }
        ensures { result ≡ lies_before told self }
    {
        self.to <= told.pos && !told.joins(self)
    }

    /// The positions of both.
    pub(crate) fn joined(self, other: Run) -> Run
        requires sound { IsSound self }
        requires other { IsSound other }
        requires joins { joins self other ≡ true }
        ensures value { result ≡ joined self other }
        ensures sound { IsSound result }
    {
        Run {
            pos: self.pos.min(other.pos),
            place: self.place.min(other.place),
            to: self.to.max(other.to),
        }
    }
}
