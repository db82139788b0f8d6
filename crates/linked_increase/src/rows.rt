//! What is known of the paths of a connection: a row for each.
ghost use Rattle.std.specs.Prelude.{◌≡◌, ◌<◌, ◌≤◌, ◌*◌, ◌↔◌, IsTrue, ◌==◌, [], ◌∷◌, ◌++◌, length, IfOk, OnOk, OnErr};

use std::alloc::{AllocError, Global};
use std::marker::Model;

/// The most rows that are linked.
pub const MAX_ROWS: usize = 16;

/// The greatest congestion window, in octets.
pub const MAX_WINDOW: u32 = 1_048_576;

/// The greatest round-trip time, in ticks.
pub const MAX_RTT: u32 = 60_000;

/// What one path tells of itself.
#[derive(Clone, Copy, Default, PartialEq, Eq)]
pub struct Row {
    /// The number of the path.
    pub path: u8,
    /// cwnd, its congestion window, in octets: 1 to [`MAX_WINDOW`] where it is linked.
    pub window: u32,
    /// Its smoothed round-trip time, in ticks: 1 to [`MAX_RTT`] where it is linked.
    pub rtt: u32,
}

impl Row {
    ghost use Rattle.linked_increase.specs.Paths.{IsInRange, leads, leading};

    /// Whether the row can be linked: its window is 1 to [`MAX_WINDOW`] octets, its round-trip time 1 to [`MAX_RTT`] ticks.
    pub fn is_in_range(self) -> bool
        ensures { IsTrue result ↔ IsInRange self }
    {
        (1..=MAX_WINDOW).contains(&self.window) && (1..=MAX_RTT).contains(&self.rtt)
    }

    /// Whether this row goes before the other: its window / rtt^2 is greater, or as great and its path is lower.
    fn leads(self, other: Row) -> bool
        ensures { result ≡ leads self other }
    {
        let own = self.window_times_square(other.rtt);
        let others = other.window_times_square(self.rtt);
        own > others || own == others && self.path < other.path
    }

    /// The window times the square of a round-trip time: fractions are compared by multiplying crosswise.
    fn window_times_square(self, rtt: u32) -> u128
        ensures { result ≡ self.window * (rtt * rtt) }
    {
        u128::from(self.window) * u128::from(u64::from(rtt) * u64::from(rtt))
    }

    /// The one of two rows that goes before the other.
    pub(crate) fn leading(self, other: Row) -> Row
        ensures { result ≡ leading self other }
    {
        if other.leads(self) { other } else { self }
    }
}

/// At most [`MAX_ROWS`] rows. Contracts see their list.
#[derive(Drop)]
pub struct Rows {
    rows: Vec<Row>,
}

impl Model for Rows {
    ghost use Rattle.std.specs.Prelude.{◌≤◌, List, length};
    ghost use Rattle.linked_increase.specs.declared.rows.Row.{Row};

    ghost Value = { List Row };

    ghost view = { λ r. r.rows.items };

    ghost invariant = { λ r. length r.rows.items ≤ 16 };
}

impl Rows {
    /// No row, which takes no memory.
    pub fn new(alloc: Global) -> Self
        ensures { result ≡ [] }
    {
        Rows {
            rows: Vec::new(alloc),
        }
    }

    /// How many rows there are.
    pub fn len(&self) -> usize
        ensures count { result ≡ length self.now }
        ensures bound { result ≤ 16 }
    {
        self.rows.len()
    }

    /// Whether there is no row.
    pub fn is_empty(&self) -> bool
        ensures { result ≡ (length self.now == 0) }
    {
        self.len() == 0
    }

    /// Whether there is no place for another row.
    pub fn is_full(&self) -> bool
        ensures full { IsTrue result ↔ (length self.now ≡ 16) }
        ensures bound { length self.now ≤ 16 }
    {
        self.len() == MAX_ROWS
    }

    /// Appends a row, or changes nothing where there is no memory for it.
    pub fn push(&mut self, row: Row) -> Result<(), AllocError>
        requires { length self.old < 16 }
        ensures ok { OnOk result (self.new ≡ self.old ++ row ∷ []) }
        ensures err { OnErr result (self.new ≡ self.old) }
    {
        self.rows.push(row)?;
        Ok(())
    }

    /// The rows, in the order that they were pushed.
    pub fn listed(&self) -> &[Row]
        ensures value { result.now ≡ self.now }
        ensures bound { length result.now ≤ 16 }
    {
        self.rows.as_slice()
    }

    /// Equal rows, in memory of their own.
    pub fn copy(&self) -> Result<Self, AllocError>
        ensures { IfOk result (λ copy. copy ≡ self.now) }
    {
        Ok(Rows {
            rows: self.rows.clone()?,
        })
    }
}

impl PartialEq for Rows {
    ghost use Rattle.std.specs.Cmp.Lexicographic.{pointwise, lists_per};
    ghost use Rattle.std.specs.Cmp.Rules.{comparing};
    ghost use Rattle.std.proofs.Common.{rules};

    ghost eq = { pointwise ⟦<Row as PartialEq>⟧.eq };

    ghost laws = { lists_per (Prim.search (comparing, rules)) };

    #[tactic(auto, using(crate::proofs::RowsEquality::rows_decides))]
    fn eq(&self, other: &Self) -> bool
        ensures value { result ≡ pointwise ⟦<Row as PartialEq>⟧.eq self.now other.now }
        ensures exact { IsTrue result ↔ (self.now ≡ other.now) }
    {
        self.listed() == other.listed()
    }
}

impl Eq for Rows {
    ghost use Rattle.std.specs.Cmp.Lexicographic.{lists_equiv};
    ghost use Rattle.std.specs.Cmp.Rules.{comparing};
    ghost use Rattle.std.proofs.Common.{rules};

    ghost laws = { lists_equiv (Prim.search (comparing, rules)) };
}
