//! The turns that were made on a connection.

ghost use Rattle.std.specs.Prelude.{◌≡◌, ◌+◌, ◌<◌, ◌≤◌, ◌++◌, ◌∷◌, [], OnOk};

use run_log::Turn;
use std::alloc::{AllocError, Global};
use std::marker::Model;

/// A list of turns, with room for some more.
#[derive(Drop)]
pub(crate) struct TurnList {
    turns: Vec<Turn>,
}

impl Model for TurnList {
    ghost use Rattle.std.specs.Prelude.{◌-◌, vec_capacity, vec_len};
    ghost use Rattle.connection_table.specs.Turns.{Turns};

    ghost Value = { Turns };

    ghost view = { λ list. record {
      made = list.turns.items;
      room = vec_capacity list.turns - vec_len list.turns;
    } };
}

impl TurnList {
    /// No turn, which takes no memory.
    pub fn new(alloc: Global) -> Self
        ensures { result.made ≡ [] }
    {
        TurnList {
            turns: Vec::new(alloc),
        }
    }

    /// Makes room for so many turns.
    pub fn reserve(&mut self, count: usize) -> Result<(), AllocError>
        ensures made { self.new.made ≡ self.old.made }
        ensures room { OnOk result (count ≤ self.new.room) }
        ensures kept { self.old.room ≤ self.new.room }
    {
        self.turns.reserve(count)
    }

    /// Puts a turn where there is room for it.
    pub fn put(&mut self, turn: Turn)
        requires { 0 < self.old.room }
        ensures made { self.new.made ≡ self.old.made ++ turn ∷ [] }
        ensures room { self.old.room ≤ self.new.room + 1 }
    {
        match self.turns.push(turn) {
            Ok(()) => {}
            Err(_) => unreachable!(),
        }
    }

    /// The turns, lent.
    pub fn as_slice(&self) -> &[Turn]
        ensures { result.now ≡ self.now.made }
    {
        self.turns.as_slice()
    }
}
