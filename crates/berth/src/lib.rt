//! A berth between one that gives jobs and a worker that stays: a word and a slot of a table. What comes back of a job is what
//! the worker made of it.
//!
//! The table's rule says which of the two has the slot, and what lies in it (`rule`); a step on the word keeps it. Who waits
//! looks a number of turns long, and sleeps on the word then.
#![tactic(auto)]

mod ends;
mod rule;
mod table;
mod waiting;

pub use ends::{Giver, Worker, open_berth};
pub use rule::Deed;
