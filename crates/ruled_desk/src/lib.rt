//! The six books of a connection, each in a table of its own behind a ticket lock: what the actors' passes note of their calls
//! is what the journals gained. A round by threads gives each actor a pass, and its turn to a worker that stays from round to round.
//!
//! One book in a table of its own behind a ticket lock: the entries that the seats at the table note of their calls are, as often
//! and no others, those that the book's journal gained.
//!
//! The table's rule says which seat has the book and which entries its journal has (`rule`); a step on one of its words keeps it.
//! A call passes the book's door, draws a ticket, waits until it is served, takes the book, enters, puts the book back, and serves the
//! next ticket. One call at a time is past the door.
#![tactic(auto)]

mod answering;
mod desk;
mod errands;
mod held;
mod laws;
mod lock;
mod mounting;
mod passing;
mod refusing;
mod rider;
mod rounds;
mod rule;
mod seats;
mod waiting;

pub use desk::{OpenFault, RootPass, RuledDesk, RuledPass};
pub use errands::{
    Errand, Riding, TurnGiver, TurnWorker, dismiss_all, meet_all, open_turns, serve_all,
};
pub use laws::gaining_alike_stays_paired;
pub use rider::{Mounted, Rider};
pub use rounds::{RuledSeat, round_at_tables, ruled_round};
