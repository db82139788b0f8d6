//! How a sender answers losses: the timer after which it sends again, with the row of its expiries (RFC 6298, section 5),
//! and its congestion window, with the row of duplicates that it hears (RFC 5681, section 3). What is sent, and when, is
//! told by the caller. Nothing here takes memory.
#![tactic(auto)]

mod timers;
mod windows;

pub use timers::Timing;
pub use windows::{Congestion, Pending, Told};
