//! Actors as workers: each makes its turn in a thread of its own, over six books of which each stands behind one lock.
//!
//! A seat takes one lock for one call. No run goes by these locks: rounds by threads are those of `ruled_desk`, whose tables say more of
//! a call.
#![tactic(auto)]

mod asking;
mod desk;
mod held;
mod refusing;
mod rounds;

pub use actor_turn::turn;
pub use desk::{LockedDesk, Naming};
pub use rounds::{LockedSeat, round, threaded_round};
