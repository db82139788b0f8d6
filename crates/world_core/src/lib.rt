//! The world of one connection: its two applications, its paths and the six books, as they go on step by step.
//!
//! The actors make steps in any order. Where a turn has ended nothing changes, and where each has, the next round begins. A
//! step that wants memory fails the world for good.
#![tactic(auto)]

mod crew;
mod hearing;
mod input;
mod laws;
mod logged;
mod looking;
mod member;
mod reading;
mod round_end;
mod stepped;
mod stepping;
mod timed_rounds;
mod weaving;
mod whole_turns;
mod world;

pub use hearing::{Heard, Hearing, Told};
pub use laws::no_clock_goes_back;
pub use logged::told_outcome;
pub use member::{Crew, Member};
pub use reading::read_since;
pub use stepped::Stepped;
pub use timed_rounds::timed_round;
pub use weaving::{made_by, woven};
pub use whole_turns::{round, turn};
pub use world::World;
pub use world_laws::Outcome;
