//! The rules of Multipath TCP (RFC 8684) that captured segments show to be kept or broken, by both sides of each connection.
#![tactic(auto)]

mod book;
mod judge;
mod judged;
mod judging;
mod positions;
mod signals;

pub use book::{Book, Lanes};
pub use judged::{JudgeWords, Judged};
pub use judging::Judging;
pub use signals::Keyed;
