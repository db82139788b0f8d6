//! The judge's call: the words of a command line name a capture, what it shows is told, and the streams are written.
#![tactic(auto)]

mod judging;
mod line;
mod putting;
mod status;
mod streams;

pub use judging::judge;
pub use status::Status;
