//! The turn of an actor at any desk: it passes a gate, asks, and takes what it is answered, until it asks nothing. A turn takes no lock itself.
#![tactic(auto)]

mod gate;
mod report;
mod turning;

pub use gate::{Gate, OpenGate};
pub use report::Report;
pub use turning::{step, turn};
