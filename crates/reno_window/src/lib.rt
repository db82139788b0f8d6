//! The congestion window of RFC 5681: how many octets a sender may have in flight, by what was acknowledged and
//! what was lost.
//!
//! All sizes are octets of payload. How much a window grows in congestion avoidance is given by the caller, so that
//! the windows of several paths can be linked. Nothing here takes memory.
#![tactic(auto)]

mod laws;
mod window;

pub use laws::{
    expiries_hold_the_threshold, recovery_halves_the_flight, slow_start_adds_a_segment,
};
pub use window::{MAX_WINDOW, Reno};
