//! The retransmission timer of RFC 6298: from the round-trip times of what the peer acknowledged to the time
//! that a sender waits before it sends again.
//!
//! All times are ticks, of one millisecond each. SRTT is kept in eighths and RTTVAR in quarters of a tick, so that
//! integers do. Nothing here reads a clock or takes memory.
//!
//! The caller takes no sample of a segment that it sent more than once (section 3). Rule 5.7, which sets three
//! seconds after the timer of a SYN expired, is left out.
#![tactic(auto)]

mod estimate;
mod laws;
mod timer;

pub use estimate::{CLOCK_GRANULARITY, Estimate, MAX_RTO, MAX_SAMPLE, MIN_RTO};
pub use laws::{expiries_double, means_round_up, numbers_of_the_timer};
pub use timer::{INITIAL_RTO, Rtt};
