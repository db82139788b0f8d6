//! The linked increase of RFC 6356: how much the congestion window of one path grows where several paths carry one
//! connection, so that no path takes more than a connection of its own would.
//!
//! The definitions are the RFC's formula in exact fractions, and beside it the form in integers that is computed. The
//! laws say how far the two are apart. Windows are octets, round-trip times ticks of one millisecond. Only lists of
//! rows take memory.
#![tactic(auto)]

mod increase;
mod laws;
mod rows;

pub use increase::{ALPHA_SCALE, MAX_ACKED, MAX_MSS, alpha, growth};
pub use laws::{
    alpha_is_at_least_exact, growth_is_as_fast_as_exact, growth_is_no_faster_than_alone,
    leader_leads, numbers_of_the_increase, sum_rounds_down,
};
pub use rows::{MAX_ROWS, MAX_RTT, MAX_WINDOW, Row, Rows};
