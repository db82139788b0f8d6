//! The one's complement sum of 16-bit words that the Internet checksum is made of (RFC 1071).
//!
//! `sum` and `sum_more` add words without losing a carry, and `fold` brings the sum into 16 bits. The checksum is
//! the complement of that.
#![tactic(auto)]

mod laws;
mod words;

pub use laws::{complement_completes, folds_are_end_around, parts_add_up, turned_bit_shows};
pub use words::{fold, sum, sum_more};
