//! Positions and their numbers. A stream is counted by positions, which do not wrap; a field of 32 or 64 bits of
//! a segment carries a position modulo the size of its number space (RFC 9293, section 3.4; RFC 8684, section
//! 3.3). This crate goes from one to the other, and takes no memory. All else of the stack speaks of positions.
#![tactic(auto)]

mod laws;
mod mapping;
mod nearest;
mod number;
mod widening;

pub use laws::{each_number_means_one_position, low_half_is_widened_back, number_is_read_back};
pub use mapping::Mapping;
pub use nearest::{POSITION_LIMIT, near32, near64};
pub use number::{Pos, Seq32, Seq64, number32, number64};
pub use widening::widen;
