//! The checksum of a data sequence mapping: the one's complement of the one's complement sum over a pseudo-header,
//! which tells the mapping, and the octets that are mapped (RFC 8684, section 3.3.1).
//!
//! The octets may come in parts of any length, odd ones included, as they lie in segments. Nothing here takes memory.
#![tactic(auto)]

mod laws;
mod mapping_sum;

pub use laws::{other_mapping_shows, turned_bit_shows};
pub use mapping_sum::{DssSum, MAX_OCTETS};
