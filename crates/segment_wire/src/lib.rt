//! TCP segments, whole and both ways: what octets mean, and how a segment is written (RFC 9293, section 3.1).
//!
//! `parse` lends the parts of its input and copies nothing; `write` makes the octets in one allocation. Options other
//! than MSS and window scale are handed on as they stand.
#![tactic(auto)]

mod between;
mod changes;
mod checksum;
mod head;
mod laws;
pub mod options;
mod parts;
mod paths;
mod reading;
mod writing;

pub use between::{covered_sum_between, pseudo_sum_between};
pub use changes::{alter, strip};
pub use head::{Addresses, Head};
pub use laws::{
    different_segments_differ, read_is_written_again, sums_of_ipv4_are_alike, written_is_read_again,
};
pub use options::PlainOptions;
pub use parts::parts_of;
pub use paths::{addresses_from, port_of};
pub use reading::{SegmentFault, SegmentRef, parse};
pub use writing::{checksum_field, write};
