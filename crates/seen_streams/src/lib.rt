//! What both sides of a connection sent, by positions of subflows and places of streams, and the rules of Multipath TCP on mappings,
//! octets, checksums and Data ACKs (RFC 8684, section 3.3).
#![tactic(auto)]

mod acks;
mod content;
mod ends;
mod lane;
mod learn;
mod line;
mod mapping;
mod places;
mod stream;
mod sums;
mod told;
mod waits;

pub use acks::{end_by_fin, judge_ack, judge_fail, plain_end};
pub use content::{Payload, Shower, take_payload};
pub use ends::Counts;
pub use lane::Lane;
pub use learn::learn_offer;
pub use places::PlacedStretch;
pub use stream::Stream;
pub use sums::{add_sums, try_sums};
pub use told::{Broke, Infinite, Learnt, Teller, ToldMapping, Waiting};
pub use waits::Waits;
