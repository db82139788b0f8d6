//! The receiving side of a subflow by positions (RFC 9293, section 3.4): the receive edge, the window behind it, and the
//! octets that have come in the window, in any order. What came in order is lent and passed over by the caller, who
//! knows where the octets belong in the data stream. Mappings, checksums, SYN and FIN are the end's own.
#![tactic(auto)]

mod acceptance;
mod laws;
mod receive;

pub use acceptance::Acceptance;
pub use byte_pieces::Parts;
pub use laws::{
    forgotten_octets_are_gone, held_is_a_prefix, held_payloads_are_kept, kept_octets_stay,
    outside_is_no_octet_in_the_window, what_comes_first_is_kept,
};
pub use receive::SubflowRecv;
