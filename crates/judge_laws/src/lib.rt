//! What holds of a side of which the judge tells that it kept the rules.
//!
//! Definitions and laws alone, with no code. No segment takes back what was known of a stream (`nothing_is_taken_back`); where a side never
//! brought another octet to a place, each octet that a segment brought to a place that wasn't acknowledged is the one that the stream has
//! there, and that is written of it (`kept_sides_sent_one_stream`). No Data ACK of a side that kept the rule is beyond what was seen of the
//! other stream (`kept_sides_acknowledge_what_was_seen`). A DATA_FIN stands behind the last byte of its stream (`data_fins_end_streams`),
//! and each mapping that is whole has the checksum of the octets that came first (`kept_sides_sum_right`; `kept_mappings_are_told` says that
//! those of all packets are among these): one turned bit under a checksum is never kept (`one_turned_bit_is_never_kept`).
#![tactic(auto)]

mod laws;

pub use laws::{
    data_fins_end_streams, kept_mappings_are_told, kept_sides_acknowledge_what_was_seen,
    kept_sides_sent_one_stream, kept_sides_sum_right, nothing_is_taken_back,
    one_turned_bit_is_never_kept, payload_is_the_streams,
};
