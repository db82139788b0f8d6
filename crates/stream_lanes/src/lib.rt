//! What holds of a Multipath TCP connection over every order of its events: the writers' and the readers' books, and
//! between them any number of paths that may lose, repeat, delay and reorder what they carry, and alter its first
//! byte (RFC 8684, section 3.3).
//!
//! Definitions and laws alone, with no code. One direction of one path is a lane: what its two ends keep, and all copies
//! that were ever sent on it; an event names a copy, so that loss, repetition, order and age need no more. A connection is
//! two directions, each with its books and lanes, which share nothing but whether a join was answered and which side
//! fell back to plain TCP or to an infinite mapping (RFC 8684, section 3.7).
#![tactic(auto)]

mod laws;

pub use laws::{
    a_plain_run_delivers, a_right_checksum_shows_the_bytes_that_were_sent, a_run_delivers,
    acknowledged_bytes_were_received, an_aborted_reader_is_told_no_end,
    an_altered_copy_passes_after_the_fall, an_altered_run_delivers, an_infinite_mapping_delivers,
    each_event_is_one_pipe_step_or_none, falls_are_right, infinite_mappings_are_right,
    nothing_disagrees, nothing_is_refused, paths_are_as_short_as_the_stream,
    placed_before_a_fall_is_right, readers_get_a_prefix, records_agree_with_the_book,
    rising_open_bytes_are_not_enough, the_end_is_told_at_the_whole, what_holds_stays,
};
