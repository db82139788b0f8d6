//! What a judge of captures reads in the captures of our own runs.
//!
//! Definitions and laws alone, with no code. A capture that is written block by block has just the packets of its blocks, whole and as they
//! were given, for any reader of captures (`captures_are_their_packets`). What the receiver of a segment reads is found in the packet that
//! carries it (`segments_are_found`). So the capture of a trace has the segments of the trace (`traces_are_their_segments`), and no side of a
//! run of ours is told to have broken a rule of the judge's, as far as these are named (`own_runs_break_no_rule`), and one connection is seen
//! there, whatever the script does (`own_runs_are_one_connection`). Where the script alters no payload and takes no options away, none is broken
//! at all (`whole_runs_break_no_rule`), and the judge ends well (`whole_runs_end_well`). And the streams that the judge finds are of the files,
//! whatever the script does (`captures_show_the_files`). What came to a side is in the trace (`what_came_was_sent`), all of both files once the
//! run is delivered (`delivered_files_were_sent`). Segments map their payload, and acknowledge a DATA_FIN that was told
//! (`whole_runs_say_what_they_bear`), and Data ACKs never fall (`data_acks_never_fall`). A path opens in its order (`paths_open_in_order`), an
//! end that sent a reset sends resets alone (`resets_end_a_path`), and A alone shows both keys (`the_opener_shows_both_keys`). An end takes a
//! position for a place only where it was told so (`learned_places_were_told`).
#![tactic(auto)]

mod laws;
mod sent_laws;

pub use laws::{
    captures_are_their_packets, captures_show_the_files, data_acks_never_fall,
    learned_places_were_told, own_runs_are_one_connection, own_runs_break_no_rule,
    paths_open_in_order, resets_end_a_path, segments_are_found, the_opener_shows_both_keys,
    traces_are_their_segments, what_came_was_sent, whole_runs_break_no_rule, whole_runs_end_well,
    whole_runs_say_what_they_bear,
};
pub use sent_laws::{
    delivered_files_were_counted, delivered_files_were_granted, delivered_files_were_sent,
};
