//! How fast a connection over one path that loses nothing comes to its end, in rounds of 100 ticks.
//!
//! Definitions and laws alone, with no code. One direction of the connection is a *lane*: a writer with its file, the end
//! that sends the bytes, the end that receives them, a reader, and the segments on their way between the two ends. A lane
//! keeps numbers and ticks and no bytes: how far the writer wrote, how much was granted to the path, sent, received, read and
//! acknowledged, how far the window is open, which of SYN, FIN, DATA_FIN and the keys were sent and came, and when the timer
//! would run out. A connection is two lanes; each segment stands in both, in one for the bytes that it carries and in the
//! other for what it acknowledges.
//!
//! A lane goes on by *moves*: the writer writes, the end sends a segment, the first segment on the way arrives, and so on,
//! each under the conditions that the protocol sets. A *round* is any list of moves after which both applications and the
//! path are at the end of their turns. Nothing is assumed of the order of moves within it. The laws say that no timer runs
//! out, that no third duplicate comes, so that nothing is ever sent again, and that after some rounds both readers are told
//! the end of their streams.
#![tactic(auto)]

mod laws;

pub use laws::{
    both_ends_are_told, no_third_duplicate_comes, no_timer_runs_out, rounds_bring_news,
    rounds_stay_calm, what_holds_stays,
};
