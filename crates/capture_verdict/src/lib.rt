//! What is told of a capture: whether both sides of each connection of Multipath TCP in it kept the rules of RFC 8684, and the streams
//! that they sent.
#![tactic(auto)]

mod ending;
mod judging;
mod order;
mod sent;
mod told;
mod totals;

pub use ending::{Ending, ending_of};
pub use judging::judge_capture;
pub use sent::sent_by;
pub use told::report;
pub use totals::{Totals, Unread, all_totals};
