//! The control book of one side of a connection: its keys, how it stands to Multipath TCP, which of its paths live, the
//! addresses, and what is still to be told on which path (RFC 8684, sections 3.1, 3.2, 3.4, 3.5 and 3.7).
//!
//! A book is asked by calls, one at a time, and answers each. `specs/Replies` has one definition for each answer, and
//! `specs/Steps` one for each change.
#![tactic(auto)]

mod book;
mod call;
mod laws;
mod notices;
mod registry;

pub use book::{ControlBook, Keys, Notices};
pub use call::{ControlCall, ControlReply, Notice};
pub use laws::{
    aborted_sides_stay_aborted, announcements_stay_due, keys_change_by_key_calls_alone,
    resets_are_told_again, rows_can_be_linked,
};
pub use registry::{PathState, Phase};
