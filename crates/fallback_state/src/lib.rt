//! How a side of a connection stands to Multipath TCP: whether it uses it, fell back to plain TCP, or goes on under an
//! infinite mapping (RFC 8684, sections 3.7 and 3.8). One function has the whole table of events; nothing here takes
//! memory.
#![tactic(auto)]

mod fall;
mod laws;
mod step;

pub use fall::{Event, Fall, Mode, Verdict};
pub use laws::{
    aborted_sides_stay_aborted, flags_never_fall_back, identity_ends_by_stop_alone,
    infinite_modes_follow_failures, joined_sides_never_fall_to_identity,
    sure_sides_never_start_again,
};
pub use step::fall_step;
