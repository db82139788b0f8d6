//! What is still to be done in the turn of a path: its duties, in the templates that follow each kind of event, the ticks of
//! the path's round, and the things that a copy says, which are treated one after the other.
//!
//! What a duty comes to, and what its reply makes of the path, is no matter of this crate.
#![tactic(auto)]

mod agenda;
mod clock;
mod duty;
mod heard;
mod items;
mod keys;
mod laws;
mod notice;
mod templates;

pub use agenda::Agenda;
pub use clock::Clock;
pub use duty::{AskDuty, Duty, SendDuty, SilentDuty, StepDuty};
pub use heard::{Heard, JoinStep};
pub use items::{Items, join_heard, key_heard, keys_heard, one_wants_ack, place_in_first};
pub use keys::KeyPair;
pub use laws::{every_chain_ends, every_template_ends};
pub use notice::{OwnNotice, PeerNotice};
