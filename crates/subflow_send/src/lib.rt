//! The sending side of a subflow by positions (RFC 9293, section 3.4): a list of records, each the SYN, a data piece
//! with its mapping, or the FIN, that nobody has acknowledged whole. It knows what was sent, how often and when, and
//! what an acknowledgement or an expiry means for it. Windows, timers and segments are the end's own.
#![tactic(auto)]

mod laws;
mod octets;
mod pieces;
mod queue;
mod record;
mod send;

pub use laws::{acknowledged_records_are_a_prefix, expiry_marks_all_but_the_first};
pub use record::{AckKind, RecordKind, RecordRef, Sending};
pub use send::SubflowSend;
