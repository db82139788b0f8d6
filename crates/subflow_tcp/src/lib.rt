//! One end of a subflow, by positions: the handshake, arriving segments, the retransmission timer, the congestion window,
//! and what is to be sent (RFC 9293, RFC 5681, RFC 6298).
#![tactic(auto)]

mod closing;
mod dropping;
mod dues;
mod emitting;
mod end;
mod expiring;
mod handshake;
mod judging;
mod keeping;
mod laws;
mod lending;
mod segments;
mod spelling;
mod taking;
mod verdicts;

pub use dues::Due;
pub use end::Subflow;
pub use handshake::State;
pub use laws::{fired_timers_rest, the_window_never_falls, timers_run_for_a_reason};
pub use loss_recovery::{Congestion, Pending, Timing, Told};
pub use segments::{Arriving, Emission, Hint, Occasion, Outgoing};
pub use spelling::Numbers;
pub use subflow_recv::Parts;
pub use subflow_send::{AckKind, RecordKind, RecordRef};
pub use verdicts::{Arrival, Fired, Meaning};
