//! The handshake that opens the first subflow of a connection: what each side says in the MP_CAPABLE of its segments,
//! and what the other side takes from it, the keys and whether checksums are used (RFC 8684, section 3.1).
//!
//! The client says its SYN without a key, the server answers with its own key, and the client ends with both keys,
//! in an ACK and again in its first segment with data. Nothing here takes memory.
#![tactic(auto)]

mod fault;
mod hearing;
mod laws;
mod saying;

pub use fault::CapableFault;
pub use hearing::{client_answer, server_keys, server_syn};
pub use laws::{both_keys_arrive, checksums_agree};
pub use saying::{ack_option, first_data_option, syn_ack_option, syn_option};
