//! The handshake that joins a further subflow to a connection: what each side says in the MP_JOIN of its segments, and
//! what the other side takes from it (RFC 8684, section 3.2).
//!
//! A begins the join. Its SYN has B's token, B's SYN/ACK the first bits of B's HMAC, and A's third ACK those of A's. Each
//! HMAC is over both nonces, under both keys. Nothing here takes memory.
#![tactic(auto)]

mod fault;
mod hearing;
mod laws;
mod saying;

pub use fault::JoinFault;
pub use hearing::{JoinAnswer, JoinSyn, client_answer, server_syn, server_third};
pub use laws::honest_sides_agree;
pub use saying::{answer_option, syn_option, third_option};
