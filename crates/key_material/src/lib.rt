//! What a connection makes of its keys: the token and the initial data sequence number of a key, the HMACs that
//! authenticate a joined path and an announced address, and the words that stand for random ones. All of it is a
//! function of its arguments, and takes no memory (RFC 8684, sections 3.1, 3.2 and 3.4.1).
#![tactic(auto)]

mod address;
mod address_hmac;
mod drawing;
mod join_hmac;
mod key_digest;
mod keyed_hash;
mod laws;

pub use address::Address;
pub use address_hmac::add_addr64;
pub use drawing::drawn;
pub use join_hmac::{join_a160, join_b64};
pub use key_digest::{idsn, token};
pub use keyed_hash::{hmac, hmac_of_pieces};
pub use laws::{message_may_be_cut_anywhere, truncations_are_of_one_digest};
