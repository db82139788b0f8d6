//! Captures in the pcapng format (the Internet draft draft-ietf-opsawg-pcapng), block by block: one section, an interface
//! for each path, a block for each IPv4 packet. Each number is written with its highest octet first, and times are in
//! milliseconds.
#![tactic(auto)]

mod blocks;
mod ipv4;
mod laws;

pub use blocks::{Direction, Seen, interface, packet, section};
pub use ipv4::{HEADER_LEN, header};
pub use laws::{captures_are_read_again, headers_sum_up};
