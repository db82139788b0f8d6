//! Captures of networks read as TCP segments: pcap and pcapng in either order of octets, Ethernet, raw IP and Linux's cooked
//! headers with or without VLAN tags, IPv4 and IPv6.
//!
//! `read_capture` gives the packets of a capture, or the octet of the first block that has no form; `segment_of` the TCP segment
//! that a packet carries. Both lend from the octets of the capture, and answer for all octets, hostile ones too.
#![tactic(auto)]

mod blocks;
mod capture;
mod internet;
mod link;
mod order;
mod records;
mod seen;

pub use capture::{CaptureFault, CapturedPacket, read_capture};
pub use seen::{End, SeenSegment, segment_of};
