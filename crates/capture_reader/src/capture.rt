//! A capture as the packets in it.

ghost use Rattle.std.specs.Prelude.{◌≡◌, ◌≤◌, length, map, option_map, IfSome};
ghost use Rattle.capture_reader.specs.declared.capture.CaptureFault.TheVariants.{Memory};
ghost use Rattle.capture_reader.specs.Captured.{as_captured, captured_of};
ghost use Rattle.capture_reader.specs.Steps.{Gives};
ghost use Rattle.capture_reader.specs.Captures.{capture_meaning};

use crate::blocks::read_blocks;
use crate::records::{read_records, record_order};
use std::alloc::{AllocError, AllocFailed, Global};

/// A packet as it was captured.
#[derive(Clone, Copy)]
pub struct CapturedPacket<'a> {
    /// The link type of its interface, as in the registry of the tcpdump group.
    pub link: u16,
    /// The octets that the capture holds, lent from it.
    pub octets: &'a [u8],
    /// Whether these are all octets that the packet had.
    pub whole: bool,
}

/// Why octets are no capture.
#[derive(Clone, Copy, Debug)]
pub enum CaptureFault {
    /// The record or block that begins at this octet has no form, or runs past the end; 0 where the head has none.
    Block { octet: u64 },
    /// Out of memory.
    Memory,
}

impl From<AllocError> for CaptureFault {
    ghost from_gives = { λ _ fault. fault ≡ Memory };

    fn from(_: AllocError) -> Self {
        CaptureFault::Memory
    }
}

impl<T: Drop> From<AllocFailed<T>> for CaptureFault {
    ghost from_gives = { λ _ fault. fault ≡ Memory };

    fn from(_: AllocFailed<T>) -> Self {
        CaptureFault::Memory
    }
}

/// The packets of a capture in their order: pcap where the octets begin with one of its magic numbers, else pcapng. Takes 32
/// octets of memory a packet, twice that while the list grows.
///
/// # Errors
///
/// The first record or block that has no form, by the octet where it begins; or want of memory.
#[tactic(auto, unfolding(crate::specs::Captures::capture_meaning))]
pub fn read_capture(alloc: Global, octets: &[u8]) -> Result<Vec<CapturedPacket<'_>>, CaptureFault>
    ensures exact { Gives (λ packets. map as_captured packets.items) result
        (capture_meaning octets.now) }
{
    match record_order(octets) {
        Some(order) => read_records(alloc, order, octets),
        None => read_blocks(alloc, octets),
    }
}

/// The packet of so many held octets that these octets begin with, if there are as many; it had as many as told.
#[tactic(auto, unfolding(crate::specs::Captured::captured_of))]
pub(crate) fn captured(link: u16, held: u32, told: u32, octets: &[u8]) -> Option<CapturedPacket<'_>>
    ensures exact { option_map as_captured result ≡ captured_of link held told octets.now }
    ensures within { IfSome result (λ packet. length packet.octets.now ≤ length octets.now) }
{
    let len = held as usize;
    if octets.len() < len {
        return None;
    }
    Some(CapturedPacket {
        link,
        octets: &octets[..len],
        whole: told <= held,
    })
}
