//! The format pcap: a head, then a record for each packet (the Internet draft draft-ietf-opsawg-pcap).

ghost use Rattle.std.specs.Prelude.{◌≡◌, ◌+◌, ◌≤◌, [], drop, length, map, option_map, IfSome};
ghost use Rattle.capture_reader.specs.Captured.{as_captured};
ghost use Rattle.capture_reader.specs.Steps.{Gives};
ghost use Rattle.capture_reader.specs.Records.{order_of_magic, record_at, record_order, records_after, records_meaning};

use crate::capture::{CaptureFault, CapturedPacket, captured};
use crate::order::{ByteOrder, rest_from};
use std::alloc::Global;

// How many octets stand before the first record, and in each record before those of the packet.
const FILE_HEAD: usize = 24;

const RECORD_HEAD: usize = 16;

// The magic numbers: of microseconds and of nanoseconds, in either order of octets.
const MICROSECONDS: u32 = 0xA1B2_C3D4;

const NANOSECONDS: u32 = 0xA1B2_3C4D;

const MICROSECONDS_SWAPPED: u32 = 0xD4C3_B2A1;

const NANOSECONDS_SWAPPED: u32 = 0x4D3C_B2A1;

/// The order of octets of a capture that begins with a magic number of this format.
#[tactic(auto, unfolding(crate::specs::Records::record_order))]
pub fn record_order(octets: &[u8]) -> Option<ByteOrder>
    ensures { result ≡ record_order octets.now }
{
    if octets.len() < 4 {
        return None;
    }
    order_of_magic(ByteOrder::BigEndian.u32_at(octets, 0))
}

#[tactic(auto, unfolding(crate::specs::Records::order_of_magic))]
fn order_of_magic(magic: u32) -> Option<ByteOrder>
    ensures { result ≡ order_of_magic magic }
{
    if magic == MICROSECONDS || magic == NANOSECONDS {
        return Some(ByteOrder::BigEndian);
    }
    if magic == MICROSECONDS_SWAPPED || magic == NANOSECONDS_SWAPPED {
        return Some(ByteOrder::LittleEndian);
    }
    None
}

/// The packets of a capture whose numbers have this order.
///
/// # Errors
///
/// The octet of the first record that isn't whole, or 0 where the head isn't; or want of memory.
#[tactic(auto, unfolding(crate::specs::Records::records_meaning))]
pub fn read_records(
    alloc: Global,
    order: ByteOrder,
    octets: &[u8],
) -> Result<Vec<CapturedPacket<'_>>, CaptureFault>
    ensures { Gives (λ packets. map as_captured packets.items) result
        (records_meaning order octets.now) }
{
    if octets.len() < FILE_HEAD {
        return Err(CaptureFault::Block { octet: 0 });
    }
    let link = (order.u32_at(octets, 20) % 0x1_0000) as u16;
    records_behind(alloc, order, link, octets)
}

// The packets behind the head.
fn records_behind(
    alloc: Global,
    order: ByteOrder,
    link: u16,
    octets: &[u8],
) -> Result<Vec<CapturedPacket<'_>>, CaptureFault>
    ensures { Gives (λ packets. map as_captured packets.items) result
        (records_after order link 24 0 [] (drop 24 octets.now)) }
{
    let mut packets = Vec::new(alloc);
    let mut place = FILE_HEAD;
    while place < octets.len() {
        let Some(packet) = record_at(order, link, rest_from(octets, place)) else {
            return Err(CaptureFault::Block {
                octet: place as u64,
            });
        };
        place += RECORD_HEAD + packet.octets.len();
        packets.push(packet)?;
    }
    Ok(packets)
}

// The record that octets begin with.
#[tactic(auto, unfolding(crate::specs::Records::record_at))]
fn record_at(order: ByteOrder, link: u16, octets: &[u8]) -> Option<CapturedPacket<'_>>
    ensures exact { option_map as_captured result ≡ record_at order link octets.now }
    ensures within { IfSome result (λ packet. length packet.octets.now + 16 ≤ length octets.now) }
{
    if octets.len() < RECORD_HEAD {
        return None;
    }
    let held = order.u32_at(octets, 8);
    let told = order.u32_at(octets, 12);
    captured(link, held, told, rest_from(octets, RECORD_HEAD))
}
