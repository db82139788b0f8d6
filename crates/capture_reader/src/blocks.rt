//! The format pcapng: blocks, in sections (the Internet draft draft-ietf-opsawg-pcapng).

ghost use Rattle.std.specs.Prelude.{◌≡◌, ◌+◌, ◌<◌, ◌≤◌, [], length, map, option_map, true, IfOk, IfSome, OnOk};
ghost use Rattle.std.specs.List.{slice_get};
ghost use Rattle.capture_reader.specs.Order.{short_in, word_in};
ghost use Rattle.capture_reader.specs.Captured.{as_captured};
ghost use Rattle.capture_reader.specs.Steps.{or_fault, Gives};
ghost use Rattle.capture_reader.specs.Blocks.{order_of_section, order_of_block, is_framed, block_of, block_at, section_in, interface_in, packet_in, held_by, packet_by, simple_in, simple_by, saying_of, with_saying, read_front, blocks_after, nothing_read, blocks_meaning};
ghost use Rattle.capture_reader.specs.ReadBlocks.{as_block, as_saying, as_read};

use crate::capture::{CaptureFault, CapturedPacket, captured};
use crate::order::{ByteOrder, rest_from};
use std::alloc::{AllocError, Global};

// The types of the blocks that are read (section 4).
const SECTION_HEADER: u32 = 0x0A0D_0D0A;

const INTERFACE: u32 = 1;

const OLD_PACKET: u32 = 2;

const SIMPLE_PACKET: u32 = 3;

const ENHANCED_PACKET: u32 = 6;

// How many octets of a block stand around its body: type and length before it, the length again behind it.
const AROUND_BODY: usize = 12;

// An interface of a section: its link type, and the most octets that it holds of a packet, 0 where there is no limit.
#[derive(Clone, Copy)]
struct Interface {
    link: u16,
    snap_len: u32,
}

// A block that has its form, and the order of octets of its section.
#[derive(Clone, Copy)]
struct Block<'a> {
    order: ByteOrder,
    kind: u32,
    body: &'a [u8],
}

// What a block says.
#[derive(Clone, Copy)]
enum Content<'a> {
    Section,
    Named(Interface),
    Packet(CapturedPacket<'a>),
    Other,
}

// What was read of the blocks so far.
#[derive(Drop)]
struct Reading<'a> {
    order: Option<ByteOrder>,
    interfaces: Vec<Interface>,
    packets: Vec<CapturedPacket<'a>>,
}

/// The packets of a capture.
///
/// # Errors
///
/// The octet of the first block that has no form, or 0 where there is none; or want of memory.
#[tactic(auto, unfolding(crate::specs::Blocks::blocks_meaning))]
pub fn read_blocks(alloc: Global, octets: &[u8]) -> Result<Vec<CapturedPacket<'_>>, CaptureFault>
    ensures { Gives (λ packets. map as_captured packets.items) result (blocks_meaning octets.now) }
{
    if octets.is_empty() {
        return Err(CaptureFault::Block { octet: 0 });
    }
    match read_all(alloc, octets) {
        Ok(reading) => Ok(reading.packets),
        Err(fault) => Err(fault),
    }
}

// All that the blocks say.
fn read_all(alloc: Global, octets: &[u8]) -> Result<Reading<'_>, CaptureFault>
    ensures { Gives as_read result (blocks_after 0 0 nothing_read octets.now) }
{
    let mut reading = Reading {
        order: None,
        interfaces: Vec::new(alloc),
        packets: Vec::new(alloc),
    };
    let mut place = 0;
    while place < octets.len() {
        place += read_front(&mut reading, place, rest_from(octets, place))?;
    }
    Ok(reading)
}

// Reads the block that octets begin with, from this place on, and answers how long it is.
#[tactic(auto, unfolding(crate::specs::Blocks::read_front, crate::specs::Blocks::read_block))]
fn read_front<'a>(
    reading: &mut Reading<'a>,
    place: usize,
    octets: &'a [u8],
) -> Result<usize, CaptureFault>
    ensures exact { Gives (λ len. (as_read reading.new, len)) result
        (or_fault place (read_front (as_read reading.old) octets.now)) }
    ensures within { IfOk result (λ len. (0 < len) × (len ≤ length octets.now)) }
{
    let octet = place as u64;
    let Some(block) = block_at(reading.order, octets) else {
        return Err(CaptureFault::Block { octet });
    };
    let Some(content) = content_of(&reading.interfaces, &block) else {
        return Err(CaptureFault::Block { octet });
    };
    put(reading, block.order, content)?;
    Ok(block.body.len() + AROUND_BODY)
}

// Adds what a block says.
fn put<'a>(
    reading: &mut Reading<'a>,
    order: ByteOrder,
    content: Content<'a>,
) -> Result<(), AllocError>
    ensures { OnOk result (as_read reading.new ≡
        with_saying order (as_saying content.entry) (as_read reading.old)) }
{
    match content {
        Content::Section => {
            reading.order = Some(order);
            reading.interfaces.clear();
            Ok(())
        }
        Content::Named(interface) => Ok(reading.interfaces.push(interface)?),
        Content::Packet(packet) => Ok(reading.packets.push(packet)?),
        Content::Other => Ok(()),
    }
}

// ---- a block

// The block that octets begin with, where a section of this order is open.
#[tactic(auto, unfolding(crate::specs::Blocks::block_at))]
fn block_at(opened: Option<ByteOrder>, octets: &[u8]) -> Option<Block<'_>>
    ensures exact { option_map as_block result ≡ block_at opened octets.now }
    ensures within { IfSome result (λ block. length block.body.now + 12 ≤ length octets.now) }
{
    if octets.len() < AROUND_BODY {
        return None;
    }
    block_of(octets, order_of_block(opened, octets)?)
}

#[tactic(auto, unfolding(crate::specs::Blocks::order_of_block))]
fn order_of_block(opened: Option<ByteOrder>, octets: &[u8]) -> Option<ByteOrder>
    requires { 12 ≤ length octets.now }
    ensures { result ≡ order_of_block opened octets.now }
{
    if ByteOrder::BigEndian.u32_at(octets, 0) == SECTION_HEADER {
        return order_of_section(ByteOrder::BigEndian.u32_at(octets, 8));
    }
    opened
}

// The order of octets that the magic number of a section tells.
#[tactic(auto, unfolding(crate::specs::Blocks::order_of_section))]
fn order_of_section(magic: u32) -> Option<ByteOrder>
    ensures { result ≡ order_of_section magic }
{
    if magic == 0x1A2B_3C4D {
        return Some(ByteOrder::BigEndian);
    }
    if magic == 0x4D3C_2B1A {
        return Some(ByteOrder::LittleEndian);
    }
    None
}

#[tactic(auto, unfolding(crate::specs::Blocks::block_of))]
fn block_of(octets: &[u8], order: ByteOrder) -> Option<Block<'_>>
    requires { 12 ≤ length octets.now }
    ensures exact { option_map as_block result ≡ block_of octets.now order }
    ensures within { IfSome result (λ block. length block.body.now + 12 ≤ length octets.now) }
{
    if !is_framed(order, octets) {
        return None;
    }
    let len = order.u32_at(octets, 4) as usize;
    Some(Block {
        order,
        kind: order.u32_at(octets, 0),
        body: &octets[8..len - 4],
    })
}

#[tactic(auto, unfolding(crate::specs::Blocks::is_framed))]
fn is_framed(order: ByteOrder, octets: &[u8]) -> bool
    requires { 12 ≤ length octets.now }
    ensures exact { result ≡ is_framed order octets.now }
    ensures least { result ≡ true → 12 ≤ word_in order octets.now 4 }
    ensures within { result ≡ true → word_in order octets.now 4 ≤ length octets.now }
{
    let len = order.u32_at(octets, 4);
    len >= 12
        && len % 4 == 0
        && len as usize <= octets.len()
        && order.u32_at(octets, len as usize - 4) == len
}

// ---- what is in it

#[tactic(auto, unfolding(crate::specs::Blocks::saying_of))]
fn content_of<'a>(interfaces: &[Interface], block: &Block<'a>) -> Option<Content<'a>>
    ensures { option_map as_saying result ≡ saying_of interfaces.now (as_block block.now) }
{
    if block.kind == SECTION_HEADER {
        return section_in(block);
    }
    if block.kind == INTERFACE {
        return interface_in(block);
    }
    if block.kind == ENHANCED_PACKET {
        return enhanced_in(interfaces, block);
    }
    if block.kind == OLD_PACKET {
        return old_in(interfaces, block);
    }
    if block.kind == SIMPLE_PACKET {
        return simple_in(interfaces, block);
    }
    Some(Content::Other)
}

#[tactic(auto, unfolding(crate::specs::Blocks::section_in))]
fn section_in<'a>(block: &Block<'a>) -> Option<Content<'a>>
    ensures { option_map as_saying result ≡ section_in (as_block block.now) }
{
    if block.body.len() >= 16 && block.order.u16_at(block.body, 4) == 1 {
        return Some(Content::Section);
    }
    None
}

#[tactic(auto, unfolding(crate::specs::Blocks::interface_in))]
fn interface_in<'a>(block: &Block<'a>) -> Option<Content<'a>>
    ensures { option_map as_saying result ≡ interface_in (as_block block.now) }
{
    if block.body.len() < 8 {
        return None;
    }
    Some(Content::Named(Interface {
        link: block.order.u16_at(block.body, 0),
        snap_len: block.order.u32_at(block.body, 4),
    }))
}

// A packet whose interface is told in 32 bits.
#[tactic(auto, unfolding(crate::specs::Blocks::packet_in))]
fn enhanced_in<'a>(interfaces: &[Interface], block: &Block<'a>) -> Option<Content<'a>>
    ensures { option_map as_saying result ≡ packet_in interfaces.now (as_block block.now)
        (word_in block.now.order block.now.body.now 0) }
{
    if block.body.len() < 20 {
        return None;
    }
    let interface = interface_at(interfaces, block.order.u32_at(block.body, 0))?;
    packet_by(block, interface)
}

// A packet whose interface is told in 16 bits.
#[tactic(auto, unfolding(crate::specs::Blocks::packet_in))]
fn old_in<'a>(interfaces: &[Interface], block: &Block<'a>) -> Option<Content<'a>>
    ensures { option_map as_saying result ≡ packet_in interfaces.now (as_block block.now)
        (short_in block.now.order block.now.body.now 0) }
{
    if block.body.len() < 20 {
        return None;
    }
    let interface = interface_at(interfaces, u32::from(block.order.u16_at(block.body, 0)))?;
    packet_by(block, interface)
}

fn interface_at(interfaces: &[Interface], number: u32) -> Option<Interface>
    ensures { result ≡ slice_get interfaces.now number }
{
    interfaces.get(number as usize).copied()
}

#[tactic(auto, unfolding(crate::specs::Blocks::packet_by))]
fn packet_by<'a>(block: &Block<'a>, interface: Interface) -> Option<Content<'a>>
    requires { 20 ≤ length block.now.body.now }
    ensures { option_map as_saying result ≡ packet_by (as_block block.now) interface }
{
    let held = block.order.u32_at(block.body, 12);
    let told = block.order.u32_at(block.body, 16);
    let packet = captured(interface.link, held, told, rest_from(block.body, 20))?;
    Some(Content::Packet(packet))
}

#[tactic(auto, unfolding(crate::specs::Blocks::simple_in))]
fn simple_in<'a>(interfaces: &[Interface], block: &Block<'a>) -> Option<Content<'a>>
    ensures { option_map as_saying result ≡ simple_in interfaces.now (as_block block.now) }
{
    if block.body.len() < 4 {
        return None;
    }
    let interface = interface_at(interfaces, 0)?;
    simple_by(block, interface)
}

#[tactic(auto, unfolding(crate::specs::Blocks::simple_by))]
fn simple_by<'a>(block: &Block<'a>, interface: Interface) -> Option<Content<'a>>
    requires { 4 ≤ length block.now.body.now }
    ensures { option_map as_saying result ≡ simple_by (as_block block.now) interface }
{
    let len = block.order.u32_at(block.body, 0);
    let held = held_by(interface.snap_len, len);
    let packet = captured(interface.link, held, len, rest_from(block.body, 4))?;
    Some(Content::Packet(packet))
}

fn held_by(snap_len: u32, len: u32) -> u32
    ensures { result ≡ held_by snap_len len }
{
    if snap_len == 0 {
        len
    } else {
        len.min(snap_len)
    }
}
