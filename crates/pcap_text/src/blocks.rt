//! Blocks of a capture.

ghost use Rattle.std.specs.Prelude.{◌≡◌, ◌+◌, ◌^◌, ◌<◌, ◌++◌, length, IfOk, OnOk};
ghost use Rattle.pcap_text.specs.Blocks.{Section, Interface, Packet, CanRecord, block_text, block_with, end_of_options, flags_of, interface_body, option_text, packet_body, padded, section_body};

use std::alloc::{AllocError, Global};

/// Which way a packet went.
#[derive(Clone, Copy)]
pub enum Direction {
    Outbound,
    Inbound,
}

/// Where and when a packet was seen, and which way it went.
#[derive(Clone, Copy)]
pub struct Seen {
    /// The interface, counted from 0 in the order of their blocks.
    pub interface: u32,
    pub millisecond: u64,
    pub direction: Direction,
}

// Types of blocks (section 4), and codes of options (sections 3.5, 4.2 and 4.3).
const SECTION_HEADER: u32 = 0x0A0D_0D0A;

const INTERFACE_DESCRIPTION: u32 = 1;

const ENHANCED_PACKET: u32 = 6;

const COMMENT: u16 = 1;

const INTERFACE_NAME: u16 = 2;

const FLAGS: u16 = 2;

const TIME_RESOLUTION: u16 = 9;

const END_OF_OPTIONS: [u8; 4] = [0; 4];

/// The octets of the block that begins a capture (section 4.1).
///
/// # Errors
///
/// Only where there is no memory for the octets; so in [`interface`] and [`packet`].
pub fn section(alloc: Global) -> Result<Vec<u8>, AllocError>
    ensures { IfOk result (λ octets. octets.items ≡ block_text Section) }
{
    let mut body = Vec::with_capacity(alloc, 16)?;
    body.extend_from_slice(&0x1A2B_3C4D_u32.to_be_bytes())?;
    body.extend_from_slice(&1_u16.to_be_bytes())?;
    body.extend_from_slice(&0_u16.to_be_bytes())?;
    body.extend_from_slice(&u64::MAX.to_be_bytes())?;
    block_with(alloc, SECTION_HEADER, &body)
}

/// The octets of the block that names an interface for raw IPv4 packets, whose times are in milliseconds; the name has
/// fewer than 2^16 octets (section 4.2).
pub fn interface(alloc: Global, name: &str) -> Result<Vec<u8>, AllocError>
    requires { length name.now < 2 ^ 16 }
    ensures { IfOk result (λ octets. octets.items ≡ block_text (Interface name.now)) }
{
    let mut body = Vec::with_capacity(alloc, 28 + name.len())?;
    body.extend_from_slice(&228_u16.to_be_bytes())?;
    body.extend_from_slice(&0_u16.to_be_bytes())?;
    body.extend_from_slice(&0_u32.to_be_bytes())?;
    put_option(&mut body, INTERFACE_NAME, name.as_bytes())?;
    put_option(&mut body, TIME_RESOLUTION, &[3])?;
    body.extend_from_slice(&END_OF_OPTIONS)?;
    block_with(alloc, INTERFACE_DESCRIPTION, &body)
}

/// The octets of the block of a packet, of fewer than 2^31 octets, with a comment of fewer than 2^16 (section 4.3).
pub fn packet(
    alloc: Global,
    seen: &Seen,
    octets: &[u8],
    comment: &str,
) -> Result<Vec<u8>, AllocError>
    requires octets { length octets.now < 2 ^ 31 }
    requires comment { length comment.now < 2 ^ 16 }
    ensures { IfOk result (λ block. block.items ≡
        block_text (Packet seen.now octets.now comment.now)) }
{
    let body = packet_body(alloc, seen, octets, comment)?;
    block_with(alloc, ENHANCED_PACKET, &body)
}

// What is in the block of a packet.
fn packet_body(
    alloc: Global,
    seen: &Seen,
    octets: &[u8],
    comment: &str,
) -> Result<Vec<u8>, AllocError>
    requires octets { length octets.now < 2 ^ 31 }
    requires comment { length comment.now < 2 ^ 16 }
    ensures { IfOk result (λ body. body.items ≡ packet_body seen.now octets.now comment.now) }
{
    let len = octets.len() as u32;
    let mut body = Vec::with_capacity(alloc, 48 + octets.len() + comment.len())?;
    body.extend_from_slice(&seen.interface.to_be_bytes())?;
    body.extend_from_slice(&seen.millisecond.to_be_bytes())?;
    body.extend_from_slice(&len.to_be_bytes())?;
    body.extend_from_slice(&len.to_be_bytes())?;
    put_padded(&mut body, octets)?;
    put_option(&mut body, COMMENT, comment.as_bytes())?;
    put_option(&mut body, FLAGS, &flags_of(seen.direction).to_be_bytes())?;
    body.extend_from_slice(&END_OF_OPTIONS)?;
    Ok(body)
}

fn flags_of(direction: Direction) -> u32
    ensures { result ≡ flags_of direction }
{
    match direction {
        Direction::Inbound => 1,
        Direction::Outbound => 2,
    }
}

// A block of this type: how long it is stands before and behind what is in it (section 3.1).
fn block_with(alloc: Global, kind: u32, body: &[u8]) -> Result<Vec<u8>, AllocError>
    requires { length body.now + 12 < 2 ^ 32 }
    ensures { IfOk result (λ octets. octets.items ≡ block_with kind body.now) }
{
    let len = (body.len() as u32 + 12).to_be_bytes();
    let mut octets = Vec::with_capacity(alloc, body.len() + 12)?;
    octets.extend_from_slice(&kind.to_be_bytes())?;
    octets.extend_from_slice(&len)?;
    octets.extend_from_slice(body)?;
    octets.extend_from_slice(&len)?;
    Ok(octets)
}

// Puts an option behind what stands (section 3.5).
fn put_option(body: &mut Vec<u8>, code: u16, value: &[u8]) -> Result<(), AllocError>
    requires { length value.now < 2 ^ 16 }
    ensures { OnOk result (body.new.items ≡ body.old.items ++ option_text code value.now) }
{
    body.extend_from_slice(&code.to_be_bytes())?;
    body.extend_from_slice(&(value.len() as u16).to_be_bytes())?;
    put_padded(body, value)
}

// Puts octets behind what stands, and zeros up to a multiple of four of them.
fn put_padded(body: &mut Vec<u8>, octets: &[u8]) -> Result<(), AllocError>
    requires { length octets.now < 2 ^ 31 }
    ensures { OnOk result (body.new.items ≡ body.old.items ++ padded octets.now) }
{
    body.extend_from_slice(octets)?;
    let padding = (4 - octets.len() % 4) % 4;
    body.resize(body.len() + padding, 0)
}
