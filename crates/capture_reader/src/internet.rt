//! The TCP segment that an IP packet carries (RFC 791, section 3.1; RFC 8200, sections 3 and 4).

ghost use Rattle.std.specs.Prelude.{◌≡◌, ℕ, ◌+◌, ◌<◌, ◌≤◌, length, option_map, slice_range, take, drop, true, IfSome};
ghost use Rattle.key_material.specs.Address.{octets_of};
ghost use Rattle.segment_wire.specs.Between.{IsAddress};
ghost use Rattle.octet_text.specs.Octets.{octet};
ghost use Rattle.capture_reader.specs.Internet.{header_len, carries_tcp, size_behind_header, carried_by_4, is_extension, behind_extensions, size_behind, carried_by_6, carried_by};
ghost use Rattle.capture_reader.specs.Carried.{as_carried, behind_next};

use crate::order::{rest_from, u16_at};
use key_material::Address;

// The number of TCP among the protocols.
const TCP: u8 = 6;

// How many octets the fixed headers have.
const HEADER_4: usize = 20;

const HEADER_6: usize = 40;

// More fragments follow, and the offset of this one.
const FRAGMENT: u16 = 0x3FFF;

/// What an IP packet carries.
#[derive(Clone, Copy)]
pub struct Carried<'a> {
    pub source: Address,
    pub destination: Address,
    /// How many octets it has by the length of the packet.
    pub size: usize,
    /// Those that are held.
    pub octets: &'a [u8],
}

/// The TCP segment that an IP packet carries whole, if it is one: neither a fragment, nor of another protocol.
#[tactic(auto, unfolding(crate::specs::Internet::carried_by))]
pub fn carried_by(packet: &[u8]) -> Option<Carried<'_>>
    ensures { option_map as_carried result ≡ carried_by packet.now }
{
    if packet.is_empty() {
        return None;
    }
    if packet[0] >> 4 == 4 {
        return carried_by_4(packet);
    }
    if packet[0] >> 4 == 6 {
        return carried_by_6(packet);
    }
    None
}

/// The 4 or 16 octets of an address, in the order of the network.
pub fn octets_of(address: &Address) -> &[u8]
    ensures octets { result.now ≡ octets_of address.now }
    ensures address { IsAddress result.now }
{
    match address {
        Address::V4(octets) => octets,
        Address::V6(octets) => octets,
    }
}

// ---- IPv4

#[tactic(auto, unfolding(crate::specs::Internet::carried_by_4))]
fn carried_by_4(packet: &[u8]) -> Option<Carried<'_>>
    ensures { option_map as_carried result ≡ carried_by_4 packet.now }
{
    if !carries_tcp(packet) {
        return None;
    }
    let size = size_behind_header(packet);
    let held = rest_from(packet, header_len(packet));
    Some(Carried {
        source: Address::V4(four_at(packet, 12)),
        destination: Address::V4(four_at(packet, 16)),
        size,
        octets: &held[..size.min(held.len())],
    })
}

fn header_len(packet: &[u8]) -> usize
    requires { 1 ≤ length packet.now }
    ensures { result ≡ header_len packet.now }
{
    4 * usize::from(packet[0] % 16)
}

#[tactic(auto, unfolding(crate::specs::Internet::carries_tcp))]
fn carries_tcp(packet: &[u8]) -> bool
    ensures exact { result ≡ carries_tcp packet.now }
    ensures held { result ≡ true → 20 ≤ length packet.now }
    ensures header { result ≡ true → header_len packet.now ≤ length packet.now }
{
    packet.len() >= HEADER_4
        && header_len(packet) >= HEADER_4
        && header_len(packet) <= packet.len()
        && packet[9] == TCP
        && u16_at(packet, 6) & FRAGMENT == 0
}

#[tactic(auto, unfolding(crate::specs::Internet::size_behind_header))]
fn size_behind_header(packet: &[u8]) -> usize
    requires { 20 ≤ length packet.now }
    ensures { result ≡ size_behind_header packet.now }
{
    let total = usize::from(u16_at(packet, 2));
    let end = if total == 0 { packet.len() } else { total };
    end.saturating_sub(header_len(packet))
}

fn four_at(packet: &[u8], place: usize) -> [u8; 4]
    requires { place + 4 ≤ length packet.now }
    ensures { result ≡ slice_range packet.now place (place + 4) }
{
    *packet[place..].first_chunk().unwrap()
}

// ---- IPv6

#[tactic(auto, unfolding(crate::specs::Internet::carried_by_6))]
fn carried_by_6(packet: &[u8]) -> Option<Carried<'_>>
    ensures { option_map as_carried result ≡ carried_by_6 packet.now }
{
    if packet.len() < HEADER_6 {
        return None;
    }
    let payload = rest_from(packet, HEADER_6);
    let held = behind_extensions(packet[6], payload)?;
    let size = size_behind(u16_at(packet, 4), payload, held);
    Some(Carried {
        source: Address::V6(sixteen_at(packet, 8)),
        destination: Address::V6(sixteen_at(packet, 24)),
        size,
        octets: &held[..size.min(held.len())],
    })
}

// The octets behind all extension headers, where TCP follows.
fn behind_extensions(first: u8, payload: &[u8]) -> Option<&[u8]>
    ensures { option_map (λ held. held.now) result ≡ behind_extensions first 0 payload.now }
{
    let mut kind = first;
    let mut rest = payload;
    while is_extension(kind) {
        let (next, others) = split_extension(rest)?;
        kind = next;
        rest = others;
    }
    if kind == TCP { Some(rest) } else { None }
}

// The type of what follows an extension header, and the octets behind it, if it is whole.
fn split_extension(octets: &[u8]) -> Option<(u8, &[u8])>
    ensures follows { (kind : ℕ) → is_extension kind ≡ true
        → behind_extensions kind 0 octets.now ≡ behind_next result }
    ensures shorter { IfSome result (λ next. length next.1.now < length octets.now) }
{
    if octets.len() < 8 {
        return None;
    }
    let len = 8 + 8 * usize::from(octets[1]);
    if octets.len() < len {
        return None;
    }
    Some((octets[0], rest_from(octets, len)))
}

fn is_extension(kind: u8) -> bool
    ensures { result ≡ is_extension kind }
{
    kind == 0 || kind == 43 || kind == 60
}

#[tactic(auto, unfolding(crate::specs::Internet::size_behind))]
fn size_behind(payload_len: u16, payload: &[u8], held: &[u8]) -> usize
    ensures { result ≡ size_behind payload_len payload.now held.now }
{
    let told = usize::from(payload_len);
    let all = if told == 0 { payload.len() } else { told };
    all.saturating_sub(payload.len().saturating_sub(held.len()))
}

fn sixteen_at(packet: &[u8], place: usize) -> [u8; 16]
    requires { place + 16 ≤ length packet.now }
    ensures { result ≡ take 16 (drop place packet.now) }
{
    *packet[place..].first_chunk().unwrap()
}
