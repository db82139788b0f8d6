//! What stands before an IP packet, by link type.

ghost use Rattle.std.specs.Prelude.{◌≡◌, ℕ, ◌+◌, ◌<◌, ◌≤◌, length, option_map, true, IfSome};
ghost use Rattle.capture_reader.specs.Carried.{behind_tag};
ghost use Rattle.capture_reader.specs.Link.{is_raw, is_tag, is_internet, behind_tags, behind_header, internet_packet};

use crate::order::{rest_from, u16_at};

// Link types (the registry of the tcpdump group).
const ETHERNET: u16 = 1;

const LINUX_COOKED: u16 = 113;

const LINUX_COOKED_2: u16 = 276;

/// The octets of the IP packet that a packet of this link type carries, if it carries one.
#[tactic(auto, unfolding(crate::specs::Link::internet_packet))]
pub fn internet_packet(link: u16, octets: &[u8]) -> Option<&[u8]>
    ensures { option_map (λ packet. packet.now) result ≡ internet_packet link octets.now }
{
    if is_raw(link) {
        return Some(octets);
    }
    if link == ETHERNET {
        return behind_header(12, 14, octets);
    }
    if link == LINUX_COOKED {
        return behind_header(14, 16, octets);
    }
    if link == LINUX_COOKED_2 {
        return behind_header(0, 20, octets);
    }
    None
}

// Whether the link type is raw IP, by one of its numbers.
fn is_raw(link: u16) -> bool
    ensures { result ≡ is_raw link }
{
    link == 12 || link == 14 || link == 101 || link == 228 || link == 229
}

// Behind a header of so many octets, whose type field stands at this place.
#[tactic(auto, unfolding(crate::specs::Link::behind_header))]
fn behind_header(place: usize, len: usize, octets: &[u8]) -> Option<&[u8]>
    requires { place + 2 ≤ len }
    ensures { option_map (λ packet. packet.now) result ≡ behind_header place len octets.now }
{
    if octets.len() < len {
        return None;
    }
    behind_tags(u16_at(octets, place), rest_from(octets, len))
}

// Behind a type field and any tags.
fn behind_tags(first: u16, octets: &[u8]) -> Option<&[u8]>
    ensures { option_map (λ packet. packet.now) result ≡ behind_tags first octets.now }
{
    let mut kind = first;
    let mut rest = octets;
    while is_tag(kind) {
        let (next, others) = split_tag(rest)?;
        kind = next;
        rest = others;
    }
    if is_internet(kind) { Some(rest) } else { None }
}

// The type that a tag tells of what follows it, and the octets behind it, if it is whole. The octets begin behind its own type.
fn split_tag(octets: &[u8]) -> Option<(u16, &[u8])>
    ensures follows { (kind : ℕ) → is_tag kind ≡ true → behind_tags kind octets.now ≡
        behind_tag result }
    ensures shorter { IfSome result (λ next. length next.1.now < length octets.now) }
{
    if octets.len() < 4 {
        return None;
    }
    Some((u16_at(octets, 2), rest_from(octets, 4)))
}

fn is_tag(kind: u16) -> bool
    ensures { result ≡ is_tag kind }
{
    kind == 0x8100 || kind == 0x88A8 || kind == 0x9100
}

fn is_internet(kind: u16) -> bool
    ensures { result ≡ is_internet kind }
{
    kind == 0x0800 || kind == 0x86DD
}
