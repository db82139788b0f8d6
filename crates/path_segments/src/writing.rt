//! The octets of a segment, and their checksum field.

ghost use Rattle.std.specs.Prelude.{◌≡◌, ◌+◌, ◌^◌, ◌≤◌, ◌++◌, length, All, IfOk};
ghost use Rattle.std.specs.List.{flat_map};
ghost use Rattle.mptcp_options.specs.Text.{option_text};
ghost use Rattle.path_segments.specs.Options.{said_option};
ghost use Rattle.path_segments.specs.Spelled.{plain, spelled_head, syn_text, options_text, padded, unpadded_options, window_field, spelled_text, spelled_sum, CanSay, CanSayOption};

use crate::segment::{SaidOption, SaidSegment};
use crate::spelling::Spelling;
use arrayvec::ArrayVec;
use mptcp_options::octets_of;
use segment_wire::{Head, addresses_from, checksum_field, port_of};
use sides::Side;
use std::alloc::{AllocError, Global};

/// The octets of the options of a segment, of which there are at most 40 (RFC 9293, section 3.1).
type Options = ArrayVec<u8, 40>;

/// The octets of a segment that a side sends. Allocates once.
///
/// # Errors
///
/// Only where there is no memory for the octets.
#[tactic(auto, unfolding(crate::specs::Spelled::spelled))]
pub fn write(
    alloc: Global,
    spelling: &Spelling,
    from: Side,
    segment: &SaidSegment<'_>,
) -> Result<Vec<u8>, AllocError>
    requires { CanSay spelling.now from (plain segment.now) }
    ensures { IfOk result (λ octets. octets.items ≡
        spelled_text spelling.now from (plain segment.now)) }
{
    segment_wire::write(
        alloc,
        &spelled_head(spelling, from, segment),
        &addresses_from(spelling.path, from),
        spelled_options(spelling, from, segment).as_slice(),
        segment.payload,
    )
}

/// The checksum field of the octets that [`write`] makes, without making them. Takes no memory.
#[tactic(auto, unfolding(crate::specs::Spelled::spelled))]
pub fn sum(spelling: &Spelling, from: Side, segment: &SaidSegment<'_>) -> u16
    requires { CanSay spelling.now from (plain segment.now) }
    ensures { result ≡ spelled_sum spelling.now from (plain segment.now) }
{
    checksum_field(
        &spelled_head(spelling, from, segment),
        &addresses_from(spelling.path, from),
        spelled_options(spelling, from, segment).as_slice(),
        segment.payload,
    )
}

/// The header of a segment, as its octets have it: ports and numbers of its path, flags, and the window field.
fn spelled_head(spelling: &Spelling, from: Side, segment: &SaidSegment<'_>) -> Head
    requires window { segment.now.window ≤ 2 ^ 20 }
    ensures { result ≡ spelled_head spelling.now from (plain segment.now) }
{
    Head {
        source_port: port_of(spelling.path, from),
        destination_port: port_of(spelling.path, from.peer()),
        seq: spelling.subflow_number(from, segment.position),
        ack: match segment.acknowledged {
            None => 0,
            Some(position) => spelling.subflow_number(from.peer(), position),
        },
        syn: segment.syn,
        fin: segment.fin,
        rst: segment.rst,
        ack_set: segment.acknowledged.is_some(),
        window: window_field(segment.syn, segment.window),
    }
}

/// The window field: that of a SYN in octets, 65,535 at most, and of all others in units of 32 octets (RFC 7323, section 2.2).
fn window_field(syn: bool, window: u32) -> u16
    requires { window ≤ 2 ^ 20 }
    ensures { result ≡ window_field syn window }
{
    if syn {
        window.min(65_535) as u16
    } else {
        (window / 32) as u16
    }
}

/// The options as they stand in the octets, zeros behind them.
fn spelled_options(spelling: &Spelling, from: Side, segment: &SaidSegment<'_>) -> Options
    requires { CanSay spelling.now from (plain segment.now) }
    ensures { result.items ≡ padded (unpadded_options spelling.now from (plain segment.now)) }
{
    let mut octets = syn_octets(segment.mss);
    put_options(&mut octets, spelling, from, segment.options);
    pad(&mut octets);
    octets
}

/// The options of TCP that a SYN has: the maximum segment size, and a window scale of 5; none of a segment without the first.
fn syn_octets(mss: Option<u16>) -> Options
    ensures { result.items ≡ syn_text mss }
{
    let mut octets = Options::new();
    if let Some(mss) = mss {
        let [high, low] = mss.to_be_bytes();
        // Maximum segment size (kind 2, 4 octets), window scale (kind 3, 3 octets) of 5, one no-operation (kind 1).
        put(&mut octets, &[2, 4, high, low, 3, 3, 5, 1]);
    }
    octets
}

/// Puts the octets of options of Multipath TCP behind others, in their order.
fn put_options(octets: &mut Options, spelling: &Spelling, from: Side, options: &[SaidOption])
    requires can { All (CanSayOption spelling.now from) options.now }
    requires room { length
        (octets.old.items ++ options_text spelling.now from options.now) ≤ 40 }
    ensures { octets.new.items ≡
        octets.old.items ++ options_text spelling.now from options.now }
{
    for option in options {
        let said = octets_of(&spelling.said_option(from, option), spelling.checksums);
        put(octets, said.as_slice());
    }
}

/// Fills up with zeros to a multiple of four octets.
fn pad(octets: &mut Options)
    requires { length octets.old.items ≤ 40 }
    ensures { octets.new.items ≡ padded octets.old.items }
{
    let zeros = (4 - octets.len() % 4) % 4;
    put(octets, &[0; 3][..zeros]);
}

/// Puts octets behind others, where there is room for them.
fn put(octets: &mut Options, piece: &[u8])
    requires { length octets.old.items + length piece.now ≤ 40 }
    ensures { octets.new.items ≡ octets.old.items ++ piece.now }
{
    octets.try_extend_from_slice(piece).unwrap();
}
