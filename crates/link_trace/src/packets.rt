//! A capture in the pcapng format: an interface for each path, a packet for each segment.

ghost use Rattle.std.specs.Prelude.{◌≡◌, ◌^◌, ◌<◌, ◌≤◌, ◌++◌, length, take, map, IfOk, OnOk, codes, string_bytes};
ghost use Rattle.std.specs.Fmt.{decimal};
ghost use Rattle.std.specs.List.{flat_map};
ghost use Rattle.link_model.specs.Fate.{ticks_of};
ghost use Rattle.pcap_text.specs.Blocks.{Interface, block_text, capture_text};
ghost use Rattle.link_trace.specs.Captures.{blocks_of, direction_at, interfaces, ipv4_packet, packet_of, segment_len};
ghost use Rattle.link_trace.specs.Fates.{fate_words};

use crate::fate::put_fate;
use crate::sent::Sent;
use link_model::{Fate, SegmentFate};
use pcap_text::{Direction, Seen, header, interface, packet, section};
use segment_wire::addresses_from;
use sides::Side;
use std::alloc::{AllocError, Global};

/// As this side sees it.
fn direction_at(side: Side, from: Side) -> Direction
    ensures { result ≡ direction_at side from }
{
    if from == side {
        Direction::Outbound
    } else {
        Direction::Inbound
    }
}

/// The octets of a segment, at most 65,515.
fn segment_of(sent: &Sent) -> &[u8]
    ensures value { result.now ≡ take (segment_len sent.now) sent.now.octets }
    ensures len { length result.now ≡ segment_len sent.now }
    ensures most { length result.now ≤ 65515 }
{
    let octets = sent.octets.as_bytes();
    let len = octets.len().min(65_515);
    &octets[..len]
}

/// The IPv4 packet of a segment.
fn ipv4_packet(alloc: Global, sent: &Sent) -> Result<Vec<u8>, AllocError>
    ensures octets { IfOk result (λ octets. octets.items ≡ ipv4_packet sent.now) }
    ensures most { IfOk result (λ octets. length octets.items < 2 ^ 31) }
{
    let addresses = addresses_from(sent.path, sent.from);
    let segment = segment_of(sent);
    let header = header(
        addresses.source,
        addresses.destination,
        segment.len() as u16,
    );
    let mut octets = Vec::from_slice(alloc, &header)?;
    octets.extend_from_slice(segment)?;
    Ok(octets)
}

/// The ticks of an arrival and of a wait are numbers of 32 bits.
fn look_at(waited: u32, arrival: Fate) -> bool
    ensures waited { waited < 2 ^ 32 }
    ensures ticks { ticks_of arrival < 2 ^ 32 }
{
    match arrival {
        Fate::OnTime | Fate::Lost | Fate::Full => 0 < waited,
        Fate::Late { ticks } | Fate::Twice { ticks } => 0 < ticks,
    }
}

/// A fate in words.
#[tactic(auto, using(crate::proofs::Short::fate_short))]
fn comment_of(alloc: Global, fate: &SegmentFate) -> Result<String, AllocError>
    ensures text { IfOk result (λ comment. string_bytes comment ≡ fate_words fate.now) }
    ensures short { IfOk result (λ comment. length (string_bytes comment) < 2 ^ 16) }
{
    // For the proof: the ticks are a number of 32 bits.
    let _some = look_at(fate.waited, fate.arrival);
    let mut comment = String::new(alloc);
    put_fate(&mut comment, fate)?;
    Ok(comment)
}

/// The block of a segment, with its fate as comment.
fn packet_of(alloc: Global, side: Side, sent: &Sent) -> Result<Vec<u8>, AllocError>
    ensures { IfOk result (λ block. block.items ≡ block_text (packet_of side sent.now)) }
{
    let seen = Seen {
        interface: u32::from(sent.path),
        millisecond: sent.tick,
        direction: direction_at(side, sent.from),
    };
    let comment = comment_of(alloc, &sent.fate)?;
    let octets = ipv4_packet(alloc, sent)?;
    packet(alloc, &seen, &octets, comment.as_str())
}

/// The name of a path's interface.
#[tactic(auto, using(crate::proofs::Short::name_short))]
fn name_of(alloc: Global, path: usize) -> Result<String, AllocError>
    ensures text { IfOk result (λ name. string_bytes name ≡ codes "path " ++ decimal path) }
    ensures short { IfOk result (λ name. length (string_bytes name) < 2 ^ 16) }
{
    format!(in alloc; "path {path}")
}

/// The block that names a path.
fn interface_of(alloc: Global, path: usize) -> Result<Vec<u8>, AllocError>
    ensures { IfOk result (λ block. block.items ≡
        block_text (Interface (codes "path " ++ decimal path))) }
{
    let name = name_of(alloc, path)?;
    interface(alloc, name.as_str())
}

fn put_interface(alloc: Global, capture: &mut Vec<u8>, path: usize) -> Result<(), AllocError>
    ensures { OnOk result (capture.new.items ≡
        capture.old.items ++ block_text (Interface (codes "path " ++ decimal path))) }
{
    let block = interface_of(alloc, path)?;
    capture.extend_from_slice(&block)
}

/// Puts the blocks that name the paths.
fn put_interfaces(alloc: Global, capture: &mut Vec<u8>, paths: usize) -> Result<(), AllocError>
    ensures { OnOk result (capture.new.items ≡
        capture.old.items ++ capture_text (interfaces paths 0)) }
{
    for path in 0..paths {
        put_interface(alloc, capture, path)?;
    }
    Ok(())
}

fn put_packet(
    alloc: Global,
    capture: &mut Vec<u8>,
    side: Side,
    sent: &Sent,
) -> Result<(), AllocError>
    ensures { OnOk result (capture.new.items ≡
        capture.old.items ++ block_text (packet_of side sent.now)) }
{
    let block = packet_of(alloc, side, sent)?;
    capture.extend_from_slice(&block)
}

/// Puts the blocks of the segments.
fn put_packets(
    alloc: Global,
    capture: &mut Vec<u8>,
    side: Side,
    trace: &[Sent],
) -> Result<(), AllocError>
    ensures { OnOk result (capture.new.items ≡
        capture.old.items ++ flat_map (λ s. block_text (packet_of side s)) trace.now) }
{
    for sent in trace {
        put_packet(alloc, capture, side, sent)?;
    }
    Ok(())
}

/// The capture of a trace over so many paths: outbound is what this side sends.
#[tactic(auto, using(crate::proofs::Parts::captured_then, crate::proofs::Parts::captured_each))]
pub fn capture(
    alloc: Global,
    side: Side,
    paths: usize,
    trace: &[Sent],
) -> Result<Vec<u8>, AllocError>
    ensures { IfOk result (λ octets. octets.items ≡ capture_text (blocks_of side paths trace.now)) }
{
    let mut capture = section(alloc)?;
    put_interfaces(alloc, &mut capture, paths)?;
    put_packets(alloc, &mut capture, side, trace)?;
    Ok(capture)
}
