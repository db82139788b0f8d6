//! What the SYNs of a trace tell: from which numbers those of a direction count, and how its windows are scaled.

ghost use Rattle.std.specs.Prelude.{◌≡◌};
ghost use Rattle.segment_wire.specs.Options.{option_octets};
ghost use Rattle.segment_wire.specs.Reading.{segment_of};
ghost use Rattle.link_trace.specs.Meanings.{agreed, both, first_syn, meaning_in, scale_in, syn_in, syn_of};

use crate::sent::Sent;
use segment_wire::options::window_scale;
use segment_wire::{SegmentRef, addresses_from, parse};
use sides::Side;

/// What a SYN tells.
#[derive(Clone, Copy)]
pub(crate) struct Syn {
    /// Its sequence number.
    pub number: u32,
    /// How many bits the windows of its side are shifted by, where both SYNs tell such a number (RFC 7323, section 2.2).
    pub scale: Option<u8>,
}

/// The first window scale of a segment.
fn scale_in(segment: &SegmentRef<'_>) -> Option<u8>
    ensures { result ≡ scale_in (option_octets (segment_of segment.now).options) }
{
    for option in segment.options() {
        if let Some(shift) = window_scale(option) {
            return Some(shift);
        }
    }
    None
}

/// What a segment tells, where it is a SYN.
fn syn_in(sent: &Sent) -> Option<Syn>
    ensures { result ≡ syn_in (meaning_in sent.now) }
{
    let addresses = addresses_from(sent.path, sent.from);
    match parse(sent.octets.as_bytes(), &addresses) {
        Ok(segment) if segment.head.syn => Some(Syn {
            number: segment.head.seq,
            scale: scale_in(&segment),
        }),
        _ => None,
    }
}

/// That of a SYN of this side on this path.
fn syn_of(path: u8, from: Side, sent: &Sent) -> Option<Syn>
    ensures { result ≡ syn_of path from sent.now }
{
    if sent.path == path && sent.from == from {
        syn_in(sent)
    } else {
        None
    }
}

/// What the first SYN of a side on a path tells.
pub fn first_syn(trace: &[Sent], path: u8, from: Side) -> Option<Syn>
    ensures { result ≡ first_syn path from trace.now }
{
    for sent in trace {
        if let Some(syn) = syn_of(path, from, sent) {
            return Some(syn);
        }
    }
    None
}

fn both(own: Option<u8>, peer: Option<u8>) -> Option<u8>
    ensures { result ≡ both own peer }
{
    match peer {
        None => None,
        Some(_) => own,
    }
}

/// How many bits the windows of a side are shifted by, where both SYNs tell such a number (RFC 7323, section 1.3).
pub fn agreed(own: Option<Syn>, peer: Option<Syn>) -> Option<u8>
    ensures { result ≡ agreed own peer }
{
    match (own, peer) {
        (Some(own), Some(peer)) => both(own.scale, peer.scale),
        _ => None,
    }
}
