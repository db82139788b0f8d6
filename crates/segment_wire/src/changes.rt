//! Two changes that a path can make to a segment on its way, on its octets.

ghost use Rattle.std.specs.Prelude.{◌≡◌, not, filter, IfOk, OnOk};
ghost use Rattle.segment_wire.specs.Options.{option_octets};
ghost use Rattle.segment_wire.specs.Changes.{is_multipath, stripped, altered, packed, padded, with_turned_bit, text_stripped, text_altered};
ghost use Rattle.segment_wire.specs.Reading.{segment_of};
ghost use Rattle.segment_wire.specs.Segment.{CanWrite, segment_text};

use crate::head::Addresses;
use crate::reading::{SegmentRef, parse};
use crate::writing::write;
use std::alloc::{AllocError, Global};

/// The kind of the options of Multipath TCP (RFC 8684, section 3).
const MULTIPATH: u8 = 30;

/// The octets of a segment that went between these addresses, without its options of kind 30: the other ones are packed
/// and padded anew, and the checksum is made anew. Octets that `parse` refuses stay as they are.
///
/// # Errors
///
/// Only where there is no memory for the octets.
#[tactic(auto, unfolding(crate::specs::Changes::text_stripped))]
pub fn strip(alloc: Global, octets: &[u8], addresses: &Addresses) -> Result<Vec<u8>, AllocError>
    ensures { IfOk result (λ changed. changed.items ≡ text_stripped addresses.now octets.now) }
{
    match parse(octets, addresses) {
        Ok(segment) => write_stripped(alloc, &segment, addresses),
        Err(_) => Vec::from_slice(alloc, octets),
    }
}

/// The octets of a segment that went between these addresses, with the lowest bit of the first payload octet turned and
/// the checksum made anew. A segment without payload is written again. Octets that `parse` refuses stay as they are.
///
/// # Errors
///
/// Only where there is no memory for the octets.
#[tactic(auto, unfolding(crate::specs::Changes::text_altered))]
pub fn alter(alloc: Global, octets: &[u8], addresses: &Addresses) -> Result<Vec<u8>, AllocError>
    ensures { IfOk result (λ changed. changed.items ≡ text_altered addresses.now octets.now) }
{
    match parse(octets, addresses) {
        Ok(segment) => write_altered(alloc, &segment, addresses),
        Err(_) => Vec::from_slice(alloc, octets),
    }
}

#[tactic(auto, using(crate::proofs::Changed::others_can_be_carried))]
fn write_stripped(
    alloc: Global,
    segment: &SegmentRef<'_>,
    addresses: &Addresses,
) -> Result<Vec<u8>, AllocError>
    requires { CanWrite (segment_of segment.now) }
    ensures { IfOk result (λ octets. octets.items ≡
        segment_text addresses.now (stripped (segment_of segment.now))) }
{
    let mut options = kept_options(alloc, segment)?;
    pad(&mut options)?;
    write(alloc, &segment.head, addresses, &options, segment.payload())
}

fn write_altered(
    alloc: Global,
    segment: &SegmentRef<'_>,
    addresses: &Addresses,
) -> Result<Vec<u8>, AllocError>
    requires { CanWrite (segment_of segment.now) }
    ensures { IfOk result (λ octets. octets.items ≡
        segment_text addresses.now (altered (segment_of segment.now))) }
{
    let mut payload = Vec::from_slice(alloc, segment.payload())?;
    turn_bit(&mut payload);
    write(alloc, &segment.head, addresses, segment.options, &payload)
}

/// The options but those of Multipath TCP, one after the other.
fn kept_options(alloc: Global, segment: &SegmentRef<'_>) -> Result<Vec<u8>, AllocError>
    ensures { IfOk result (λ kept. kept.items ≡
        packed
        (filter (λ option. not (is_multipath option))
        (option_octets (segment_of segment.now).options))) }
{
    let mut kept = Vec::with_capacity(alloc, 40)?;
    for option in segment.options() {
        if !is_multipath(option) {
            kept.extend_from_slice(option)?;
        }
    }
    Ok(kept)
}

fn is_multipath(option: &[u8]) -> bool
    ensures { result ≡ is_multipath option.now }
{
    match option {
        [] => false,
        [kind, ..] => *kind == MULTIPATH,
    }
}

/// Appends zeros up to a multiple of four octets.
fn pad(options: &mut Vec<u8>) -> Result<(), AllocError>
    ensures { OnOk result (options.new.items ≡ padded options.old.items) }
{
    let missing = (4 - options.len() % 4) % 4;
    options.extend_from_slice(&[0; 3][..missing])
}

fn turn_bit(payload: &mut [u8])
    ensures { payload.new ≡ with_turned_bit payload.old }
{
    if let [first, ..] = payload {
        *first ^= 1;
    }
}
