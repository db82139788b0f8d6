//! Which of the octets in order at a receive edge a mapping lets pass (RFC 8684, section 3.3.1).

ghost use Rattle.std.specs.Prelude.{◌≡◌, ◌≤◌, ◌<◌, ◌+◌, ◌-◌, ◌^◌, length, take, option_map, IfSome};
ghost use Rattle.std.specs.List.{concat};
ghost use Rattle.dss_checksum.specs.Checksum.{dss_checksum};
ghost use Rattle.path_store.specs.Passing.{count_in, has_its_sum, is_there, named_piece, passing_by, piece_of_order, some_piece};

use crate::places::PLACE_LIMIT;
use byte_pieces::Parts;
use dss_checksum::DssSum;
use dss_mapping::KeptMapping;
use seq_units::{Mapping, Pos};

/// Bytes that the edge can pass.
#[derive(Clone, Copy)]
pub struct InOrder {
    /// The place of the first one.
    pub place: u64,
    /// How many there are at most: as many of them as are in order.
    pub count: u64,
}

/// The checksum of a mapping and so many octets of these parts.
fn checksum_of(mapping: &Mapping, parts: Parts<'_>, count: u16) -> u16
    ensures { result ≡ dss_checksum mapping.now (take count (concat parts.entry)) }
{
    let mut sum = DssSum::new(mapping);
    let mut left = u64::from(count);
    for part in parts {
        if left == 0 {
            return sum.make();
        }
        let taken = left.min(part.len() as u64);
        sum.add(&part.as_slice()[..taken as usize]);
        left -= taken;
    }
    sum.make()
}

/// How many octets from the edge on the mapping covers, with places below 2^62.
fn count_in(edge: Pos, kept: KeptMapping) -> u64
    requires { kept.pos ≤ edge }
    ensures value { result ≡ count_in edge kept }
    ensures places { 0 < result → kept.place + (edge - kept.pos) + result ≤ 2 ^ 62 }
{
    let offset = edge - kept.pos;
    let left = u64::from(kept.octets()).saturating_sub(offset);
    left.min(PLACE_LIMIT.saturating_sub(kept.place.saturating_add(offset)))
}

/// Whether a whole mapping is there, of which some octets are: it begins at the edge, so many octets are in order from there on as
/// it names, and its places are below 2^62.
pub fn is_there(kept: KeptMapping, edge: Pos, held: u64) -> bool
    ensures { result ≡ is_there kept edge held }
{
    let octets = u64::from(kept.octets());
    kept.pos == edge
        && 0 < octets
        && octets <= held
        && kept.place.saturating_add(octets) <= PLACE_LIMIT
}

/// Whether the checksum of a mapping is that of its octets, the first of these parts, with its whole length (RFC 8684, section
/// 3.3.1).
pub fn has_its_sum(kept: KeptMapping, parts: Parts<'_>) -> bool
    ensures { result ≡ has_its_sum kept (concat parts.entry) }
{
    checksum_of(&kept.mapping, parts, kept.octets()) == kept.mapping.checksum
}

/// The octets that a mapping names of so many in order at the edge, without a look at the checksum.
fn named(kept: KeptMapping, edge: Pos, held: u64) -> Option<InOrder>
    requires { kept.pos ≤ edge }
    ensures value { (octets : _) → length octets ≡ held →
        option_map (λ found. piece_of_order found octets) result ≡
        some_piece (named_piece kept edge octets) }
    ensures places { IfSome result (λ found. found.place + found.count ≤ 2 ^ 62) }
{
    let count = count_in(edge, kept);
    if 0 < count.min(held) {
        let place = kept.place + (edge - kept.pos);
        Some(InOrder { place, count })
    } else {
        None
    }
}

/// The octets that a mapping lets pass of those in order at the edge, which are so many and stand in these parts; where checksums
/// are used only those of a whole mapping that has the right one.
pub fn passing(
    checksums: bool,
    kept: KeptMapping,
    edge: Pos,
    held: u64,
    parts: Parts<'_>,
) -> Option<InOrder>
    requires begun { kept.pos ≤ edge }
    requires all { length (concat parts) ≡ held }
    ensures value { option_map (λ found. piece_of_order found (concat parts.entry)) result ≡
        passing_by checksums kept edge (concat parts.entry) }
    ensures places { IfSome result (λ found. found.place + found.count ≤ 2 ^ 62) }
{
    if checksums && !(is_there(kept, edge, held) && has_its_sum(kept, parts)) {
        return None;
    }
    named(kept, edge, held)
}
