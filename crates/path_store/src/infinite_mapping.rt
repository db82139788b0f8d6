//! An infinite mapping.

ghost use Rattle.std.specs.Prelude.{◌≡◌, ◌<◌, ◌≤◌, ◌^◌, IfSome};
ghost use Rattle.path_store.specs.InfiniteMappings.{covers, fin_place, place_under};

use crate::places::PLACE_LIMIT;
use seq_units::Pos;

/// An infinite mapping (RFC 8684, section 3.7): the byte at this position has this place, and each byte behind it the next one.
#[derive(Clone, Copy)]
pub struct InfiniteMapping {
    pub position: Pos,
    pub place: u64,
}

/// Such a mapping is there, and begins at this position or before it.
pub fn covers(mapping: Option<InfiniteMapping>, position: Pos) -> bool
    ensures { result ≡ covers mapping position }
{
    match mapping {
        Some(mapping) => mapping.position <= position,
        None => false,
    }
}

/// The place of this position, where it is below 2^62; positions before the mapping's own have its place.
pub fn place_under(mapping: InfiniteMapping, position: Pos) -> Option<u64>
    ensures value { result ≡ place_under mapping position }
    ensures bound { IfSome result (λ place. place < 2 ^ 62) }
{
    let behind = position.saturating_sub(mapping.position);
    let place = mapping.place.saturating_add(behind);
    if place < PLACE_LIMIT {
        Some(place)
    } else {
        None
    }
}

/// The end of the peer's stream for which a FIN at this position, at most 2^62, stands (RFC 8684, section 3.7): in plain TCP the
/// place of a position is one less, under an infinite mapping that covers it that mapping's, and else a FIN stands for nothing.
pub fn fin_place(plain: bool, infinite: Option<InfiniteMapping>, position: Pos) -> Option<u64>
    requires { position ≤ 2 ^ 62 }
    ensures value { result ≡ fin_place plain infinite position }
    ensures bound { IfSome result (λ place. place < 2 ^ 62) }
{
    if plain {
        return Some(position.saturating_sub(1));
    }
    let mapping = infinite?;
    if mapping.position <= position {
        place_under(mapping, position)
    } else {
        None
    }
}
