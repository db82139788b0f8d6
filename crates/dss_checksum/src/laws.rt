//! What a checksum shows, whatever the mapping and its data.

ghost use Rattle.dss_checksum.specs.Laws.{TurnedBitShows, TurnedHeaderBitShows};

/// Data of which exactly one bit was turned never has the checksum of the mapping.
pub fn turned_bit_shows()
    ensures { TurnedBitShows }
{}

/// Nor has data under a pseudo-header of which exactly one bit was turned.
pub fn other_mapping_shows()
    ensures { TurnedHeaderBitShows }
{}
