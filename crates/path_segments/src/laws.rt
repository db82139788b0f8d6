ghost use Rattle.path_segments.specs.Laws.{IsHeardAsMeant, DiffersInOctets, StrippedIsHeardWithoutOptions, AlteredIsSaid};

/// What is written is heard as it was meant, its window as the octets tell it, wherever each position is less than 2^31
/// away from the expected one, and so is each place that is sent with four octets.
pub fn written_is_heard_as_meant()
    ensures { IsHeardAsMeant }
{}

/// Different segments that are both so near, with windows that octets can tell, have different octets.
pub fn octets_tell_the_segment()
    ensures { DiffersInOctets }
{}

/// The octets without their options of Multipath TCP are heard as the segment was meant, but for these options.
pub fn stripped_is_heard_without_options()
    ensures { StrippedIsHeardWithoutOptions }
{}

/// The octets with a bit of the first payload octet turned are those of the segment with that payload.
pub fn altered_is_said()
    ensures { AlteredIsSaid }
{}
