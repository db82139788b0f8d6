//! What holds of these sums, whatever the data.

ghost use Rattle.ones_sum.specs.Words.{PartsAddUp, FoldsAreEndAround, ComplementCompletes, DataIsCompleted, TurnedBitShows};

/// Data may be cut at any even place: the sums of the parts add up to that of the whole.
pub fn parts_add_up()
    ensures { PartsAddUp }
{}

/// The sum in 16 bits is that of words added one after the other, with each carry out of the high end put in at the
/// low end (RFC 1071, section 1).
pub fn folds_are_end_around()
    ensures { FoldsAreEndAround }
{}

/// Data that is followed by the complement of its sum in 16 bits sums to 0xffff.
pub fn complement_completes()
    ensures sums { ComplementCompletes }
    ensures octets { DataIsCompleted }
{}

/// Octets that differ in exactly one bit never have the same sum in 16 bits.
pub fn turned_bit_shows()
    ensures { TurnedBitShows }
{}
