//! What holds of the text of segments and of their meaning.

ghost use Rattle.segment_wire.specs.Laws.{IsReadAgain, DiffersInOctets, IsWrittenAgain};
ghost use Rattle.segment_wire.specs.Between.{SumsOfIpv4AreAlike};

/// Reading the text of a segment that can be written gives that segment: head, options and payload.
pub fn written_is_read_again()
    ensures { IsReadAgain }
{}

/// Different segments have different octets.
pub fn different_segments_differ()
    ensures { DiffersInOctets }
{}

/// What was read can be written, and its text is what was read, but for the ignored bits, which are 0, and the
/// checksum, which is made anew.
pub fn read_is_written_again()
    ensures { IsWrittenAgain }
{}

/// Between IPv4 addresses both pseudo-headers give the same sum.
pub fn sums_of_ipv4_are_alike()
    ensures { SumsOfIpv4AreAlike }
{}
