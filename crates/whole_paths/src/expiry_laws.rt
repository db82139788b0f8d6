//! By what ends die, and what few losses come to, as clauses of functions that do nothing.
ghost use Rattle.path_core.specs.Octets.{octets};
ghost use Rattle.path_core.specs.Values.{values};
ghost use Rattle.whole_paths.specs.EdgeRises.{EachRiseEndsTheRow, EdgesWaitForTheHandshake};
ghost use Rattle.whole_paths.specs.Finish.{BriefFewLinesFinish, BriefLossesEndNone, BriefLossesFinish};
ghost use Rattle.whole_paths.specs.KeptAddresses.{FirstAddressesStay, HarmlessEndsDieOfExpiries};
ghost use Rattle.whole_paths.specs.MildDeaths.{MildEndsDieOfExpiries};
ghost use Rattle.whole_paths.specs.OpeningCourses.{opening_patience};

/// A law: in a mild connection an end of path 0 dies by its sixth expiry in a row, by the line by which the path dies, or as a side took the
/// path's address back (RFC 8684, section 3.4.2), as long as its peer lives too.
///
/// By each turn by which one of them is dead that both lived before, one of these came next. Nothing else kills one: no reset is under way
/// between two ends that live, none is refused, and no mapping clashes or is missing.
pub fn mild_ends_die_of_expiries()
    ensures { MildEndsDieOfExpiries }
{}

/// A law: no side counts the address of path 0 as removed, always, where no line of the script takes it back (RFC 8684, section 3.4.2) or lets
/// path 0 die.
///
/// Neither book is told to take id 0 back, no path has it to note, no segment says so, and no end hears it.
pub fn first_addresses_stay()
    ensures { FirstAddressesStay }
{}

/// A law: in a mild connection without such lines an end of path 0 dies by its sixth expiry in a row alone, as long as its peer lives too.
pub fn harmless_ends_die_of_expiries()
    ensures { HarmlessEndsDieOfExpiries }
{}

/// A law: RCV.NXT of an end of path 0 rises only behind a copy that the end took, so that its expiries in a row are over (RFC 6298, section 5), and
/// its handshake is done (`row`). Until then nothing comes behind the peer's SYN, which is position 0 (`early`).
pub fn each_rise_ends_the_row()
    ensures row { EachRiseEndsTheRow }
    ensures early { EdgesWaitForTheHandshake }
{}

/// A law: over one path four harmed segments let no end die, and both files are delivered, after rounds enough from the beginning of the connection.
///
/// It is said of mild scripts of one path without a line by which the path dies or its address is taken back (`die`, `remove` of id 0), and of fewer
/// than 2^64 - 1 turns. A segment is harmed where it is lost, or comes later than 400 ticks. The sixth expiry in a row ends an end; each of the five
/// before it, but for the last one, stands for a harmed segment, since what the end sends again is answered within 800 ticks, and its timer waits
/// for 1,000 at least (RFC 6298, section 2). Rounds enough are as many as in `one_path_ends`, for the segments that are harmed.
/// So it is of scripts with four lines at most that lose or delay a segment, and none that speaks of a whole direction (`lines_octets`,
/// `lines_values`).
pub fn few_losses_finish()
    ensures none_octets { BriefLossesEndNone octets }
    ensures none_values { BriefLossesEndNone values }
    ensures lines_octets { BriefFewLinesFinish octets opening_patience }
    ensures lines_values { BriefFewLinesFinish values opening_patience }
    ensures octets { BriefLossesFinish octets opening_patience }
    ensures values { BriefLossesFinish values opening_patience }
{}
