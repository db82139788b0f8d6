//! What is promised of how soon connections over several paths deliver, as clauses of functions that do nothing.
ghost use Rattle.whole_paths.specs.ClearRounds.{EightRoundsAcknowledge};
ghost use Rattle.whole_paths.specs.DirectionWaits.{DirectionsAreMendedUnlessMoreIsHeard};
ghost use Rattle.whole_paths.specs.GrantedPieces.{PiecesAreFew, WhatIsTakenIsGranted, WhoMayAskIsServed};
ghost use Rattle.whole_paths.specs.GrantedPositions.{PathsSendWhatIsGranted};
ghost use Rattle.whole_paths.specs.HeardBytes.{WhatIsHeardIsAcknowledged};
ghost use Rattle.whole_paths.specs.NearRounds.{WhatOwesNoneIsAcknowledged};
ghost use Rattle.whole_paths.specs.WindowRoom.{OnePathIsRoomy, ShortFilesAreRoomy, UnfinishedWindowsHaveRoom};
ghost use Rattle.world_laws.specs.Promises.{HoldsAnyway};

/// A law: a path is granted no more pieces of a side's stream than the paths of its connection are granted full segments, and one more for each path as
/// often as more may be granted (RFC 8684, section 3.3.8).
///
/// More may be granted where the application writes, or the window opens. So it is over any number of paths, whatever the links do, and in whatever order
/// paths give back what they hold, or die: a piece that isn't full, and reaches neither the edge nor the end of what is written, ends where another begins.
pub fn pieces_are_few()
    ensures { PiecesAreFew }
{}

/// A law: a byte that was free for a path, and that a path tried since, is acknowledged, or was granted to that path in a piece (`taken`).
///
/// So in each round of a mild connection, where the turn of a path is over at an end that may ask for bytes, and a byte was free for it as the round began
/// that isn't acknowledged, some path of the connection is granted a piece (`served`); or the end knows that the window is shut, which didn't reach past the
/// byte as the round began; or the path was on standby when it asked last (RFC 8684, sections 3.3.5 and 3.3.8).
pub fn what_is_taken_is_granted()
    ensures taken { WhatIsTakenIsGranted }
    ensures served { WhoMayAskIsServed }
{}

/// A law: each end's SND.NXT lies two positions at most, of its SYN and its FIN, past the bytes that its path was granted, or is granted no more
/// (RFC 9293, section 3.4).
///
/// So an end sends each byte at one position alone, whatever the links do, over any number of paths: no more positions than the side's file has bytes, and
/// two.
pub fn paths_send_what_is_granted()
    ensures { HoldsAnyway PathsSendWhatIsGranted }
{}

/// A law: between living ends of path 0 SND.NXT of either lies 2^20 positions past RCV.NXT of its peer at most, so that a bare acknowledgement, which goes
/// at SND.NXT, stands in the window or just past it (RFC 9293, section 3.10.7.4).
///
/// So it is of mild connections over one path (`one`), and over any number of paths where both files have fewer than 2^20 octets (`short`). On each path
/// of any other it is so of an end that sent no FIN (`unfinished`).
pub fn windows_have_room()
    ensures one { OnePathIsRoomy }
    ensures short { ShortFilesAreRoomy }
    ensures unfinished { UnfinishedWindowsHaveRoom }
{}

/// A law: in eight rounds all is acknowledged that an open end of path 0 had sent, where each of its records of data was well as they began, and the end was
/// to be told soon how far its peer was after the first four; or all of its stream is there (RFC 9293, section 3.4).
///
/// So it is of a mild connection over any number of paths: the first record that was sent is acknowledged, whatever other paths do meanwhile. It is so where
/// the direction owes nothing at both moments (`free`, `directions_go_on`).
pub fn what_is_well_is_acknowledged()
    ensures well { EightRoundsAcknowledge }
    ensures free { WhatOwesNoneIsAcknowledged }
{}

/// A law: of the debts along a direction of path 0 (`directions_go_on`) one is mended within 62,000 ticks, over any number of paths, unless a segment is harmed,
/// or the side's end hears that more of its stream is acknowledged (RFC 6298, section 5).
///
/// So it is of a mild connection where windows have room (`windows_have_room`). A Data ACK that tells of bytes which other paths brought starts the end's
/// timer anew, though its own records wait. Over one path none does (`directions_are_mended`).
pub fn directions_are_mended_unless_more_is_heard()
    ensures { DirectionsAreMendedUnlessMoreIsHeard }
{}

/// A law: as long as a byte of a stream isn't acknowledged, no end of its side heard by Data ACKs of more bytes than the side's book has acknowledged, over
/// any number of paths, whatever the links do (RFC 8684, section 3.3.2).
///
/// So while the first missing byte stays, an end's timer starts anew by Data ACKs only until it heard of all before that byte
/// (`directions_are_mended_unless_more_is_heard`).
pub fn what_is_heard_is_acknowledged()
    ensures { HoldsAnyway WhatIsHeardIsAcknowledged }
{}
