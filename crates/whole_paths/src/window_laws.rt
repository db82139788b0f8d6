//! How an end is told its window, over one path of a mild connection, as clauses of functions that do nothing.
ghost use Rattle.whole_paths.specs.AnswersAssure.{EachAnswerAssures, WhatComesOpensTheWindow};
ghost use Rattle.whole_paths.specs.AsksOwed.{WhoAsksOwes};
ghost use Rattle.whole_paths.specs.FilesFit.{FittingFilesAreNeverShut};
ghost use Rattle.whole_paths.specs.OfferedTaken.{WhatIsToldIsTaken};
ghost use Rattle.whole_paths.specs.ProbeWaits.{ProbesAreAwaitedAlways, ProbesGoAgain};
ghost use Rattle.whole_paths.specs.ToldEdges.{WhatIsToldGoesOn};
ghost use Rattle.whole_paths.specs.ToldSince.{WhatIsOwedIsAlwaysTold};
ghost use Rattle.path_core.specs.Octets.{octets};
ghost use Rattle.path_core.specs.Values.{values};
ghost use Rattle.whole_paths.specs.TurnsBegin.{EachTurnBegins};
ghost use Rattle.whole_paths.specs.WindowsAssured.{FourRoundsAssure, WindowsAreAssured};

/// A law: a window that a bare segment tells comes within 400 ticks, or the segment is harmed, though more be sent behind it (RFC 8684, section 3.3.5).
///
/// By each turn over one path of a mild connection, where the peer's end may send a DSS: the side may send up to the place still, or is told so by the
/// same tick, by the bare segment or one that overtakes it, which tells as much (`by_turn`). What is told is 31 bytes less than the peer knows that its
/// book takes. In four rounds the side may send so far (`rounds`).
pub fn windows_are_assured()
    ensures by_turn { WindowsAreAssured }
    ensures rounds { FourRoundsAssure }
{}

/// A law: where a side's file fits into the window that the side is told with the first SYN, it may always send all of it (RFC 9293, section 3.8.6).
///
/// So it is over one path of a mild connection as the path is open and a round is over. The window of a SYN is what the peer buffers, 65,535 octets at
/// most; and a window never shrinks.
pub fn fitting_files_are_never_shut()
    ensures { FittingFilesAreNeverShut }
{}

/// A law: what an end told its peer of its window is no more than its side's reassembly book told it, and it tells a window that has grown by half of
/// its buffer, or by two segments, as a turn begins (RFC 9293, section 3.8.6).
///
/// By each turn on path 0: how far the end was told that its book takes bytes stays, and the edge that it told last stays, or is what it tells then: all of
/// that, rounded to 32 bytes or as a SYN tells it. Or the end asks its book, as a turn begins, and then tells the window next unless it hasn't grown so; or
/// it asks behind a copy; or it dies, or is reset. As an Update or an acknowledgement goes, all of it is told, but for the rounding.
pub fn what_is_told_goes_on()
    ensures { WhatIsToldGoesOn }
{}

/// A law: what comes in order to an end is answered with its window, so that four rounds later the peer may send up to the end's buffer, but for 31 bytes,
/// past what was read (RFC 9293, sections 3.8.6 and 3.10.7.4).
///
/// It is said over one path of a mild connection. By each turn an acknowledgement that is owed is owed still, or is harmed, or assures the peer a place 31
/// bytes before what the end's reassembly book takes, within 400 ticks (`by_turn`). So it is by turns in which none of the end's segments is harmed, as
/// the path stays open; or all of the peer's stream is there (`rounds`). Windows are told in steps of 32 bytes.
pub fn what_comes_opens_the_window()
    ensures by_turn { EachAnswerAssures }
    ensures rounds { WhatComesOpensTheWindow }
{}

/// A law: as an end of path 0 of a mild connection asks its side's reassembly book behind a copy what is to be acknowledged, it owes an acknowledgement
/// (RFC 9293, section 3.10.7.4).
///
/// Nothing is told to the book of a copy without octets that says no DATA_FIN. So how far an end may tell its window changes only as a turn begins, and
/// before an acknowledgement goes.
pub fn who_asks_owes()
    ensures { WhoAsksOwes }
{}

/// A law: an end never tells its peer to send more than its side's reassembly book takes, but for the DATA_FIN (RFC 9293, section 3.8.6; RFC 8684, section
/// 3.3.5).
///
/// So it is on path 0 of a mild connection: of what the end knows, always, and of the edge that it told last, as long as it lives; nor did it tell more
/// than it knows.
pub fn what_is_told_is_taken()
    ensures { WhatIsToldIsTaken }
{}

/// A law: as each turn of a path begins, each end asks its side's reassembly book once how much it takes, before it sends or hears anything, and then tells
/// a window that has grown (RFC 9293, section 3.8.6).
///
/// So it is by any turn. As the end asks, it knows then all that the book takes (`what_is_taken_is_offered`), and an Update comes next. It asks no more so
/// until the path's turn is over and the next one begins; where it is to ask first it asks, unless the path stays as it is.
pub fn each_turn_asks_its_window()
    ensures octets { EachTurnBegins octets }
    ensures values { EachTurnBegins values }
{}

/// A law: where an end has no record, and its peer's window is shut, the peer owes an answer within 61,200 ticks, unless a segment of the side is
/// harmed, over one path of a mild connection (RFC 9293, section 3.8.6.1; RFC 6298, section 5).
///
/// Its timer runs, and as it runs out the probe goes, or the DATA_FIN, and comes within 400 ticks. Meanwhile the window may open, the end may send more,
/// or all of the stream may be with the peer (`again`). Such a wait begins where a round is over, and goes on into the next (`awaited`).
pub fn probes_go_again()
    ensures again { ProbesGoAgain }
    ensures awaited { ProbesAreAwaitedAlways }
{}

/// A law: since an end owed its peer an answer, and no segment of the path was harmed, its window is told: a round later the peer may send a full
/// segment's payload past what was read before that round, or is told so within 400 ticks; or all of the peer's stream is there (RFC 9293, sections
/// 3.8.6 and 3.8.6.2.2).
///
/// So it is over one path of a mild connection, whatever each side buffers. The answer tells all that the end's reassembly book takes; what an application
/// reads then at once is told as the next turn begins, or is less than half of the buffer, or two segments.
pub fn what_is_owed_is_told()
    ensures { WhatIsOwedIsAlwaysTold }
{}
