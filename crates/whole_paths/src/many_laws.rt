//! What is promised of each path of a connection over several, as clauses of functions that do nothing.
ghost use Rattle.path_core.specs.Octets.{octets};
ghost use Rattle.path_core.specs.Values.{values};
ghost use Rattle.whole_paths.specs.EachText.{EachTextDelivers, EachTextEnds};
ghost use Rattle.whole_paths.specs.EdgeStands.{NothingIsTriedPastTheEdge, ShutEndsStayShut};
ghost use Rattle.whole_paths.specs.JoinedEnds.{JoinedEndsKnowTheirPeers};
ghost use Rattle.whole_paths.specs.JoinedPaths.{JoinedPathsNeverBreak};
ghost use Rattle.whole_paths.specs.FewLossesEnd.{FewLossesEndNoFirst};
ghost use Rattle.whole_paths.specs.FirstTexts.{BegunTextsEnd, FewFirstTextsFinish, FewFirstTextsGoOn, FirstTextsDeliver, FirstTextsEnd, FirstTextsFinish, FirstTextsGoOn, RegularFirstPathsTellNone, RegularPathsTellNone};
ghost use Rattle.whole_paths.specs.ManyCourses.{ManyPathsBringAll, ManyPathsDeliver, ServingPathsDeliver};
ghost use Rattle.whole_paths.specs.ManyEnds.{EachWholePathEnds, FirstPathsEnd};
ghost use Rattle.whole_paths.specs.ManyPaths.{EachPathTakesOver, EachWholePathDelivers, FirstPathsDeliver};
ghost use Rattle.whole_paths.specs.ManyWaits.{EachMissingByteIsWaitedFor};
ghost use Rattle.whole_paths.specs.RegularPaths.{EachRegularPathDelivers};
ghost use Rattle.whole_paths.specs.Mild.{IsPromisedMildly};
ghost use Rattle.whole_paths.specs.OpeningCourses.{opening_allowance, FirstPathsOpenWithin};
ghost use Rattle.whole_paths.specs.UnclearJoins.{UnclearJoinsWait};
ghost use Rattle.whole_paths.specs.Wanted.{WhatIsWantedIsTold};
ghost use Rattle.whole_paths.specs.WindowWaits.{ShutEndsAreAwaited};

/// A law: what a side's reassembly book wants next, each of its ends tells from its path's next turn on (RFC 8684, section 3.3.2).
///
/// Each turn asks the book before a segment of the end goes (`begins`), and what an end was told it tells in each Data ACK (`sends`). So where several
/// paths bring bytes, the Data ACKs of a path are no older than its turn. By any turn, of any path, that stays so (`goes_on`).
pub fn what_is_wanted_is_told()
    ensures octets { WhatIsWantedIsTold octets }
    ensures values { WhatIsWantedIsTold values }
{}

/// A law: where all before the edge of its peer's window is acknowledged, and more is written, an end that knows that the window is shut does so until the
/// edge rises, over any number of paths (RFC 9293, section 3.8.6.1).
///
/// By any turn of a mild connection, whoever's it is (`stays`). A path that asks is granted nothing there, since it doesn't stand by: it is told again that
/// the window is shut. No path tried a byte at the edge or past it (`untried`).
pub fn shut_ends_stay_shut()
    ensures stays { ShutEndsStayShut }
    ensures untried { NothingIsTriedPastTheEdge }
{}

/// A law: a wait for the window of an end that is shut out there goes on by each turn until something is counted, and it is never late, over any number of
/// paths (RFC 9293, section 3.8.6.1).
///
/// As a round begins, such a wait begins at an end of path 0 without a record, for a minute and 800 ticks, where the peer's book takes 32 bytes past the
/// edge: probes ask for the window meanwhile. Path 0 is open, and it doesn't stand by.
pub fn shut_ends_are_awaited()
    ensures { ShutEndsAreAwaited }
{}

/// A law: each end of a path that joined has the other end's key as soon as it has begun, and as long as it lives; and it owes no third MP_JOIN once it may
/// send a DSS (RFC 8684, section 3.2).
///
/// It may send one from where it is past the handshake on. The links may do anything.
pub fn joined_ends_know_their_peers()
    ensures { JoinedEndsKnowTheirPeers }
{}

/// A law: where not all bytes are acknowledged as a round is over that a side had written as it began, its end of path 0 waits for a record, an answer, a
/// window, or for a byte that another path holds, or something was counted in the round (RFC 8684, section 3.3.2).
///
/// So it is in a mild connection over any number of paths, with buffers of 32 bytes at least, where path 0 is open, the end may still send its FIN, and
/// the path doesn't stand by. The wait is for a minute and 800 ticks. What is counted is what is over one path, and what became of the bytes of each stream.
pub fn each_missing_byte_is_waited_for()
    ensures { EachMissingByteIsWaitedFor }
{}

/// A law: from where path 0 of a mild connection is whole to where it still is, all of both streams is there, with rounds enough, whatever becomes of any
/// number of other paths (RFC 8684, section 3.3.2).
///
/// Path 0 is never on standby, and buffers have 32 bytes at least. There are rounds enough for all that can be counted: what is over one path, each byte of
/// a file once more, and twice for each path; and for each segment of path 0 that is harmed. With three rounds more both files are delivered
/// (`delivers`); so they are where its ends stand by at no moment (`serving`).
pub fn many_paths_bring_all()
    ensures brings { ManyPathsBringAll }
    ensures delivers { ManyPathsDeliver }
    ensures serving { ServingPathsDeliver }
{}

/// A law: once path 0 is whole at the end of a round, and still whole when rounds enough have ended, both files are delivered, whatever becomes of any number
/// of other paths (RFC 8684, section 3.3.2).
///
/// It is said of mild scripts: other paths lose, join, die, stand by or are announced as they like. Path 0 stands by at neither end at any moment. There are
/// rounds enough for all that can be counted over all paths, and for each segment of path 0 that is harmed: far more than a run takes.
pub fn first_paths_deliver()
    ensures octets { FirstPathsDeliver octets }
    ensures values { FirstPathsDeliver values }
{}

/// A law: once path 0 is whole at the end of a round, both files are delivered when rounds enough have ended, whatever becomes of any number of other paths;
/// or an end of path 0 died before all of both streams was there (RFC 8684, section 3.3.2).
///
/// It is said of mild scripts, and where path 0 stands by at neither end at any moment.
pub fn first_paths_end()
    ensures octets { FirstPathsEnd octets }
    ensures values { FirstPathsEnd values }
{}

/// A law: a path that joins never breaks once each of its ends is past the handshake (RFC 8684, sections 3.2 and 3.6).
///
/// In a connection of whose options none is taken away, of whose payload nothing is altered, and in which no side closes at once, no end of it is to be
/// reset for a reason from then on, nor is it told that its peer closed at once, and no check fails. The handshake itself may fail.
pub fn joined_paths_never_break()
    ensures octets { IsPromisedMildly octets (λ start w. JoinedPathsNeverBreak w) }
    ensures values { IsPromisedMildly values (λ start w. JoinedPathsNeverBreak w) }
{}

/// A law: an end of a path that joins, which is past the handshake and lives, but may send no DSS yet, is A's, and waits for the answer to its third
/// MP_JOIN (RFC 8684, section 3.2): where its turn is over its timer runs.
pub fn unclear_joins_wait()
    ensures octets { IsPromisedMildly octets (λ start w. UnclearJoinsWait w) }
    ensures values { IsPromisedMildly values (λ start w. UnclearJoinsWait w) }
{}

/// A law: where no line of a mild script tells a priority of path 0, path 0 tells no side that it is a backup, over any number of paths (RFC 8684, sections
/// 3.2 and 3.3.8).
///
/// The word `backup` in its own line does nothing: it is said by MP_JOINs alone, and path 0 sends none.
pub fn regular_first_paths_tell_none()
    ensures { RegularFirstPathsTellNone }
{}

/// A law: once path 0 is whole at the end of a round, and still whole when rounds enough have ended, both files are delivered, whatever becomes of any number
/// of other paths, where no line tells a priority of path 0 (RFC 8684, sections 3.3.2 and 3.3.8).
///
/// But for the turns and for 'whole' this is said of the script's text: `first_paths_deliver`, since such a path 0 never stands by
/// (`regular_first_paths_tell_none`). Without the second 'whole' both are delivered, or an end of path 0 died early (`ends`).
pub fn first_texts_deliver()
    ensures octets { FirstTextsDeliver octets }
    ensures values { FirstTextsDeliver values }
    ensures ends_octets { FirstTextsEnd octets }
    ensures ends { FirstTextsEnd values }
{}

/// A law: from its beginning on a connection by a mild script, no line of which tells a priority of path 0, delivers both files when rounds enough have ended,
/// or an end of path 0 died, whatever becomes of any number of other paths.
///
/// Until path 0 is whole no other path does anything, since a path joins only where A's end of path 0 may send a DSS (RFC 8684, section 3.2): so path 0 opens
/// in time (`first_paths_open`). From then on see `first_texts_deliver`.
pub fn begun_texts_end()
    ensures octets { BegunTextsEnd octets }
    ensures values { BegunTextsEnd values }
{}

/// A law: path 0 of a mild connection, no end of which ever stands by, is whole after rounds enough, or all of both streams is with the peers, or an end of it
/// died, whatever becomes of the other paths.
pub fn first_paths_open()
    ensures { FirstPathsOpenWithin opening_allowance }
{}

/// A law: as `begun_texts_end`, but both files are delivered, where four segments of path 0 are harmed at most: where both files have fewer than 2^20 octets,
/// and no line of the script lets path 0 die or takes its address back (RFC 8684, section 3.4.2).
///
/// `text` says this but for the turns of the script's text alone, for runs that carry octets.
pub fn first_texts_finish()
    ensures octets { FirstTextsFinish octets }
    ensures values { FirstTextsFinish values }
    ensures text { FewFirstTextsFinish }
{}

/// A law: until then the connection goes on: no reader is told of an abort, and path 0 lives, with four harmed segments of path 0 at most, or, by the script's
/// text, four lines that speak of one (`text`).
pub fn first_texts_go_on()
    ensures octets { FirstTextsGoOn octets }
    ensures values { FirstTextsGoOn values }
    ensures text { FewFirstTextsGoOn }
{}

/// A law: no end of path 0 of a mild connection dies with four harmed segments of path 0 at most, whatever becomes of the other paths, where no line of the
/// script lets path 0 die or takes its address back, and the windows have room for what goes on path 0.
pub fn few_losses_end_no_first()
    ensures { FewLossesEndNoFirst }
{}

/// A law: a path of a connection tells no side that it is a backup, always, where its own line of the script doesn't say so, and no line tells a priority of it
/// (RFC 8684, sections 3.2 and 3.3.8), over any number of paths.
pub fn regular_paths_tell_none()
    ensures { RegularPathsTellNone }
{}

/// A law: once any path is whole at the end of a round, and still whole when rounds enough have ended, both files are delivered, whatever becomes of the
/// others, path 0 among them (RFC 8684, section 3.3.2).
///
/// It is said of mild scripts over any number of paths: a path that joined is enough. It stands by at neither end at any moment. There are rounds enough for
/// all that can be counted over all paths, and for each segment of this one that is harmed.
pub fn each_whole_path_delivers()
    ensures octets { EachWholePathDelivers octets }
    ensures values { EachWholePathDelivers values }
{}

/// A law: so they are where the path stands by at neither end from there on, whatever it did before: a backup takes over where the others end (RFC 8684,
/// section 3.3.8).
///
/// The premises are those of `each_whole_path_delivers`, but that nothing is said of standing by as long as the path isn't whole.
pub fn each_path_takes_over()
    ensures octets { EachPathTakesOver octets }
    ensures values { EachPathTakesOver values }
{}

/// A law: once any path is whole at the end of a round, both files are delivered when rounds enough have ended, or an end of this path died before all of
/// both streams was there (RFC 8684, section 3.3.2).
///
/// It is said of mild scripts over any number of paths, and where the path stands by at neither end at any moment.
pub fn each_whole_path_ends()
    ensures octets { EachWholePathEnds octets }
    ensures values { EachWholePathEnds values }
{}

/// A law: once a path that told no side that it is a backup is whole at the end of a round, and still whole when rounds enough have ended, both files are
/// delivered (RFC 8684, sections 3.3.2 and 3.3.8).
///
/// It is said of mild scripts over any number of paths, whichever path it is; its journal alone says that it is no backup.
pub fn each_regular_path_delivers()
    ensures octets { EachRegularPathDelivers octets }
    ensures values { EachRegularPathDelivers values }
{}

/// A law: once any path, of which the script's text says that it is no backup, is whole at the end of a round, and still whole when rounds enough have ended,
/// both files are delivered, whatever becomes of the others (RFC 8684, sections 3.2 and 3.3.8).
///
/// But for the turns and for 'whole' this is said of the script's text: `each_whole_path_delivers`, since such a path never stands by
/// (`regular_paths_tell_none`). Without the second 'whole' both are delivered, or an end of this path died early (`ends`).
pub fn each_text_delivers()
    ensures octets { EachTextDelivers octets }
    ensures values { EachTextDelivers values }
    ensures ends_octets { EachTextEnds octets }
    ensures ends { EachTextEnds values }
{}
