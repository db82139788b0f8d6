//! What mild connections do whose path stays whole, as clauses of functions that do nothing.
ghost use Rattle.path_core.specs.Octets.{octets};
ghost use Rattle.path_core.specs.Values.{values};
ghost use Rattle.whole_paths.specs.AckedData.{FourRoundsAcknowledge, PositionsAreAckedAsBytes};
ghost use Rattle.whole_paths.specs.AnswerWaits.{AnswersAreAwaitedAlways};
ghost use Rattle.whole_paths.specs.AskStages.{OpenAsksAreAnswered};
ghost use Rattle.whole_paths.specs.AwaitedThere.{WhatIsAwaitedIsThere};
ghost use Rattle.whole_paths.specs.Clear.{BIsClearFirst, BIsIdleBefore, BSendsNothingBefore, NothingComesBefore, TheFirstPieceWaits};
ghost use Rattle.whole_paths.specs.DataLeft.{WhatIsLeftIsData};
ghost use Rattle.whole_paths.specs.Deliveries.{WhoIsToldHasAll};
ghost use Rattle.whole_paths.specs.Delivery.{WhatIsFinishedIsThere, WhatIsThereIsDelivered, WhatIsThereStays};
ghost use Rattle.whole_paths.specs.EndRounds.{AnEndIsTold};
ghost use Rattle.whole_paths.specs.EndedStreams.{WhatEndedIsAcknowledged};
ghost use Rattle.whole_paths.specs.Finish.{HarmsUseLines, BriefPathsDeliver, OneBriefPathEnds};
ghost use Rattle.whole_paths.specs.GoingOn.{RoundsBeginToGoOn, RoundsGoOn, StepsLetItGoOn, EndsGoOn};
ghost use Rattle.whole_paths.specs.FirstSigns.{EachFirstSignComes};
ghost use Rattle.whole_paths.specs.Halted.{WhoHaltsGoesOnHalting};
ghost use Rattle.whole_paths.specs.Lanes.Laws.{LossyLanesEnd, LossyLanesFinish};
ghost use Rattle.whole_paths.specs.HeardBelow.{HeardLiesBelow};
ghost use Rattle.whole_paths.specs.HeardSaid.{WhatIsHeardWasSaid};
ghost use Rattle.whole_paths.specs.LastFin.{FinsAreLast};
ghost use Rattle.whole_paths.specs.Mending.{EachAnswerComesSoon, EachRecordStaysWell};
ghost use Rattle.whole_paths.specs.Mild.{IsPromisedMildly, KeysAreKnown, LinksAreMild, MappingIsKept, MildScriptsStartMildly, NeverBreaks};
ghost use Rattle.whole_paths.specs.OwedGoes.{WhatIsOwedGoes};
ghost use Rattle.whole_paths.specs.OnePathScripts.{EndsAsItBegins, MildScriptsBeginWithOnePath, OnlyWaysStay, BriefPathsEnd, WaysStay, WhatIsThereInTimeIsDelivered, for_all_news};
ghost use Rattle.whole_paths.specs.OnlyPaths.{long_patience, news_within};
ghost use Rattle.whole_paths.specs.OpenAsks.{OpenAsksAreInTime, OpenAsksGoOn, OpenEndsHardlyGoAwry};
ghost use Rattle.whole_paths.specs.OverOctets.{FewLossesFinishAsOverValues, OctetsAreAsFarAsValues, OnePathEndsAsOverValues, BriefPathsDeliverAsOverValues, WholePathsDeliverAsOverValues};
ghost use Rattle.whole_paths.specs.OpenCourses.{WhatHoldsUpCounts};
ghost use Rattle.whole_paths.specs.OpeningCourses.{opening_allowance, opening_patience, DeliversWithin, OpensWithin};
ghost use Rattle.whole_paths.specs.OpeningWaits.{EndsOpenOrArePast, LivingEndsOpenOrArePast, OpeningsAreAwaited};
ghost use Rattle.whole_paths.specs.Outstanding.{WhatIsOutstandingIsAwaited};
ghost use Rattle.whole_paths.specs.Overruns.{NoEndOverruns};
ghost use Rattle.whole_paths.specs.PositionCounts.{PositionsCountBytes};
ghost use Rattle.whole_paths.specs.Pushed.{WhatHasRoomIsSent, WhatIsUnsentWaitsForRoom};
ghost use Rattle.whole_paths.specs.Received.{HoldsOfOnlyPaths};
ghost use Rattle.whole_paths.specs.RecordWaits.{NoRoundCounts, RecordsAreAwaitedAlways};
ghost use Rattle.whole_paths.specs.RisesOwed.{WhatRisesIsOwed};
ghost use Rattle.whole_paths.specs.SegmentRounds.{ASegmentIsRead, EachRoundReads, EachRoundWrites, FourRoundsBring, FourRoundsTell};
ghost use Rattle.whole_paths.specs.ClearRounds.{EightRoundsClear, FourRoundsClear};
ghost use Rattle.whole_paths.specs.OctetsPassed.{AllComesUpToLost, OctetsArePassed, WellOctetsCome};
ghost use Rattle.whole_paths.specs.RecordsPassed.{FirstRecordsArePassed, RecordsComeInTime, WholeRecordsArePassed};
ghost use Rattle.whole_paths.specs.SenderWaits.{SendersAreAwaited};
ghost use Rattle.whole_paths.specs.SentInOrder.{EachIsSentInOrder};
ghost use Rattle.whole_paths.specs.ShortWaits.{WhatIsNotOwedIsWell};
ghost use Rattle.whole_paths.specs.ShutWaits.{ShutWindowsOpenInTime};
ghost use Rattle.whole_paths.specs.ShutWindows.{ShutWindowsHaveRoom};
ghost use Rattle.whole_paths.specs.SignWaits.{FirstSignsAreAwaited};
ghost use Rattle.whole_paths.specs.StayingWhole.{WholePathsStayWhole};
ghost use Rattle.whole_paths.specs.Straying.{OpenEndsHardlyStray, SendersHardlyStray, WholePathsAreOpen};
ghost use Rattle.whole_paths.specs.ToldStays.{WhoIsToldStaysTold};
ghost use Rattle.whole_paths.specs.Unmended.{HarmsAloneLoseRecords};
ghost use Rattle.whole_paths.specs.UnitRounds.{AUnitIsMade, AllUnitsAreThere, ShortWaitsGoOn};
ghost use Rattle.whole_paths.specs.Unstopped.{MildPathsAreNeverStopped};
ghost use Rattle.whole_paths.specs.WindowRoom.{EachWindowHasRoom, LivingWindowsHaveRoom, NoWindowIsShutBefore};
ghost use Rattle.whole_paths.specs.WindowWaits.{WindowsAreAwaitedAlways};
ghost use Rattle.world_laws.specs.Promises.{HoldsAnyway};
ghost use Rattle.whole_paths.specs.BareSegments.{BareSegmentsAreTaken};
ghost use Rattle.whole_paths.specs.FinsComing.{DataFinsComeSoon, DataFinsStaySoon, FourRoundsEnd};
ghost use Rattle.whole_paths.specs.WindowsComing.{FourRoundsOpen, WindowsComeSoon};

/// A law: where no line takes options away, alters payload or lets a side close at once, both sides go by mappings of pieces, always.
///
/// No end falls back to plain TCP or goes by an infinite mapping, none tells a failed check, and no mapping at RCV.NXT fails one (RFC 8684,
/// sections 3.3.1 and 3.7); of an infinite mapping of the peer's that is said of path 0. A connection by a script whose lines are mild, with
/// files shorter than 2^31 - 2 octets, begins so. Rates, random loss, jitter, losses, repeats, delays, deaths, priorities and announced
/// addresses are mild.
pub fn mild_scripts_keep_mapping()
    ensures starts { MildScriptsStartMildly }
    ensures values { IsPromisedMildly values (λ start w. MappingIsKept w) }
    ensures octets { IsPromisedMildly octets (λ start w. MappingIsKept w) }
{}

/// A law: there A's end of path 0 has B's key as soon as it has treated the SYN/ACK, and B's has A's where it may send a DSS (RFC 8684,
/// section 3.1). So each mapping that comes to them then counts.
pub fn mild_scripts_tell_keys()
    ensures values { IsPromisedMildly values (λ start w. KeysAreKnown w) }
    ensures octets { IsPromisedMildly octets (λ start w. KeysAreKnown w) }
{}

/// A law: there the link of each path changes no segment, always. Where no line tells a rate, random loss or jitter of a direction, each
/// direction of each path has none, and so loses none and hands each on at once (`each_segment_uses_a_line_or_comes`).
pub fn mild_links_change_nothing()
    ensures octets { IsPromisedMildly octets (λ start w. LinksAreMild start.lines w) }
    ensures values { IsPromisedMildly values (λ start w. LinksAreMild start.lines w) }
{}

/// A law: there no end of path 0 is to be reset for a reason, always (RFC 8684, section 3.6), none is refused, and none hears that its peer
/// closed at once. A byte at RCV.NXT that is kept has its mapping, no mapping gives a position another place, no book refuses what came, and
/// no check fails.
pub fn mild_scripts_never_break()
    ensures values { IsPromisedMildly values (λ start w. NeverBreaks w) }
    ensures octets { IsPromisedMildly octets (λ start w. NeverBreaks w) }
{}

/// A law: as long as both ends of path 0 of a mild connection live, what an end owes its peer goes: an acknowledgement of what came, at
/// SND.NXT, or the SYN/ACK (RFC 9293, section 3.10.7.4).
///
/// By each turn it is owed still, or the link takes it at the same tick, or an end is dead.
pub fn what_is_owed_goes()
    ensures { WhatIsOwedGoes }
{}

/// A law: in a mild connection no send book is aborted, or given to one path alone, no reassembly book is aborted, and no reader is told of an
/// abort, always (RFC 8684, section 3.5). No application and no path asks for it, over however many paths.
pub fn mild_paths_are_never_stopped()
    ensures { MildPathsAreNeverStopped }
{}

/// A law: in a mild connection an exchange goes astray on path 0 by two things alone, where both ends are past the handshake, may send a DSS
/// and aren't dead, before a turn and after it: a FIN that an end is past, or more sent than the window has room for. Neither end is to be
/// reset or fell back, each knows its peer's key, neither treats the SYN/ACK, and none refuses a copy, or answers one by a reset.
///
/// Such are both ends of path 0 by each turn between two moments at which it is whole (`between`). An exchange of B's goes astray by them
/// alone as soon as B may send a DSS and A knows B's key, though A may send none yet (`senders`).
pub fn open_ends_hardly_stray()
    ensures stray { OpenEndsHardlyStray }
    ensures senders { SendersHardlyStray }
    ensures between { WholePathsAreOpen }
{}

/// A law: in a mild connection the exchange of an ask goes awry on path 0 by one thing alone, where both ends are past the handshake, may send
/// a DSS and aren't dead, before a turn and after it: more sent than the window has room for.
///
/// No end owes a third MP_JOIN, nor has it MP_FASTCLOSE to be answered (RFC 8684, sections 3.2 and 3.5); an end that sent its DATA_FIN knows
/// where its stream ends; and no book refuses a Data ACK.
pub fn open_ends_hardly_go_awry()
    ensures { OpenEndsHardlyGoAwry }
{}

/// A law: the FIN of an end stands behind all else that the end sends: SND.NXT lies right behind it, where that is to be acknowledged, and where
/// the peer heard of it; all bytes that the end maps stand before it there (RFC 9293, section 3.10.4).
pub fn fins_are_last()
    ensures { HoldsAnyway FinsAreLast }
{}

/// A law: what an open end of a path waits for is data, but for its FIN: its first record that isn't acknowledged is one of octets, and SND.UNA
/// lies before its end. Both SYNs were acknowledged before (RFC 9293, section 3.5).
pub fn what_is_left_is_data()
    ensures { WhatIsLeftIsData }
{}

/// A law: no end of a path sends more than its peer's window of 2^20 positions has room for, but its FIN, in a mild connection: SND.NXT lies 2^20
/// positions past SND.UNA at most, and one more once the FIN is sent (RFC 5681, section 2).
pub fn no_end_overruns()
    ensures { NoEndOverruns }
{}

/// A law: on the only path of a mild connection positions count bytes, whatever is lost, late or repeated (RFC 8684, section 3.3.1).
///
/// SND.NXT lies behind all bytes of the side's stream that the path took. RCV.NXT of the peer's end lies behind all that the peer's side
/// received, and as long as the end sent no FIN just behind them. Each byte that is written and lies behind those that the path took is there for it.
pub fn positions_count_bytes()
    ensures { HoldsOfOnlyPaths values PositionsCountBytes }
{}

/// A law: records are sent in order, always: each record behind one that is to be sent is to be sent, too, or has no octets, as a FIN hasn't.
///
/// So no more octets are under way than lie between SND.UNA and the first position that is to be sent (RFC 5681, section 2, FlightSize), once
/// SND.UNA lies before the end of the first record.
pub fn records_are_sent_in_order()
    ensures octets { EachIsSentInOrder octets }
    ensures values { EachIsSentInOrder values }
{}

/// A law: where the turn of a path is over, the first record that is to be sent, of an end that may still send its FIN, is longer than there is
/// room in the congestion window (RFC 5681, section 3.1).
pub fn what_is_unsent_waits_for_room()
    ensures octets { WhatIsUnsentWaitsForRoom octets }
    ensures values { WhatIsUnsentWaitsForRoom values }
{}

/// A law: as the turn of the only path of a mild connection is over, an open end that sent no FIN has sent all for which there is room.
///
/// There is no room for another full segment in its congestion window, counted from SND.UNA up to which all is sent (RFC 5681, section 2); or all
/// is sent that was written as the round began; or the end knows that the peer's window is shut, and all is sent that lies before the edge which that
/// window had then (RFC 9293, section 3.8.6).
pub fn what_has_room_is_sent()
    ensures { WhatHasRoomIsSent }
{}

/// A law: in each round of a mild connection in which path 0 is open an application writes its file, or as much as a side buffers past what was acknowledged
/// as the round began; and the peer's reader reads all that had come in order then.
pub fn each_round_writes_and_reads()
    ensures writes { EachRoundWrites }
    ensures reads { EachRoundReads }
{}

/// A law: where nothing is to be mended, all that an open end sent comes within four rounds (`brought`), and as soon the end is told how far the peer
/// was (`told`); so the peer's reader reads a full segment more in twenty rounds (`read`), or all of the stream.
///
/// It is said of a mild connection, between moments at which path 0 is open; `read` over one path alone. For that nothing is to be mended as the rounds begin,
/// and after seven, eleven and fifteen of them; and what the peer could tell of the stream is heard in the first six, as a premise says: the Data
/// ACK, and a window that takes a full segment, or all of the file. Then come a round in which the application writes, eight by which all is
/// acknowledged that was under way, so that the end sends what had no room in its congestion window, or what it is granted (`each_grant_is_full`),
/// four in which that comes, and one in which it is read. No more is asked of the congestion window than that it holds one segment (RFC 5681,
/// section 3.1), as it always does.
pub fn a_segment_is_read()
    ensures brought { FourRoundsBring }
    ensures told { FourRoundsTell }
    ensures read { ASegmentIsRead }
{}

/// A law: where nothing is to be mended, and all of a stream is read, the peer's side knows where it ends in eleven rounds (RFC 8684, section 3.3.3).
///
/// It is said of a mild connection over one path, between moments at which the path is open, where all of the stream is acknowledged in the first five
/// rounds. Then it is closed in the next one, and in the one after that its end sends the DATA_FIN, or the peer's side knows the end. That the
/// DATA_FIN which is sent so comes in four more rounds is a premise.
pub fn an_end_is_told()
    ensures { AnEndIsTold }
{}

/// A law: in twenty rounds in which nothing is to be mended a stream goes on by a full segment or by its end, or all is read and told.
///
/// It is said of a mild connection over one path, as long as all is well: nothing of path 0 is to be mended then. A wait for such rounds begins with
/// each of them, and it goes on by each turn as long as all is well. That what the peer could tell is heard in six rounds, and that a DATA_FIN comes
/// in four, are premises. Where there are as many units as can be (`all`), all of both streams is with the peers. Where no record may be lost and
/// each end is told soon (`free`), nothing is to be mended.
pub fn a_unit_is_made()
    ensures waits { ShortWaitsGoOn }
    ensures made { AUnitIsMade }
    ensures all { AllUnitsAreThere }
    ensures free { WhatIsNotOwedIsWell }
{}

/// A law: where no line of a script speaks of a direction, each segment of a path that is harmed uses a line by which one is lost or late.
///
/// A segment is harmed that a link takes, and of which no copy is to come within 400 ticks. By whatever turns, as many are at most as the
/// script has such lines for the path.
pub fn harms_use_lines()
    ensures { HarmsUseLines }
{}

/// A law: what holds up an exchange between open ends is counted, as news or as a segment of path 0 that is harmed.
///
/// An exchange is held up as in `each_record_is_acknowledged`: there is news at the end, or its RCV.NXT rises; a segment uses a line by which
/// it is lost or late, or the link loses it at random or before a full queue. No end dies while both stay open.
pub fn what_holds_up_counts()
    ensures { WhatHoldsUpCounts }
{}

/// A law: where each turn is over, nothing is counted as the next round begins.
pub fn no_round_counts()
    ensures { NoRoundCounts }
{}

/// A law: a record of data that is well stays well by each turn of a mild connection, or a segment of its side is harmed.
///
/// The turn goes between two moments at which both ends are past the handshake, and B's may send a DSS; A's may send its first piece with both keys.
/// Such a record is to be sent; or each of its octets came to the peer, with its mapping; or a copy of it is under way that comes within 400 ticks,
/// twice the longest delay. One that comes by a tick, or came, is there by that tick still, also behind a gap, and though it is acknowledged
/// meanwhile (`comes`); and one that is sent in the turn is there within 400 ticks, or harmed (`sent`).
pub fn each_record_stays_well()
    ensures { EachRecordStaysWell }
{}

/// A law: an acknowledgement that an end owes goes, and is harmed or heard within 400 ticks, by each turn of a mild connection between ends past the
/// handshake, B's of which may send a DSS.
///
/// It is owed still, or goes in the turn and acknowledges all that came to the end by then, where its peer's window has room for all that the end
/// sent (`owed`). From then on its peer heard so much, or the answer is under way to it, and comes by the same tick (`comes`): one that is overtaken
/// by octets or a FIN needn't be heard, since what overtook it acknowledges as much.
pub fn each_answer_comes_soon()
    ensures { EachAnswerComesSoon }
{}

/// A law: between living ends of the only path of a mild connection no end sent more than 2^20 positions past RCV.NXT of its peer, so that the
/// peer's window has room for all it sent, its FIN included.
///
/// An unfinished end has no more outstanding than the window (`no_end_overruns`). Of one that sent its FIN all but the FIN is there
/// (`what_is_finished_is_there`). So it is past the handshake (`opened`). And until A's end sends something behind its SYN it knows of no window that is shut
/// (`unshut`): B's SYN/ACK told it one that is open.
pub fn each_window_has_room()
    ensures living { LivingWindowsHaveRoom }
    ensures opened { EachWindowHasRoom }
    ensures unshut { NoWindowIsShutBefore }
{}

/// A law: an end of path 0 of a mild connection owes an acknowledgement as its RCV.NXT moves over octets.
///
/// What came in order is passed in the turn of the copy that brought it (`what_is_in_order_is_passed`), and a copy with octets is owed an
/// acknowledgement from its arrival on. One without octets tells no mapping, so that nothing comes to be in order by it.
pub fn what_rises_is_owed()
    ensures { WhatRisesIsOwed }
{}

/// A law: on path 0 of a mild connection where windows have room (`windows_have_room`), once B's end may send a DSS, an end past the handshake that is
/// told soon how far its peer is stays so, or an answer was harmed.
///
/// So it is over any number of paths. The peer's answer goes (`each_answer_comes_soon`), since the end's window has room for it; where RCV.NXT rises
/// meanwhile the next answer is owed (`what_rises_is_owed`).
pub fn who_is_told_stays_told()
    ensures { WhoIsToldStaysTold }
{}

/// A law: a wait for a record of data goes on between open ends of a mild connection until the record is acknowledged, or something is
/// counted, and it is never late.
///
/// Of what leads an exchange astray (`open_ends_hardly_stray`) nothing is left then. As a round begins such a wait begins, for a minute and the
/// 800 ticks, where an end that sent no FIN has a record that isn't acknowledged: for that one, or where the peer filled the
/// end's window and sent its FIN behind, for the peer's first one, which didn't come.
pub fn records_are_awaited_always()
    ensures { RecordsAreAwaitedAlways }
{}

/// A law: so does a wait for a record of one side where the other end may not send a DSS yet, once B may, and A knows B's key.
///
/// That is B's record while A waits for the first DSS (RFC 8684, section 3.1): both ends are past the handshake and aren't dead. The wait begins
/// as in `records_are_awaited_always`, where the end's own window has room for all that its peer sent.
pub fn senders_are_awaited()
    ensures { SendersAreAwaited }
{}

/// A law: B's DATA_FIN comes to A on path 0 of a mild connection, whatever is lost, where B has no record, and shows A its first DSS, by which A
/// may send one (RFC 8684, sections 3.1 and 3.3.3).
///
/// As a turn is over, B may send a DSS, and its DATA_FIN isn't acknowledged, such a copy is on its way to A's RCV.NXT, for a minute and 400 ticks, or
/// B has a record again, or the path is a step further on its way to be open, or a segment is harmed, or an end is dead; it is never late.
pub fn each_first_sign_comes()
    ensures { EachFirstSignComes }
{}

/// A law: a wait for the first sign of Multipath TCP goes on on path 0 of a mild connection over one path, while no end of it is dead, until the path
/// is a step further on its way to be open, or a segment is harmed, and it is never late (RFC 8684, section 3.1).
///
/// B is to hear both keys, by A's first piece (`each_first_piece_comes`), or A its first DSS, by B's first piece (`each_sign_piece_comes`), or its
/// DATA_FIN, where B has no record (`each_first_sign_comes`). As a round is over the wait begins, for a minute and 800 ticks.
pub fn first_signs_are_awaited()
    ensures { FirstSignsAreAwaited }
{}

/// A law: while path 0 of a mild connection over one path opens, and no end of it is dead, a SYN is awaited, or the answer to B's SYN/ACK that comes
/// again, until the path is a step further on its way to be open, or a segment is harmed (RFC 9293, section 3.5).
///
/// As a round is over with an end that opens, or B half-open and A past the handshake, the wait begins (`each_syn_comes`,
/// `each_syn_ack_is_answered`), for a minute and 800 ticks; it is never late. Where A's end has finished all of its stream
/// is with the peer. At each moment an end of a path opens so, or both are past the handshake, or A's waits for its tick, or one is past it whose
/// peer hasn't its SYN (`which`). On path 0, while neither of its ends is dead, an end opens so, or both are past the handshake (`living`): no
/// end goes further than its peer's SYN lets it.
pub fn openings_are_awaited()
    ensures waits { OpeningsAreAwaited }
    ensures which { EndsOpenOrArePast }
    ensures living { LivingEndsOpenOrArePast }
{}

/// A law: what an open end of path 0 of a mild connection asks for, the Data ACK of its DATA_FIN or of a piece (`each_ask_is_answered`),
/// goes on by each turn to be answered by the same tick, or something comes between that counts: more is heard or sent, a segment is
/// harmed, or an end dies.
///
/// An open end without a record of which anything is outstanding waits for such an answer, or for the peer's window (`in_time`). Where a turn
/// is over it asks for the answer, within a minute and 800 ticks, and no round ends past that. That the peer knows the place to be
/// wanted where it sends is a premise; one thing may lead it awry (`open_ends_hardly_go_awry`).
pub fn open_asks_go_on()
    ensures goes_on { OpenAsksGoOn }
    ensures in_time { IsPromisedMildly values (λ start w. OpenAsksAreInTime w) }
{}

/// A law: such an ask goes on to be answered, or something comes between that counts, where the bytes are received that it asks for.
///
/// The peer's reassembly book has all bytes before the place, but for that of the DATA_FIN, which the peer heard, or what the end asks brings
/// it. Once that was heard, the peer is to know that the place is wanted, as it answers: over one path it does (`who_heard_the_end_knows_it`,
/// `each_data_ack_is_up_to_date`), over several from its next turn on (`what_is_wanted_is_told`).
pub fn open_asks_are_answered()
    ensures { OpenAsksAreAnswered }
{}

/// A law: a wait for such an answer goes on between open ends of path 0 of a mild connection until the end is answered, or something is counted,
/// and it is never late, over any number of paths.
///
/// So it is while the peer sent no more than the end's window has room for: nothing leads the exchange awry then, between two moments at which
/// path 0 is open. As a round begins, such a wait begins for an end without a record, for a minute and 800 ticks: the peer's book wants the
/// place, of which its end learns by its path's next turn, before that sends; or the book isn't told yet where the stream ends, and to learn it
/// counts.
pub fn answers_are_awaited_always()
    ensures { AnswersAreAwaitedAlways }
{}

/// A law: in a mild connection over one path, a side that halts at the edge of its peer's window does so by each turn, or bytes are granted to
/// its path, or its end hears that more is acknowledged (RFC 9293, section 3.8.6.1).
///
/// So it is where the end knows that the window is shut, and the side has bytes left that aren't acknowledged, none of which the path tried. The
/// send book refuses no bytes then but for the window.
pub fn who_halts_goes_on_halting()
    ensures { WhoHaltsGoesOnHalting }
{}

/// A law: between open ends of a mild connection over one path a wait for a window goes on by each turn until something is counted, and it is
/// never late.
///
/// Of what leads the exchange awry nothing is left, where the peer sent no more than the end's window has room for; the edge counts as it
/// rises. Its side halts all the while (`who_halts_goes_on_halting`). As a round begins, such a wait begins where a side halts whose end has no
/// record, and the peer's book takes 32 bytes past the edge of its side's send book.
pub fn windows_are_awaited_always()
    ensures { WindowsAreAwaitedAlways }
{}

/// A law: a window that is shut opens as soon as the peer says so: as a round is over, bytes are left and the peer's book takes 32 bytes past
/// the window's edge, or something was counted in the round.
///
/// All before the edge is acknowledged then, so it was received, and by the round's end it is read. It is said of an end of path 0 that has
/// no record and waits for no Data ACK, in a mild connection over one path with buffers of 32 bytes or more.
pub fn shut_windows_have_room()
    ensures { ShutWindowsHaveRoom }
{}

/// A law: a window that is shut as a round is over opens in time, or something is counted.
///
/// Such a wait begins with the next round, for a minute and 800 ticks, and goes on by each turn
/// (`windows_are_awaited_always`). So it is in a mild connection over one path with buffers of 32 bytes at least.
pub fn shut_windows_open_in_time()
    ensures { ShutWindowsOpenInTime }
{}

/// A law: over one path, as its turn is over, all of a stream is acknowledged whose end the path's end knows, where that may ask for bytes, waits
/// for no Data ACK of bytes, and its peer's window isn't shut (RFC 8684, section 3.3.3).
///
/// So where its DATA_FIN isn't acknowledged it waits for that alone; the peer's side has received all (`both_sides_keep_their_word`), and wants
/// the place behind it once the DATA_FIN is heard (`who_heard_the_end_knows_it`). Or the path was on standby when it asked for bytes last, or
/// the connection was stopped.
pub fn what_ended_is_acknowledged()
    ensures octets { WhatEndedIsAcknowledged octets }
    ensures values { WhatEndedIsAcknowledged values }
{}

/// A law: over one path, as its turn is over, an open end of which something is outstanding, but no record, waits for its peer's window, or for a
/// Data ACK of what the peer's side received by then, where the connection is mild (RFC 8684, sections 3.3.2 and 3.3.3).
///
/// That is the Data ACK of a piece of bytes, all before whose end is received; or that of its DATA_FIN, where all of the stream is. So the peer
/// answers what the end asks with the Data ACK that it waits for (`open_asks_are_answered`).
pub fn what_is_awaited_is_there()
    ensures { WhatIsAwaitedIsThere }
{}

/// A law: an open end of path 0 of which something is outstanding as a round is over waits for a record to be acknowledged, for an answer, or
/// for the peer's window to open; or something was counted in the round.
///
/// It waits for an answer where it has no record: for the Data ACK of a piece, which the peer's side received, or, with no piece left and the
/// window not shut, for that of its DATA_FIN. All bytes before the DATA_FIN are received then, unless some were written in the round. So it is in a
/// mild connection over one path.
pub fn what_is_outstanding_is_awaited()
    ensures { WhatIsOutstandingIsAwaited }
{}

/// A law: in a mild connection over one path, where nothing is outstanding at an end, it goes on within two rounds, unless all of both streams is
/// with the peers.
///
/// As a round begins all of both is there, or of a stream not all is (`begins`); steps leave that so (`steps`). As that round ends, or the next
/// one, with both ends open: more is written or received, a stream was closed, or a side learned where its peer's ends, which counts
/// (`each_gain_counts`); or something is outstanding at an end, and bytes aren't acknowledged, if that is a window; or all that was written as
/// the first of the two rounds began is acknowledged, and in the second one more is written, or the stream is closed (`rounds`). From the side
/// that goes on, it is enough that its own end is open (`ends`).
pub fn who_waits_for_nothing_goes_on()
    ensures begins { RoundsBeginToGoOn }
    ensures steps { StepsLetItGoOn }
    ensures rounds { RoundsGoOn }
    ensures ends { EndsGoOn }
{}

/// A law: in a mild connection, whenever an end heard that its DATA_FIN is acknowledged, or sent its FIN and isn't dead, its
/// side's stream is closed, and the peer's side received all of it and knows where it ends (RFC 8684, section 3.3.3).
pub fn what_is_finished_is_there()
    ensures { WhatIsFinishedIsThere }
{}

/// A law: in a mild connection, once all of both streams is with the peers, and they know where they end, both files are
/// delivered after three more rounds, in whatever order the actors go, and stay so (`delivers`). Whatever is there stays there (`stays`).
pub fn what_is_there_is_delivered()
    ensures stays { WhatIsThereStays }
    ensures delivers { WhatIsThereIsDelivered }
{}

/// A law: who is told the end has all, in a mild connection: once both readers were, both files are delivered.
pub fn who_is_told_has_all()
    ensures { WhoIsToldHasAll }
{}

/// A law: on each path a segment from either side is under way as long at most as it was planned, always: for the delay, for the time of a full
/// queue, and for the greatest jitter. Over an only path these are one time there and back, from either side (`only`).
pub fn ways_stay()
    ensures values { WaysStay values }
    ensures octets { WaysStay octets }
    ensures only { OnlyWaysStay values }
    ensures only_octets { OnlyWaysStay octets }
{}

/// A law: by whatever turns, a path that was whole is whole still, or one of its ends is dead (RFC 9293, section 3.3.2).
///
/// A path is whole where at both ends both SYNs are acknowledged, neither is dead, and both may send a DSS. An end stays in LAST-ACK or
/// TIME-WAIT.
pub fn whole_paths_stay_whole()
    ensures octets { WholePathsStayWhole octets }
    ensures values { WholePathsStayWhole values }
{}

/// A law: a connection over octets finishes as the same one over segments as values does.
///
/// After the same turns these are lawful of the one and of the other, as many segments were harmed, the outcome is one, the path is whole,
/// or an end of it dead, in both, and both are equally far (`as_far`). What is shown of a connection over segments as values by a mild
/// script of one path so holds over octets, in as many rounds: that a whole path delivers both files, also where it is said
/// of fewer than 2^64 - 1 turns alone (`brief`), that both are delivered or an end dies, and that few losses end none.
pub fn octets_finish_as_values_do()
    ensures as_far { OctetsAreAsFarAsValues }
    ensures deliver { WholePathsDeliverAsOverValues }
    ensures brief { BriefPathsDeliverAsOverValues }
    ensures end { OnePathEndsAsOverValues }
    ensures finish { FewLossesFinishAsOverValues }
{}

/// A law: what is said of mild connections over one path by how they begin holds of each mild script of one path, over octets, too.
///
/// Each such script begins mildly, with one path, and each side buffers 4,096 octets at least (`starts`). If between two moments at which path 0
/// is whole all of both streams comes to the peers in time, then both files are delivered three rounds later, or an end died early (`there`).
/// So it is then by these scripts, in fewer than 2^64 - 1 turns.
pub fn mild_scripts_end_as_they_begin()
    ensures starts { MildScriptsBeginWithOnePath }
    ensures there { WhatIsThereInTimeIsDelivered }
    ensures values { EndsAsItBegins values }
    ensures octets { EndsAsItBegins octets }
{}

/// A law: over one path both files are delivered, once the path was whole at the end of a round and enough more rounds have ended, unless an
/// end dies before all of both streams is with the peers; however much is lost, late or repeated.
///
/// A path is whole where at both ends both SYNs are acknowledged, neither end is dead, and both may send a DSS (RFC 8684, section 3.1). If it
/// is still whole after those rounds, no end died, and both files are delivered (`octets`, `values`). It is said of mild scripts, by which no
/// option is taken away, no payload is altered and no side closes at once, and of fewer than 2^64 - 1 turns. Enough rounds are so many that all
/// is acknowledged of which there can be news, one after the other, each within a greatest timeout, 800 ticks there and back, and four
/// rounds; and as many more for each segment that is harmed.
pub fn whole_paths_deliver()
    ensures ends_octets { BriefPathsEnd octets long_patience }
    ensures ends_values { BriefPathsEnd values long_patience }
    ensures octets { BriefPathsDeliver octets long_patience }
    ensures values { BriefPathsDeliver values long_patience }
{}

/// A law: over one path A's end may send a DSS only where B's may (RFC 8684, section 3.1).
///
/// It may by a DSS that it heard, and B's end sends none before it may, and nothing behind its SYN (`quiet`). So it is on the only path of a mild
/// connection, at every moment.
pub fn b_is_clear_first()
    ensures first { BIsClearFirst }
    ensures quiet { BSendsNothingBefore }
{}

/// A law: over one path nothing comes to an end behind its peer's SYN until the end may send a DSS, while no end is dead (RFC 8684, section 3.1).
///
/// It holds no mapping by which a byte could be passed, and no FIN came, since the peer sends one only once it may send a DSS. So it is at every
/// moment of a mild connection.
pub fn nothing_comes_before()
    ensures { NothingComesBefore }
{}

/// A law: over one path A's first piece waits while B, past the handshake, may send no DSS (RFC 8684, section 3.1).
///
/// Each copy that takes B's end past the handshake shows both keys, which B hears in its turn, unless A sent more than its SYN. So where a turn is
/// over, both ends are past the handshake, none is dead, and B may send none, the piece is A's first record, and nothing came to B behind the SYN.
pub fn the_first_piece_waits()
    ensures { TheFirstPieceWaits }
{}

/// A law: over one path an end of B's without a record was granted nothing, and knows of no window that is shut, until A may send a DSS (RFC 8684,
/// section 3.1).
///
/// A's SYN tells a window that isn't shut, and B's end asks for bytes behind it. It is said where a turn is over, no end is dead and B may send a
/// DSS; of mild connections whose sides buffer an octet at least.
pub fn b_is_idle_before()
    ensures { BIsIdleBefore }
{}

/// A law: over one path both files are delivered, or an end of the path died, after rounds enough from the beginning of the connection, however much
/// is lost, late or repeated (`octets`, `values`).
///
/// It is said of mild scripts, by which no option is taken away, no payload is altered and no side closes at once, and of fewer than 2^64 - 1 turns:
/// the link counts the segments of each side below that. Within 3,055 rounds, and 611 for each segment that is harmed, the path is whole, or all of
/// both streams is with the peers, or an end died (`opens`): five steps lead there, and each takes a greatest timeout of a minute and eleven rounds
/// at most, unless a segment is harmed. Then they go on as in `whole_paths_deliver` (`delivers`). Both are said of connections over one path with
/// buffers of 4,096 octets at least.
pub fn one_path_ends()
    ensures opens { OpensWithin opening_allowance }
    ensures delivers { DeliversWithin opening_allowance (for_all_news news_within) }
    ensures octets { OneBriefPathEnds octets opening_patience }
    ensures values { OneBriefPathEnds values opening_patience }
{}

/// A law: on a lane that loses segments all is acknowledged, or the end gave up, after five rounds or so for each segment and two
/// greatest timeouts for each line (`end`); with four lines at most no end gives up (`finish`).
pub fn lossy_lanes_finish()
    ensures end { LossyLanesEnd }
    ensures finish { LossyLanesFinish }
{}

/// A law: no more records of data of a side may be lost than before, but one for a segment that is harmed, between ends past the handshake, B's of
/// which may send a DSS (RFC 9293, section 3.10.7.4).
///
/// A record may be lost that isn't well: one that was sent, isn't with the peer, and doesn't come within 400 ticks. By each turn of a mild
/// connection that `each_record_stays_well` speaks of the records of a side that may be lost are these still, or fewer; where a segment of the
/// side is harmed there is one more at most, and none where the end owed an acknowledgement, since that goes alone.
pub fn harms_alone_lose_records()
    ensures { HarmsAloneLoseRecords }
{}

/// A law: where a turn is over, a record that came whole, and begins at RCV.NXT or before it, lies below it (RFC 9293, section 3.10.7.4).
///
/// It is said of a record of data on path 0 of a mild connection between open ends, which came, or was to come by a tick of the round that ends.
pub fn whole_records_are_passed()
    ensures { WholeRecordsArePassed }
{}

/// A law: where a turn is over, the first record of a side that came whole lies below the peer's RCV.NXT (RFC 9293, section 3.10.7.4).
///
/// It is said of a record of data on path 0 of a mild connection between open ends, which came, or was to come by a tick of the round that ends.
pub fn first_records_are_passed()
    ensures { FirstRecordsArePassed }
{}

/// A law: where all comes by a tick that a side sends up to a position, RCV.NXT has reached that position as the turn is over in which that tick lies
/// (RFC 9293, section 3.10.7.4).
///
/// It is said of path 0 of a mild connection between open ends (`due`): each octet before the position is acknowledged, or lies in a record of data
/// that comes by that tick. So it is where each record before the position is such a one (`begins`), and stays so by each turn (`on`).
pub fn octets_are_passed()
    ensures { OctetsArePassed }
{}

/// A law: all comes within 400 ticks up to a record of data that a side sent, where each record before it is well (RFC 9293, section 3.4).
///
/// It is said of path 0 of a mild connection between open ends. No SYN is left there, the FIN is last, and records are sent in order.
pub fn well_octets_come()
    ensures { WellOctetsCome }
{}

/// A law: where records may be lost, all that the side sends comes within 400 ticks up to the first one that may be.
///
/// It is said of path 0 of a mild connection between open ends; where no record may be lost each is well.
pub fn all_comes_up_to_lost()
    ensures { AllComesUpToLost }
{}

/// A law: in four rounds all comes that a side sends before the first record that may be lost (RFC 9293, section 3.10.7.4).
///
/// It is said of rounds of a mild connection between open ends of path 0: RCV.NXT has reached a record that could be lost as they began, or each record
/// was well. After four rounds more SND.UNA has reached it, where the end was to be told soon how far its peer was (`told`).
pub fn four_rounds_clear()
    ensures comes { FourRoundsClear }
    ensures told { EightRoundsClear }
{}

/// A law: a record of data that comes by a tick comes by that tick still, by each turn of a mild connection between open ends, until it is
/// acknowledged (RFC 9293, section 3.10.7.4).
///
/// Neither what comes before it nor what is sent again puts it off (`on`). Where a turn is over such a record came whole by a tick of the round that
/// ends, or is acknowledged (`due`).
pub fn records_come_in_time()
    ensures { RecordsComeInTime }
{}

/// A law: on the only path of a mild connection bytes are acknowledged as positions are (RFC 8684, section 3.3.2).
///
/// Where the path's turn is over, neither of its ends is dead, and a side's sent no FIN, as many bytes of its stream are acknowledged as positions of
/// its subflow, but for that of the SYN: to its end, and in its send book. So in four rounds between open ends all is acknowledged that the peer's
/// side had received, where the end was to be told soon how far its peer was; or all of the stream is there (`rounds`).
pub fn positions_are_acked_as_bytes()
    ensures positions { PositionsAreAckedAsBytes }
    ensures rounds { FourRoundsAcknowledge }
{}

/// A law: what an end is to hear of a copy it was to hear before, or the copy says it that the end takes next; and no Data ACK counts but one that the
/// end was to hear (RFC 8684, section 3.3.2).
///
/// By any turn. Where the side fell back to plain TCP, or sends by an infinite mapping, the subflow's acknowledgements count in its place.
pub fn what_is_heard_was_said()
    ensures octets { WhatIsHeardWasSaid octets }
    ensures values { WhatIsHeardWasSaid values }
{}

/// A law: on the only path of a mild connection no more bytes are acknowledged to an end than positions of its subflow, but for that of the SYN, as
/// long as neither end is dead; or all of the stream is with the peer (RFC 8684, section 3.3.2).
pub fn heard_lies_below()
    ensures { HeardLiesBelow }
{}

/// A law: between open ends a segment without an octet is taken as it arrives, unless its end takes one before that goes past it (RFC 9293, section
/// 3.10.7.4): then more was sent behind it.
///
/// It is said of turns of a mild connection, and of a segment before whose position all stands that the end has: so it is with each that an end sends
/// at SND.NXT, and no reset; and one that is sent is harmed, or comes within 400 ticks, where the peer's window has room for what was sent before.
pub fn bare_segments_are_taken()
    ensures { BareSegmentsAreTaken }
{}

/// A law: past the handshake of a mild connection a DATA_FIN that is sent is harmed, or comes within 400 ticks and is heard, unless more is sent behind
/// it (RFC 8684, section 3.3.3).
///
/// By each turn: one that comes by a tick comes by it still, or is heard; or more was sent behind it, so that it may be overtaken, and doesn't count
/// then (`by_turn`). An end sends its DATA_FIN once its end is known, though bytes before it wait for a shut window. Where windows have room
/// (`windows_have_room`) it stays so that the DATA_FIN wasn't sent, or comes so, but for a harm (`stays`); and in four rounds the peer's side knows where
/// the stream ends (`rounds`).
pub fn data_fins_come_soon()
    ensures by_turn { DataFinsComeSoon }
    ensures stays { DataFinsStaySoon }
    ensures rounds { FourRoundsEnd }
{}

/// A law: past the handshake of a mild connection a window that a segment without an octet tells is harmed, or comes within 400 ticks and is heard,
/// unless more is sent behind it (RFC 8684, section 3.3.5).
///
/// By each turn: one that comes by a tick comes by it still, or the side may send up to its edge; or more was sent behind it, so that it may be
/// overtaken (`by_turn`). The window begins at the place of the Data ACK that the segment has. In four rounds the side may send so far (`rounds`).
pub fn windows_come_soon()
    ensures by_turn { WindowsComeSoon }
    ensures rounds { FourRoundsOpen }
{}
