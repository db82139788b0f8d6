//! What is promised of each connection, whatever its paths lose.
//!
//! Many clauses ask that a full segment has room beside its options, and that the numbers of the start fit: so it is by each script, with
//! files shorter than 2^31 - 2 octets. Where a clause stands over `values` alone, or over `Carried`, the segments are values.
ghost use Rattle.path_core.specs.Octets.{octets};
ghost use Rattle.path_core.specs.State.{PathState};
ghost use Rattle.path_core.specs.Values.{Carried, values};
ghost use Rattle.std.specs.Prelude.{ℕ, List};
ghost use Rattle.world_laws.specs.Laws.{Always};
ghost use Rattle.world_laws.specs.Promises.{HoldsAnyway, HoldsAnywayOfOctets};
ghost use Rattle.whole_paths.specs.Acknowledged.{WhatIdleEndsWroteIsAcknowledged, WhatWasGrantedIsAcknowledged, WhatWasWrittenIsAcknowledged};
ghost use Rattle.whole_paths.specs.Answered.{CopiesAreAnswered};
ghost use Rattle.whole_paths.specs.Arrivals.{EachCopyArrives, EachMappedRecordIsAPiece, EachPieceComesInOrder};
ghost use Rattle.whole_paths.specs.AsFar.{NothingGoesBack};
ghost use Rattle.whole_paths.specs.Awaited.{EachWindowComes};
ghost use Rattle.whole_paths.specs.Brought.{WhatComesIsKept};
ghost use Rattle.whole_paths.specs.Came.{WhatIsAcknowledgedCame};
ghost use Rattle.whole_paths.specs.Clear.{AHearsNoEndBefore, AIsToldNoEndBefore, ClearEndsArePast, WhoIsDoneIsClear};
ghost use Rattle.whole_paths.specs.Closing.{EachDataFinCounts, EachDataFinIsSaid};
ghost use Rattle.whole_paths.specs.ClosingAsked.{EachDataFinComes};
ghost use Rattle.whole_paths.specs.ClosingFin.{EachFinIsPassed};
ghost use Rattle.whole_paths.specs.ClosingKnown.{EachEndIsToldFirst, WhatIsHeardIsWanted, WhoHeardTheEndKnowsIt};
ghost use Rattle.whole_paths.specs.ClosingOwed.{WhatWantsAnAnswerIsOwedOne};
ghost use Rattle.whole_paths.specs.ComingCopies.{EachCopyThatComesCounts};
ghost use Rattle.whole_paths.specs.Copies.{CopiesLeaveByArriving};
ghost use Rattle.whole_paths.specs.DataAcks.{EachSegmentHasADataAck};
ghost use Rattle.whole_paths.specs.DataAcksAsked.{WhatIsAskedComes};
ghost use Rattle.whole_paths.specs.DataAcksCome.{EachAckComes, EachAskArrives};
ghost use Rattle.whole_paths.specs.DataAcksExchanged.{EachAskIsAnswered};
ghost use Rattle.whole_paths.specs.DataAcksHeard.{EachDataAckCounts, EachDataAckIsSaid};
ghost use Rattle.whole_paths.specs.DataAcksNow.{OnlyPathsAreUpToDate};
ghost use Rattle.whole_paths.specs.DataAcksOwed.{WhatIsOwedHasADataAck};
ghost use Rattle.whole_paths.specs.Deaths.{EndsDieOfTheirCauses};
ghost use Rattle.whole_paths.specs.Due.{CopiesArriveAsSent};
ghost use Rattle.whole_paths.specs.Ends.{EndsAreSent};
ghost use Rattle.whole_paths.specs.Exchanges.{EachRecordIsAcknowledged};
ghost use Rattle.whole_paths.specs.Expiries.{WhatRunsOutGoesAgain};
ghost use Rattle.whole_paths.specs.ExpiriesInARow.{ExpiriesAloneCount};
ghost use Rattle.whole_paths.specs.FirstPieces.{EachFirstPieceComes};
ghost use Rattle.whole_paths.specs.OpeningStates.{EndsGoByTheHandshake};
ghost use Rattle.whole_paths.specs.Flights.{WhatWaitsComes};
ghost use Rattle.whole_paths.specs.Harms.{EachUsesALineOrComes, PlainDirectionsHandOnAtOnce};
ghost use Rattle.whole_paths.specs.Hearing.{EachAcknowledgementCounts};
ghost use Rattle.whole_paths.specs.InHand.{WhatIsInHandIsAcknowledged};
ghost use Rattle.whole_paths.specs.InTime.{EventsComeInOrder, NothingIsOverdue};
ghost use Rattle.whole_paths.specs.Kept.{WhatWaitsIsKept};
ghost use Rattle.whole_paths.specs.KnownEnds.{EndsAreKnown, WhatIsClosedIsAcknowledged};
ghost use Rattle.whole_paths.specs.KnownModes.{EndsKnowWhatWas, NoEndKnowsOfAFallback};
ghost use Rattle.whole_paths.specs.Mapped.{WhatIsToldIsKnown};
ghost use Rattle.whole_paths.specs.Opening.{EachHandshakeCounts, EachSynCounts};
ghost use Rattle.whole_paths.specs.Mending.{WhatIsSentComesSoon};
ghost use Rattle.whole_paths.specs.NeverAborted.{NoSideIsStopped};
ghost use Rattle.whole_paths.specs.News.{EachGainCounts, EachNewsCounts, NewsIsBounded, NewsNeverFalls};
ghost use Rattle.whole_paths.specs.Offered.{WhatIsTakenIsOffered};
ghost use Rattle.whole_paths.specs.OpeningConfirmed.{EachConfirmationCounts, SignsAreSaid};
ghost use Rattle.whole_paths.specs.OpeningKeys.{EachSegmentShowsKeys};
ghost use Rattle.whole_paths.specs.Owed.{WhatIsOwedComes};
ghost use Rattle.whole_paths.specs.Passed.{WhatIsInOrderIsPassed};
ghost use Rattle.whole_paths.specs.Probes.{EachProbeIsAnswered};
ghost use Rattle.whole_paths.specs.Reasons.{WhoWaitsHasATimer};
ghost use Rattle.whole_paths.specs.RecordsGo.{EachRecordGoesAlone};
ghost use Rattle.whole_paths.specs.Received.{HoldsOfOnlyPaths, WhatIsGrantedIsPlaced, WhatIsGrantedIsReceived, WhatIsPassedIsPlaced, WhatIsPassedIsReceived};
ghost use Rattle.whole_paths.specs.Room.{WhoIsDoneMayAsk};
ghost use Rattle.whole_paths.specs.Rising.{EndsOpenByCopies};
ghost use Rattle.whole_paths.specs.Running.{TimersRunOn};
ghost use Rattle.whole_paths.specs.SentAgain.{EachExpirySendsAllAgain};
ghost use Rattle.whole_paths.specs.Saying.{EachSegmentSaysWhatCame};
ghost use Rattle.whole_paths.specs.Sent.{WhatCameWasSent};
ghost use Rattle.whole_paths.specs.SentByTurns.{EachTurnSendsOneAtMost};
ghost use Rattle.whole_paths.specs.SetTimers.{EachTimerRunsForASecond};
ghost use Rattle.whole_paths.specs.Shut.{WhatIsLeftIsPastTheEdge};
ghost use Rattle.whole_paths.specs.SynAcks.{EachSynAckIsAnswered};
ghost use Rattle.whole_paths.specs.Syns.{EachSynComes};
ghost use Rattle.whole_paths.specs.Timers.{TimersRunOut};
ghost use Rattle.whole_paths.specs.UnaSaid.{EachUnaIsSaid};
ghost use Rattle.whole_paths.specs.Waits.{NoTimerIsPutOff};
ghost use Rattle.whole_paths.specs.WholeMappings.{MappingsAreWhole};
ghost use Rattle.whole_paths.specs.WindowsHeard.{EachWindowCounts};
ghost use Rattle.whole_paths.specs.Writers.{WritersGoOn};

/// A law: by whatever turns, lawful or not, nothing that an end, a side or an actor has reached goes back, whatever is lost, late, repeated or altered.
///
/// At both ends of a path that is SND.UNA, SND.NXT and RCV.NXT, the states that were passed, how much the heard Data ACKs
/// acknowledge, that a DATA_FIN was sent, came or was acknowledged, and that a DSS may be sent (RFC 9293, section 3.3; RFC 8684, section
/// 3.3). At each side it is what was written, received without a gap and read, each acknowledged byte, the edge of the window, and the
/// ends of both streams. Each actor keeps the steps that it made, and so what a reader was told. A retransmission takes nothing of it
/// away, nor do bytes that are given back, or the death of a path.
pub fn nothing_goes_back()
    ensures octets { NothingGoesBack octets }
    ensures values { NothingGoesBack values }
{}

/// A law: the mode that an end knows, if it isn't the first one, is one that its side is or was in (RFC 8684, section 3.7).
///
/// An end is told the mode by its side's control book alone. In a connection whose script takes away no option and alters no payload no side
/// falls back, so that no end knows of plain TCP or of an infinite mapping.
pub fn ends_know_what_was()
    ensures octets { EndsKnowWhatWas octets }
    ensures values { EndsKnowWhatWas values }
    ensures mild { NoEndKnowsOfAFallback }
{}

/// A law: how far a connection is, as one number, never falls, by whatever turns, whatever is lost, late, repeated or altered.
///
/// The number is the sum of all that `nothing_goes_back` speaks of: at both ends of each path SND.UNA, SND.NXT, RCV.NXT and the state (RFC
/// 9293, section 3.3), the bytes and DATA_FINs that are acknowledged (RFC 8684, section 3.3), whether a DSS may be sent and the third
/// MP_JOIN is answered (section 3.2); at each side what is written, received and read, the edge of the window and the ends of both streams;
/// and the lines of the script that are taken, or by which a segment was lost or late.
pub fn news_never_falls()
    ensures octets { NewsNeverFalls octets }
    ensures values { NewsNeverFalls values }
{}

/// A law: each turn sends one segment on each path at most, so that there are no more segments of an end than turns.
pub fn each_turn_sends_one_at_most()
    ensures octets { EachTurnSendsOneAtMost octets }
    ensures values { EachTurnSendsOneAtMost values }
{}

/// A law: how far a connection is, as one number, is bounded by its files, buffers and paths and by the lines of the script, whatever is lost,
/// late or repeated, where no payload is altered and the numbers fit.
pub fn news_is_bounded()
    ensures octets { NewsIsBounded octets }
    ensures values { NewsIsBounded values }
{}

/// A law: how far a connection is, as one number, rises with all news.
///
/// The number rises as SND.UNA, SND.NXT or RCV.NXT of an end rises, a Data ACK acknowledges more, or the SYN, the DATA_FIN or the third MP_JOIN
/// is answered; as an end dies; as a line of the script is taken; and with each segment that uses a line by which it is lost or late.
pub fn each_news_counts()
    ensures octets { EachNewsCounts octets }
    ensures values { EachNewsCounts values }
{}

/// A law: with each byte that a side writes, receives without a gap or reads, as the edge of its peer's window rises, as its stream is closed
/// and as it learns where its peer's ends, that number rises too.
pub fn each_gain_counts()
    ensures octets { EachGainCounts octets }
    ensures values { EachGainCounts values }
{}

/// A law: no timer of a path ever waits for more than a minute (RFC 6298, section 2).
///
/// At every moment each timer that runs, at either end of each path, runs out 60,000 ticks after the path's tick at most; a timeout is
/// never below 1,000 ticks, nor above 60,000; and the tick lies before the end of the round.
pub fn timers_run_out()
    ensures octets { Always octets (λ start w. TimersRunOut w) }
    ensures values { Always values (λ start w. TimersRunOut w) }
{}

/// A law: no event of a path is passed by, so that each happens at its own tick.
///
/// At every moment neither a timer that runs, nor a copy that is under way, nor a line of the script that isn't taken, nor A's join, as
/// long as its end waits for it, lies before the path's clock; and where the path's turn is over, none lies before the end of its round. By
/// `timers_run_out` each timer runs out within a minute, or was stopped or put off before.
pub fn nothing_is_overdue()
    ensures octets { Always octets (λ start w. NothingIsOverdue w) }
    ensures values { Always values (λ start w. NothingIsOverdue w) }
{}

/// A law: whoever waits for an answer has a timer that runs, whatever is lost, late, repeated or altered (RFC 6298, section 5).
///
/// Where the turn of a path is over, at each end that opens, is open or closes: if its SYN, a piece or its FIN isn't acknowledged, or a
/// byte that was granted to the path or a DATA_FIN isn't acknowledged by a Data ACK, or the peer's window is shut, or the third MP_JOIN or
/// MP_FASTCLOSE isn't answered, then its timer runs (RFC 8684, sections 3.2, 3.3 and 3.5). By `timers_run_out` it does so for a minute at
/// most, and no end waits for ever in silence.
pub fn who_waits_has_a_timer()
    ensures octets { Always octets (λ start w. WhoWaitsHasATimer w) }
    ensures values { Always values (λ start w. WhoWaitsHasATimer w) }
{}

/// A law: while a record isn't acknowledged, nothing but news puts its timer off (RFC 6298, section 5, rules 5.1 to 5.3).
///
/// By any turn, the timer of an end with such a record runs still, to the same tick; or it was the path's next event that it runs out; or
/// there is news: SND.UNA rose, a Data ACK acknowledges more, or the SYN, the DATA_FIN or the third MP_JOIN is answered; or the end is
/// dead. Neither what the end sends nor what it hears again puts the timer off. That holds of a timer that was settled since the last
/// news, as each is at the end of a turn.
pub fn no_timer_is_put_off()
    ensures octets { NoTimerIsPutOff octets }
    ensures values { NoTimerIsPutOff values }
{}

/// A law: nothing but an expiry makes the expiries of an end in a row more, and each makes them one more (RFC 6298, section 5).
///
/// By any turn an end has no more of them than before, or its timer ran out, which was what came next on the path, for the fifth time at
/// most, and there is one more.
pub fn expiries_alone_count()
    ensures octets { ExpiriesAloneCount octets }
    ensures values { ExpiriesAloneCount values }
{}

/// A law: an end sends the one record of data whose segment goes, and no other (RFC 9293, section 3.10.7.4).
///
/// By any turn a record of data that an end has sent it had sent before, or the segment that goes next on the path is that record's. It is said of
/// an end whose SYN is acknowledged.
pub fn each_record_goes_alone()
    ensures octets { EachRecordGoesAlone octets }
    ensures values { EachRecordGoesAlone values }
{}

/// A law: once a timer ran out, each record of its end is to be sent again (RFC 6298, section 5, rule 5.4): the first one at once
/// (`what_runs_out_goes_again`), and each other one is marked as to be sent, until the first one has gone. As that goes no record comes or is let go.
///
/// It is said of an expiry that isn't the sixth in a row, which ends the end.
pub fn each_expiry_sends_all_again()
    ensures octets { EachExpirySendsAllAgain octets }
    ensures values { EachExpirySendsAllAgain values }
{}

/// A law: an acceptable copy that comes ends the expiries in a row of its end (RFC 6298, section 5), and one that lies outside the window, is a SYN,
/// or acknowledges what wasn't sent, is owed an acknowledgement in its turn, or the SYN/ACK by a half-open end (RFC 9293, section 3.10.7.4).
pub fn each_copy_that_comes_counts()
    ensures { EachCopyThatComesCounts }
{}

/// A law: a timer that is set runs for a second at least (RFC 6298, section 2, rule 2.4).
///
/// By each turn the timer of an end runs on to its tick, or to one that is 1,000 ticks past the clock at least; or it doesn't run.
pub fn each_timer_runs_for_a_second()
    ensures octets { EachTimerRunsForASecond octets }
    ensures values { EachTimerRunsForASecond values }
{}

/// A law: what comes next on a path is the earliest of all that waits to happen there: of its lines, of the copies under way, of both timers,
/// and of a join.
pub fn events_come_in_order()
    ensures octets { EventsComeInOrder octets }
    ensures values { EventsComeInOrder values }
{}

/// A law: an end dies by the sixth expiry in a row, by the line by which its path dies, by a reset that counts (RFC 9293, section
/// 3.10.7.4), as it may not join, or by a duty that resets it; by nothing else.
///
/// By any turn an end that is dead afterwards was dead before, or one of these came next on its path.
pub fn ends_die_of_their_causes()
    ensures octets { EndsDieOfTheirCauses octets }
    ensures values { EndsDieOfTheirCauses values }
{}

/// A law: a timer that runs goes on to the same tick, whatever it runs for, until nothing of its end is outstanding (RFC 6298, section 5,
/// rules 5.2 and 5.3).
///
/// By any turn it runs still, to the same tick; or it was the path's next event that it runs out; or there is news, as in
/// `no_timer_is_put_off`; or the end is dead; or no record, granted byte, DATA_FIN, shut window, third MP_JOIN or MP_FASTCLOSE of the end
/// waits for an answer any longer. So the timer of an end that waits for one of these can't be stopped by another one that is answered.
pub fn timers_run_on()
    ensures octets { TimersRunOn octets }
    ensures values { TimersRunOn values }
{}

/// A law: where a timer runs out, the first record that isn't acknowledged is sent again, and the timer runs anew (RFC 6298, section 5,
/// rules 5.4 to 5.6).
///
/// The timer runs twice as long as before, for a minute at most, and what was outstanding is so still. The end sends the record before anything
/// else, once the bytes that its path was granted are given back, and the link takes the segment as it takes any: with the record's position,
/// flags and octets, and the options and the acknowledgement of now. The sixth expiry without an acceptable segment in between ends the end.
/// Where no record is left, an acknowledgement goes in its place, with what waits for an answer, or one position before SND.UNA as a probe.
pub fn what_runs_out_goes_again()
    ensures octets { WhatRunsOutGoesAgain octets }
    ensures values { WhatRunsOutGoesAgain values }
{}

/// A law: where the turn of a path is over, or an event is next on it, no end owes an acknowledgement or a SYN/ACK, so that each copy that
/// asks for one is answered in the turn in which it comes and before anything else happens (RFC 9293, section 3.10.7.4), or by the reset with
/// which the end dies. While an acknowledgement is owed no segment goes from the end but this one, at SND.NXT and without payload, or a reset
/// (`first`).
pub fn each_copy_is_answered_at_once()
    ensures octets { Always octets (λ start w. CopiesAreAnswered w) }
    ensures values { Always values (λ start w. CopiesAreAnswered w) }
{}

/// A law: RCV.NXT moves over a FIN that came as soon as no byte before it is missing (RFC 9293, section 3.10.7.4).
///
/// Where a copy that the end takes has the first FIN, or one came before, RCV.NXT is past it, once all is treated that the copy says and
/// carries; or RCV.NXT is still below it, as bytes before it are missing or can't be placed; or the end is dead, or reset next. The FIN stands
/// below 2^62.
pub fn each_fin_is_passed()
    ensures octets { EachFinIsPassed octets }
    ensures values { EachFinIsPassed values }
{}

/// A law: what wants an acknowledgement of a copy that an end takes is owed one at once (RFC 9293, section 3.10.7.4): bytes, a FIN, and of
/// Multipath TCP a DATA_FIN, both keys and the third MP_JOIN (RFC 8684, sections 3.1, 3.2 and 3.3.3).
///
/// Each copy that the end takes is owed one, also where it comes again. From then on the answer goes the way of each
/// (`what_is_owed_comes`).
pub fn what_wants_an_answer_is_owed_one()
    ensures octets { WhatWantsAnAnswerIsOwedOne octets }
    ensures values { WhatWantsAnAnswerIsOwedOne values }
{}

/// A law: an acknowledgement that an end owes comes to the peer within 400 ticks, twice the longest delay, unless it is harmed.
///
/// By each turn the end owes it still and the tick stays by which it comes, or its link took a segment of the end, which acknowledges all
/// that came to the end, and a copy of that is under way; or the copy was what arrives next; or the segment is harmed, so that no copy of it comes
/// within 400 ticks; or the end answers by a reset or is dead, or the path dies by a line. No event comes before the end has answered (`each_copy_is_answered_at_once`), so that the clock stands till then.
pub fn what_is_owed_comes()
    ensures octets { WhatIsOwedComes octets }
    ensures values { WhatIsOwedComes values }
{}

/// A law: each segment that an end sends acknowledges RCV.NXT (RFC 9293, section 3.10.7.4), but for the SYN of an end that opens and for resets.
///
/// By any turn in which a path sends, its link takes the segment that was to be sent next, which so acknowledges all that came in order: an
/// acknowledgement, a record for the first time or again, a window update, a DATA_FIN and what an expiry sends without a record.
pub fn each_segment_says_what_came()
    ensures octets { EachSegmentSaysWhatCame octets }
    ensures values { EachSegmentSaysWhatCame values }
{}

/// A law: each acknowledgement that an end takes counts: SND.UNA is at what the copy acknowledges then, or past it (RFC 9293, section
/// 3.10.7.4), whether it comes in order, repeated or late. So it is with the SYN/ACK that opens an end (section 3.10.7.3).
pub fn each_acknowledgement_counts()
    ensures octets { EachAcknowledgementCounts octets }
    ensures values { EachAcknowledgementCounts values }
{}

/// A law: each segment of a handshake counts: the SYN makes the end that listens half-open, the SYN/ACK opens the end that sent the SYN, and
/// any copy that a half-open end takes opens that one (RFC 9293, sections 3.5 and 3.10.7).
///
/// An end is that far at once, whatever is late or comes again, and stays that far, or is dead (`nothing_goes_back`). On a path that joins
/// a SYN waits for the control book, and the SYN/ACK and the third segment are such only with the HMAC of their side (RFC 8684, section
/// 3.2). On the path that opens the connection a copy of a SYN means so to its end, and one that comes again is answered (`syns`).
pub fn each_handshake_counts()
    ensures octets { EachHandshakeCounts octets }
    ensures values { EachHandshakeCounts values }
    ensures syns { EachSynCounts }
{}

/// A law: until A may send a DSS each acknowledgement that its end sends shows both keys, and so does the first piece (RFC 8684, section
/// 3.1), so that B gets them with whatever answers its SYN/ACK.
///
/// Both keys are shown once A knows B's, as long as the side doesn't fall back to plain TCP. A piece behind the first one, a FIN and a
/// notice have a DSS in their place; a segment with a SYN has none of it, nor has a reset.
pub fn each_segment_shows_keys()
    ensures octets { EachSegmentShowsKeys (List ℕ) }
    ensures values { EachSegmentShowsKeys Carried }
{}

/// A law: what confirms Multipath TCP to an end counts, in its turn: both keys let B send a DSS, and the first DSS lets A (RFC 8684, section
/// 3.1).
///
/// Where a copy that the end takes says it, the end hears it once all is treated that the copy says before, and from then on, by each turn,
/// the end may send a DSS, if it could not before. Or the end is dead, or reset next; or the side fell back to plain TCP; or the control book
/// was told another key for its own, as none is (`keys_never_differ`). A segment with a DSS says so, and one with both keys (`says`).
pub fn each_confirmation_counts()
    ensures octets { EachConfirmationCounts octets }
    ensures values { EachConfirmationCounts values }
    ensures says { SignsAreSaid }
{}

/// A law: each segment that an end sends acknowledges what came of the peer's stream: its Data ACK is the place that the side wants next,
/// as the end's reassembly book told it last (RFC 8684, section 3.3.2).
///
/// Once the end may send a DSS, and as long as its side doesn't fall back to plain TCP, such are an acknowledgement, a record for the first
/// time or again, a notice, a DATA_FIN and a FIN; before that each has such a DSS, or none. A segment with a SYN has none, nor has a reset.
pub fn each_segment_has_a_data_ack()
    ensures octets { EachSegmentHasADataAck (List ℕ) }
    ensures values { EachSegmentHasADataAck Carried }
{}

/// A law: on the only path of a connection each Data ACK is up to date: the end knows the place that its reassembly book wants next, where it
/// sends a segment that is no reset, where the turn is over, and where an event is next (RFC 8684, section 3.3.2).
///
/// What came in order is acknowledged by the next segment that the end sends (`each_segment_has_a_data_ack`), bytes and DATA_FIN. Its window is what the
/// book took of its buffer as the end asked it last; since then nothing was read, or all that came, or 65,536 bytes and more.
pub fn each_data_ack_is_up_to_date()
    ensures octets { Always octets OnlyPathsAreUpToDate }
    ensures values { Always values OnlyPathsAreUpToDate }
{}

/// A law: an acknowledgement that an end owes comes with the Data ACK of all that the end was told to be received, as `what_is_owed_comes` says of
/// what it acknowledges (RFC 8684, section 3.3.2).
///
/// The end may send a DSS and didn't fall back to plain TCP. By each turn the end owes it still, or such a segment is under way, without payload, at
/// SND.NXT or behind what that was, and its Data ACK is at the place that the end knows to be wanted as it sends, or past it: over one path that is
/// what its reassembly book wants (`each_data_ack_is_up_to_date`), over several what that wanted as the turn began (`what_is_wanted_is_told`).
pub fn what_is_owed_has_a_data_ack()
    ensures octets { WhatIsOwedHasADataAck octets }
    ensures values { WhatIsOwedHasADataAck values }
{}

/// A law: each Data ACK that an end takes counts, in its turn: all before its place is acknowledged then to the end (RFC 8684, section
/// 3.3.2), and where it is past all that the side wrote, the DATA_FIN too (section 3.3.3).
///
/// Where a copy that the end takes says it, the end hears it once all is treated that the copy says before, and from then on, by each turn,
/// so much is acknowledged. Or the end is dead, or reset next; or the side fell back to plain TCP, or sends by an infinite mapping, where the
/// acknowledgements of the subflow count in its place; or the send book refuses it, as none does (`nothing_is_refused`). A segment with a DSS
/// says so (`says`).
pub fn each_data_ack_counts()
    ensures octets { EachDataAckCounts octets }
    ensures values { EachDataAckCounts values }
    ensures says { EachDataAckIsSaid }
{}

/// A law: each window that an end is told counts, in its turn: the edge of the side's send book is where the window ends then, or past it, as
/// the window begins at the place of the Data ACK (RFC 8684, section 3.3.5).
///
/// Where a copy that the end takes tells it, the end hears it once all is treated that the copy says before, and from then on, by each turn,
/// the side may send so far. Or the end is dead, or reset next; or the side fell back to plain TCP, or sends by an infinite mapping; or the
/// send book refuses the Data ACK, as none does (`nothing_is_refused`). A segment with a DSS says its window with its Data ACK
/// (`each_data_ack_counts`, `says`).
pub fn each_window_counts()
    ensures octets { EachWindowCounts octets }
    ensures values { EachWindowCounts values }
{}

/// A law: what the reassembly book of a side takes its end may tell as it sends, as its turn begins with asking how much that is (RFC 8684,
/// section 3.3.5).
///
/// A book takes the bytes behind those that were read, as many as its buffer holds. By each turn, where it takes bytes up to a place, the end
/// was told so much, or asks before any segment of its goes. So it is at every end whose turn is over, and thus of all that was read as the
/// turn begins; whatever else happens meanwhile, no end ever tells less of its book again.
pub fn what_is_taken_is_offered()
    ensures octets { WhatIsTakenIsOffered octets }
    ensures values { WhatIsTakenIsOffered values }
{}

/// A law: each DATA_FIN that an end takes counts, in its turn: the reassembly book of the side is told where the peer's stream ends, and the
/// peer's DATA_FIN came then (RFC 8684, section 3.3.3).
///
/// Where a copy that the end takes says it, the end hears it once all is treated that the copy says before, and tells the book once the
/// payload is; from then on, by each turn, it came. Or the end is dead, or reset next, as where the book refuses the end; or the side fell
/// back to plain TCP, or hasn't the peer's key, so that no DATA_FIN counts. A segment whose DSS maps a DATA_FIN says so (`says`); and a copy
/// is taken, and says so, by which an end asks for the Data ACK of its DATA_FIN (`comes`, `what_is_asked_comes`), past the handshake of a path that
/// joins.
pub fn each_data_fin_counts()
    ensures octets { EachDataFinCounts octets }
    ensures values { EachDataFinCounts values }
    ensures says { EachDataFinIsSaid }
    ensures comes { EachDataFinComes }
{}

/// A law: where the peer's DATA_FIN came to an end, its side's reassembly book knows where the peer's stream ends, at every moment (RFC 8684,
/// section 3.3.3).
///
/// A DATA_FIN that a copy said, and that counts, came before the end sends a segment that is no reset (`first`). So where all bytes of a
/// stream are received, the book wants the place behind them as the end sends, which its Data ACK then names (`wanted`).
pub fn who_heard_the_end_knows_it()
    ensures octets { Always octets (λ start w. WhoHeardTheEndKnowsIt w) }
    ensures values { Always values (λ start w. WhoHeardTheEndKnowsIt w) }
    ensures first { (p : PathState (List ℕ)) → EachEndIsToldFirst p }
    ensures wanted { WhatIsHeardIsWanted }
{}

/// A law: nothing is acknowledged that didn't come: SND.UNA of each end that isn't dead lies at its peer's RCV.NXT or below, and so does what
/// each copy under way to it acknowledges that is no reset, whatever is lost, late, repeated or altered (RFC 9293, section 3.4).
pub fn what_is_acknowledged_came()
    ensures { Always values (λ start w. WhatIsAcknowledgedCame w) }
{}

/// A law: nothing came that wasn't sent: RCV.NXT of each end lies at its peer's SND.NXT or below, whatever is lost, late, repeated or altered
/// (RFC 9293, section 3.4), also once RCV.NXT is past the peer's FIN.
pub fn what_came_was_sent()
    ensures values { HoldsAnyway WhatCameWasSent }
    ensures octets { HoldsAnywayOfOctets WhatCameWasSent }
{}

/// A law: each byte of a piece that an end was granted, and that its peer's RCV.NXT is past, stands in the reassembly book of the peer's side,
/// or was read there (RFC 8684, section 3.3.2), whatever is lost, late, repeated or altered (`placed`).
///
/// On the only path of a connection by whose script no option is taken away, no payload is altered, and no side closes at once, no byte before
/// it is missing there (`received`). So a living end that has no record left waits for no Data ACK but of bytes that are received (`left`); over several
/// paths, of bytes that stand there (`granted`).
pub fn what_is_passed_is_received()
    ensures placed { HoldsAnyway WhatIsPassedIsPlaced }
    ensures granted { HoldsAnyway WhatIsGrantedIsPlaced }
    ensures received { HoldsOfOnlyPaths values WhatIsPassedIsReceived }
    ensures left { HoldsOfOnlyPaths values WhatIsGrantedIsReceived }
{}

/// A law: where an end waits for no Data ACK, each byte that its path was granted is acknowledged at its side (RFC 8684, section 3.3.2),
/// whatever is lost, late, repeated or altered, and whichever path was granted it besides.
///
/// As long as a byte isn't, it stands in a piece that the end waits for; and by `who_waits_has_a_timer` its timer runs then.
pub fn what_was_granted_is_acknowledged()
    ensures values { HoldsAnyway WhatWasGrantedIsAcknowledged }
    ensures octets { HoldsAnywayOfOctets WhatWasGrantedIsAcknowledged }
{}

/// A law: the congestion window of each end holds a full segment at every moment, and 2^20 octets at most (RFC 5681, section 3.1), and an open
/// end without a record, that sent no FIN and may send a DSS, may ask for bytes: so one of which nothing is outstanding.
pub fn who_is_done_may_ask()
    ensures octets { WhoIsDoneMayAsk octets }
    ensures values { WhoIsDoneMayAsk values }
{}

/// A law: over one path, as its turn is over, all that was written as the round began is acknowledged at a side whose end is open, may send a
/// DSS and has nothing outstanding (RFC 8684, section 3.3.2); or no bytes, where the peer's window isn't shut (`idle_octets`, `idle_values`).
///
/// Or the path was on standby when it asked for bytes last in this round, or the connection was stopped. What an application writes within
/// the round may be left for the next one. So where nothing is outstanding any longer, there is nothing left but what is written anew.
pub fn what_was_written_is_acknowledged()
    ensures octets { WhatWasWrittenIsAcknowledged octets }
    ensures values { WhatWasWrittenIsAcknowledged values }
    ensures idle_octets { WhatIdleEndsWroteIsAcknowledged octets }
    ensures idle_values { WhatIdleEndsWroteIsAcknowledged values }
{}

/// A law: over one path, in each round, what an open end leaves of its stream lies past the edge of its peer's window (RFC 9293, section
/// 3.8.6.1; RFC 8684, section 3.3.5).
///
/// As the path's turn is over, at an end that may ask for bytes and all of whose pieces are acknowledged by Data ACKs, all is acknowledged that
/// was written as the round began; or the window is shut, and all before the edge that it had as the round began is. Or the path asked on standby
/// last, or the connection was stopped. An open end that may send a DSS and has no record left may ask (`who_is_done_may_ask`).
pub fn what_is_left_is_past_the_edge()
    ensures octets { WhatIsLeftIsPastTheEdge octets }
    ensures values { WhatIsLeftIsPastTheEdge values }
{}

/// A law: in each round an application writes what there is room for (RFC 9293, section 3.9.1).
///
/// As its turn is over, its file is written and its stream closed, or more is written than was acknowledged as the round began, by all that
/// a side buffers; or the connection was stopped there.
pub fn writers_go_on()
    ensures octets { WritersGoOn octets }
    ensures values { WritersGoOn values }
{}

/// A law: in each round, as the turn of a path is over, an end that may ask for bytes of a stream that was closed as the round began knows
/// where it ends; or the connection was stopped there.
///
/// Where such an end is open, may send a DSS, sends with mappings and has no record left, its DATA_FIN was sent, and is acknowledged, or that is
/// what the end waits for (`acknowledged`; RFC 8684, section 3.3.3).
pub fn ends_are_known()
    ensures octets { EndsAreKnown octets }
    ensures values { EndsAreKnown values }
    ensures acknowledged { WhatIsClosedIsAcknowledged values }
    ensures acknowledged_octets { WhatIsClosedIsAcknowledged octets }
{}

/// A law: where the turn of a path is over, neither end is left with a DATA_FIN or a FIN to send (RFC 8684, section 3.3.3).
pub fn ends_are_sent()
    ensures octets { Always octets (λ start w. EndsAreSent w) }
    ensures values { Always values (λ start w. EndsAreSent w) }
{}

/// A law: each octet that comes to an end is kept until RCV.NXT passes it (RFC 9293, section 3.10.7.4).
///
/// A copy that the end takes brings all of its octets in the window; where one is kept at the same position already, that one stays. From
/// then on, by each turn, the octet is in hand until what the copy says is treated, and then kept, or RCV.NXT is past it. Or the end is
/// dead, or reset next; or RCV.NXT is past the peer's FIN; or the mapping at RCV.NXT fails its check (RFC 8684, section 3.3.1), where none is
/// kept any longer, so that each can come again. B drops the payload of a copy with an option until it has both keys (section 3.1).
pub fn what_comes_is_kept()
    ensures octets { WhatComesIsKept octets }
    ensures values { WhatComesIsKept values }
{}

/// A law: what a copy tells of its octets is known until RCV.NXT passes them (RFC 8684, section 3.3.1).
///
/// Each position of the first mapping of a copy that the end takes has a mapping then, or gets it once all is treated that the copy says
/// before; from then on, by each turn, until RCV.NXT is past it. Or the end is dead, or reset next, as where the mapping gives a position
/// another place; or the side fell back to plain TCP, or hasn't the peer's key, so that no mapping counts. At every moment each position
/// that has a place, from where mappings are kept on, has its mapping, and each mapping names places up to 2^62 (`live`).
pub fn what_is_told_is_known()
    ensures octets { WhatIsToldIsKnown octets }
    ensures values { WhatIsToldIsKnown values }
{}

/// A law: where the turn of a path is over, and before each segment that is no reset, no end that isn't dead keeps bytes that it may place:
/// RCV.NXT stands behind all octets in order that have their mapping (RFC 8684, section 3.3.1), with checksums behind each mapping that is
/// kept whole and right, and in plain TCP or under an infinite mapping behind all octets in order (section 3.7).
///
/// What comes in order is so passed in the turn in which it comes, and what waited behind it too, before anything is acknowledged; or the
/// reassembly book refuses it, and the end dies.
pub fn what_is_in_order_is_passed()
    ensures octets { Always octets (λ start w. WhatIsInOrderIsPassed w) }
    ensures values { Always values (λ start w. WhatIsInOrderIsPassed w) }
{}

/// A law: a copy of a piece that comes to an open end is taken in order, with its mapping, or it came before (RFC 9293, section 3.10.7.4;
/// RFC 8684, section 3.3.1).
///
/// The copy is neither stripped nor altered, and a DSS maps its bytes, or on the path that opens the connection the option that shows both keys those
/// of A's first piece. An end of a path that joins is past the handshake. Where
/// RCV.NXT is one of its positions, all of them lie in the window, what it acknowledges was sent, and the side didn't fall back to plain
/// TCP, the end takes it. Where RCV.NXT is past it, it lies outside the window. `what_is_in_hand_is_acknowledged` says what follows of
/// both. The segment of a record that an end sends with its own mapping is such a piece (`records`), and a copy of it that was under way
/// comes so (`copies`).
pub fn each_piece_comes_in_order()
    ensures comes { EachPieceComesInOrder }
    ensures records { EachMappedRecordIsAPiece }
    ensures copies { EachCopyArrives }
{}

/// A law: what comes to an end in order, with its mapping, is acknowledged in the same turn (RFC 9293, section 3.10.7.4).
///
/// A copy that the end takes, of whose octets none stands behind a gap or past the window, and whose first mapping names each from RCV.NXT on,
/// is in hand at once, and an acknowledgement is owed. Where each octet before a position is in hand, with its mapping, it is so by each
/// turn, and the acknowledgement can come by the same tick; or RCV.NXT is past the position, and the answer that says so goes the way of each
/// (`what_is_owed_comes`). No segment goes before but a reset, since the octet at RCV.NXT is passed first (`what_is_in_order_is_passed`). Or
/// the end is dead, or reset next; or RCV.NXT is past the peer's FIN; or B has neither both keys nor fell back; or no mapping counts
/// (`what_is_told_is_known`), or the peer sends by an infinite one; or, with checksums, a mapping fails its check or isn't whole before the
/// position. A copy outside the window, as one that came before, is answered at once, where the end isn't half-open.
pub fn what_is_in_hand_is_acknowledged()
    ensures octets { WhatIsInHandIsAcknowledged octets }
    ensures values { WhatIsInHandIsAcknowledged values }
{}

/// A law: the first record of an end that isn't acknowledged comes to the peer within a minute and 400 ticks, twice the longest delay, unless it
/// is harmed.
///
/// Where a turn is over its timer runs, for a minute at most (`timers_run_out`). From then on, by each turn, its timer runs still, or it is
/// to be sent again, or a copy of it is under way, and the tick stays by which a copy comes; or a copy was what arrives next; or there is news
/// (`no_timer_is_put_off`), or its segment is harmed, so that no copy of it comes within 400 ticks; or the end is dead, or the path dies by a line. By `nothing_is_overdue` the clock can't pass that tick
/// before one of these comes. So it is with the first 2^64 - 2 segments of a side.
pub fn what_waits_comes()
    ensures octets { WhatWaitsComes octets }
    ensures values { WhatWaitsComes values }
{}

/// A law: the first record that isn't acknowledged is acknowledged within a minute and 400 ticks there and back, unless a segment of the exchange
/// is harmed, or there is news (RFC 9293, section 3.10.7.4).
///
/// Where a turn is over such an exchange begins. By each turn it goes on in its order, and the tick stays: a copy of the record comes to the
/// peer, which takes its octets in order, with their mapping, or had them before; all of it is in hand there, and is passed; an acknowledgement
/// goes back that says as much; and SND.UNA is at the record's end then, or past it. Once the clock is past the tick it is so (`in_time`). That
/// is said of data where no line takes options away or alters payload, and of a path that joins past the handshake. Or there is news, octets of the
/// peer's come in order, a segment is harmed, or an end dies (`IsHeldUp`); or an end doesn't go by the mappings of pieces, or goes on to
/// a reset (`IsAstray`).
pub fn each_record_is_acknowledged()
    ensures { EachRecordIsAcknowledged }
{}

/// A law: an end without a record asks its peer again, and that comes within a minute and 400 ticks, twice the longest delay, unless it is
/// harmed.
///
/// An end without a record waits for the Data ACK of bytes or of a DATA_FIN, for a window, or for what answers its third MP_JOIN or
/// MP_FASTCLOSE (RFC 8684, sections 3.2, 3.3 and 3.5). Where a turn is over its timer runs, for a minute at most (`timers_run_out`). From
/// then on, by each turn, its timer runs still, or it is to send again, or a copy of that is under way, and the tick stays by which a copy
/// comes; or a copy was what arrives next; or the end has a record again, which comes by the same tick (`what_waits_comes`); or there is
/// news (`timers_run_on`), or nothing is outstanding any longer; or the segment is harmed; or the end is dead, or the path dies by a line. So it is with the first 2^64 - 2 segments of a side. Past the
/// handshake of a path that joins, as on the path that opens the connection, a copy of an acknowledgement is taken in the window, and answered
/// before RCV.NXT (`comes`), as a probe is (`arrives`).
pub fn what_is_asked_comes()
    ensures octets { WhatIsAskedComes octets }
    ensures values { WhatIsAskedComes values }
    ensures comes { EachAckComes }
    ensures arrives { EachAskArrives }
{}

/// A law: what an end without a record asks is answered with the Data ACK of what the peer's end was told to be received by then, where no segment
/// of the exchange is harmed (RFC 8684, sections 3.3.2 and 3.3.3).
///
/// By each turn the exchange goes on in its order, and the tick stays by which the answer comes: the end's DATA_FIN or probe comes to the
/// peer (`what_is_asked_comes`), which takes it, or answers it as a copy that came before; an acknowledgement goes back whose Data ACK is
/// at the place that the peer's end knows to be wanted as it sends, or past it; and the end hears it, in its turn. Where a turn is over such
/// an exchange begins, within a minute and 800 ticks there and back, and once the clock is past its tick the Data ACK is heard
/// (`in_time`). That is said of a path where no line takes options away or alters payload, past the handshake if it joins. Or the end has a record again,
/// or nothing of it is outstanding; or there is news, octets of the peer's come in order, a segment is lost or late, or an end dies
/// (`IsHeldUp`); or an end isn't open or doesn't go by Data ACKs (`IsAwry`).
pub fn each_ask_is_answered()
    ensures { EachAskIsAnswered }
{}

/// A law: what an end without a record asks is answered with a window up to the place that it waits for, where the peer's book takes so much,
/// and no segment of the exchange is harmed (RFC 9293, section 3.8.6.1; RFC 8684, section 3.3.5).
///
/// By each turn the exchange goes on in its order, as that of each ask (`each_ask_is_answered`), and the tick stays by which the answer comes:
/// the end's probe or DATA_FIN comes to the peer; an acknowledgement goes back whose window ends at the place or behind it, as the peer knows
/// as it sends that its book takes 31 bytes more (`what_is_taken_is_offered`); and the end hears it, so that the edge of its send book is at
/// the place or past it (`each_window_counts`). Where a turn is over such an exchange begins for any place, and once the clock is past its
/// tick the side may send so far (`in_time`). What may come between is the same as there.
pub fn each_probe_is_answered()
    ensures { EachProbeIsAnswered }
{}

/// A law: a window that an end without a record waits for comes within a minute and 800 ticks there and
/// back, where the peer's book takes so much, unless a segment of the exchange is harmed (RFC 9293, section 3.8.6.1).
///
/// Where a turn is over, and the side may not send up to a place past the edge of its send book, the wait for it begins. By each turn it goes
/// on, and its tick stays, or the edge rose. That is said of the path on which `each_probe_is_answered` says what may come between. In a
/// round that ends past its tick none is left (`due`). A book takes the bytes behind those that were read, so that an application that has read
/// all opens the window again.
pub fn each_window_comes()
    ensures { EachWindowComes }
{}

/// A law: by whatever turns, an end keeps what isn't acknowledged yet, so that it can be sent again.
///
/// Each record of its subflow (the SYN, a piece with its mapping, the FIN) stays, at its position and in its order, until SND.UNA reaches
/// its end (RFC 9293, section 3.4), and each piece that was granted to it until the Data ACKs that it heard acknowledge all of the piece
/// (RFC 8684, section 3.3.2). No expiry, no bytes that are given back and no segment that comes take any of them away. At a dead end
/// SND.UNA is SND.NXT.
pub fn what_waits_is_kept()
    ensures octets { WhatWaitsIsKept octets }
    ensures values { WhatWaitsIsKept values }
{}

/// A law: a segment that is sent uses a line by which one is lost or late, or is lost at random or before a full queue, or a copy of it comes
/// when its direction hands it on, no later than the delay, a full queue and the greatest jitter (`comes`): a delay later, where no rate,
/// loss or jitter is told of the direction (`at_once`).
pub fn each_segment_uses_a_line_or_comes()
    ensures comes { EachUsesALineOrComes (List ℕ) }
    ensures at_once { PlainDirectionsHandOnAtOnce (List ℕ) }
{}

/// A law: a segment that the link of a path takes is harmed, or a copy of it is under way that comes within 400 ticks, twice the longest delay.
///
/// A segment is harmed where no copy with its number comes so early. The numbers of copies under way are those of segments that were sent
/// (`numbered`), so that one with the next number carries what the link makes of the segment (`comes`): that itself, where no line takes options
/// away or alters payload. So it is with the first 2^64 - 2 segments of a side.
pub fn what_is_sent_comes_soon()
    ensures octets { WhatIsSentComesSoon octets }
    ensures values { WhatIsSentComesSoon values }
{}

/// A law: by whatever turn, a copy that is under way on a path is under way still, or it was the path's next event and so arrives, or that
/// event was the line of the script by which the path dies. Nothing but the script loses segments, as they are sent.
pub fn a_copy_leaves_by_arriving()
    ensures octets { CopiesLeaveByArriving octets }
    ensures values { CopiesLeaveByArriving values }
{}

/// A law: in a mild connection no side's control book is or was aborted: no application asks for a fast close, so that none is heard
/// (RFC 8684, section 3.5).
pub fn no_side_is_stopped()
    ensures { NoSideIsStopped }
{}

/// A law: with checksums, up to the end of each record of data of an end of a path of a mild connection, the mapping at its peer's RCV.NXT
/// begins there, and ends there or before.
///
/// So octets that came in order are passed with checksums too, as soon as their record is whole (RFC 8684, section 3.3.1): RCV.NXT stands at the
/// beginning of a piece, as each piece passes as a whole.
pub fn mappings_are_whole()
    ensures { MappingsAreWhole }
{}

/// A law: what arrives as a copy is due, at its tick, at its side and with its number, carries what the copy does. So it is with the first
/// 2^64 - 2 segments of a side, whose copies carry the same, and of which no two have one number.
pub fn copies_arrive_as_sent()
    ensures octets { Always octets (λ start w. CopiesArriveAsSent w) }
    ensures values { Always values (λ start w. CopiesArriveAsSent w) }
{}

/// A law: until its handshake is done A's end of a path waits for its tick, or sent its SYN, and B's listens, or is half-open, always (RFC
/// 9293, section 3.3.2).
pub fn ends_go_by_the_handshake()
    ensures octets { EndsGoByTheHandshake octets }
    ensures values { EndsGoByTheHandshake values }
{}

/// A law: by whatever turns, an end that isn't past the handshake stays in its state, or is dead, or a copy comes to it that takes it further:
/// the SYN to a listening end, the SYN/ACK to the one that sent its SYN, or a segment that is taken (RFC 9293, section 3.10.7). On a path that
/// joins, that may be the answer of the control book.
pub fn ends_open_by_copies()
    ensures octets { EndsOpenByCopies octets }
    ensures values { EndsOpenByCopies values }
{}

/// A law: at every moment of a connection, an end of a path that doesn't join may send a DSS only past the handshake: it may from the first copy on
/// that it takes, and hears (RFC 8684, section 3.1). On path 0 of a mild connection A has its DATA_FIN acknowledged, and sends its FIN, only where
/// it may send one (`done`); and until then its end keeps no DATA_FIN of B's (`unheard`), and over one path its side
/// knows no end of B's stream (`untold`).
pub fn clear_ends_are_past()
    ensures octets { ClearEndsArePast octets }
    ensures values { ClearEndsArePast values }
    ensures done { WhoIsDoneIsClear }
    ensures unheard { AHearsNoEndBefore }
    ensures untold { AIsToldNoEndBefore }
{}

/// A law: the SYN of A on path 0 comes to B while that listens, and the SYN/ACK of B to A while A waits for it, whatever is lost: an end goes
/// further then (RFC 9293, section 3.5).
///
/// Where a turn is over a copy of it comes within a minute and 400 ticks (`begin`, `end`). By each turn that stays so, or an end is further, or the
/// exchange is held up (`goes_on`).
pub fn each_syn_comes()
    ensures { EachSynComes }
{}

/// A law: A's first piece comes to B with both keys, whatever is lost, while neither end of path 0 may send a DSS yet, and nothing came to B behind
/// the SYN: B hears them in its turn, and may send a DSS by then (RFC 8684, section 3.1).
///
/// Where a turn is over it comes within a minute and 400 ticks (`begin`, `end`). By each turn of a mild connection that stays so, or the path is a
/// step further on its way to be open, or a segment is harmed, or an end is dead (`goes_on`).
pub fn each_first_piece_comes()
    ensures { EachFirstPieceComes }
{}

/// A law: the SYN/ACK of B on path 0 comes again to A's end that is past the handshake, which acknowledges it, and B hears that, whatever is
/// lost (RFC 9293, sections 3.5 and 3.10.7.4).
///
/// So a half-open end opens though the third segment was lost. Where a turn is over that is to come within a minute and 400 ticks there and back
/// (`begin`, `end`). By each turn of a mild connection it stays so, or B's end is further, or the exchange is held up; or A sent its FIN, so that all of its stream is with the peer (`goes_on`, `what_is_finished_is_there`).
pub fn each_syn_ack_is_answered()
    ensures { EachSynAckIsAnswered }
{}

/// A law: SND.UNA of each end rises by copies alone: what it becomes in a turn a copy acknowledged that was under way to the end (RFC 9293, section
/// 3.10.7.4).
///
/// By each turn it stays as it was, or the end is dead, or such a copy was there, which is no reset. It is said of values.
pub fn each_acknowledgement_is_said()
    ensures { EachUnaIsSaid }
{}
