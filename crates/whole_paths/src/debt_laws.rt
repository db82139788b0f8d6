//! What is to be mended of a connection over one path, and how it is, as clauses of functions that do nothing.
ghost use Rattle.whole_paths.specs.CutRecords.{CheckedRecordsArePassedWhole, UncheckedRecordsArePassedWhole};
ghost use Rattle.whole_paths.specs.DirectionWaits.{DirectionsAreMended, NumbersAlwaysAgree, RecordsArePassedWhole};
ghost use Rattle.whole_paths.specs.FinDebts.{FinsAreHeard, FinsGoAgain, FinsStandOn};
ghost use Rattle.whole_paths.specs.FinsMended.{FewFinsAreOwed, FinsAreMended, WhatIsAckedLasts, WhoOwesNoFinStands};
ghost use Rattle.whole_paths.specs.OpenFirst.{AOwesRecordsFirst, BOwesNoneFirst, FewAsItOpensAreFew, OpensWithFewSo, PathsOpenByClearing};
ghost use Rattle.whole_paths.specs.OpenQuietly.{OpensQuietly};
ghost use Rattle.whole_paths.specs.Directions.{DirectionsGoOn, WhatOwesNoneIsWell, WhoIsToldButStaysSo};
ghost use Rattle.whole_paths.specs.FullGrants.{EachGrantIsFull};
ghost use Rattle.whole_paths.specs.Stalls.{WhoStallsIsShut};
ghost use Rattle.whole_paths.specs.FirstLost.{LostRecordsAreAwaited, LostRecordsAreMended};
ghost use Rattle.whole_paths.specs.Mends.{WhatRunsOutIsMended};
ghost use Rattle.whole_paths.specs.ClearRounds.{LostRecordsAreFirst, LostRecordsStay, WhatIsReachedIsFirst};
ghost use Rattle.whole_paths.specs.Unmended.{DebtsGoOn, HarmsAloneAreOwed};

/// A law: with checksums RCV.NXT of an end lies inside no record of data of its peer's, on path 0 of a mild connection: each is passed whole
/// (RFC 8684, section 3.3.1).
pub fn checked_records_are_passed_whole()
    ensures { CheckedRecordsArePassedWhole }
{}

/// A law: without checksums RCV.NXT of an end lies inside no record of data of its peer's either, on path 0 of a mild connection neither end of which
/// is dead: each segment has all of a record, so that none of its octets comes, or all (RFC 9293, section 3.4; `unchecked`).
///
/// So it doesn't wherever path 0 is open, with checksums or without (`always`).
pub fn records_are_passed_whole()
    ensures unchecked { UncheckedRecordsArePassedWhole }
    ensures always { RecordsArePassedWhole }
{}

/// A law: as many bytes of a side's stream are acknowledged by Data ACKs as positions of the only path of a mild connection, where a turn is over, and
/// never more; and RCV.NXT of the peer lies inside no record of data (RFC 8684, sections 3.3.1 and 3.3.2).
///
/// So it is at each moment at which the path is open, unless all of the side's stream is with the peer.
pub fn numbers_agree()
    ensures { NumbersAlwaysAgree }
{}

/// A law: where no segment with octets comes to B's end before that may send a DSS, no more of A's records may be lost as the only path of a mild
/// connection opens than segments were harmed (RFC 8684, section 3.1).
///
/// None comes unless A's third segment, which shows both keys, is harmed or overtaken: each record that was sent is under way, or was harmed.
pub fn opens_quietly()
    ensures { OpensQuietly }
{}

/// A law: in one direction of path 0 of a mild connection where windows have room (`windows_have_room`) a segment that is harmed makes one debt at
/// most (RFC 9293, section 3.10.7.4).
///
/// So it is over any number of paths; `free` over one. Debts are records of data of a side that may be lost, and what harmed segments of its peer
/// acknowledged and the side's end didn't hear: by each turn there are no more than before, but for one if a segment is harmed (`debts`). Until the
/// peer is past the side's FIN the end is told soon how far the peer is, or that stands among them; and each segment under way to it acknowledges what
/// it heard, is told soon, or stands there (`told`), by turns between ends past the handshake, B's of which may send a DSS.
/// Once all of the side's stream is with the peer, none is owed. Without debts each record of the side is well, and its end is told soon, or
/// all of its stream is with the peer (`free`).
pub fn directions_go_on()
    ensures told { WhoIsToldButStaysSo }
    ensures debts { DirectionsGoOn }
    ensures free { WhatOwesNoneIsWell }
{}

/// A law: of such debts one is mended within 62,000 ticks, unless a segment is harmed, over one path of a mild connection (RFC 6298, section 5).
///
/// An end hears what it wasn't told: its timer runs out within a minute, its first record goes again, and the peer answers. A record that may be
/// lost becomes the first one, since all before it comes within 400 ticks, and is acknowledged; then it goes again, as the timer runs out: no news
/// starts that anew, as the direction's numbers agree (`numbers_agree`).
pub fn directions_are_mended()
    ensures { DirectionsAreMended }
{}

/// A law: the only path of a mild connection opens by the turn by which B's end may send a DSS first (RFC 8684, section 3.1).
///
/// It is open in one direction once both ends are past the handshake, and B's may send one: then A's end is past it, and knows B's key
/// (`a_has_the_key_first`).
pub fn paths_open_by_clearing()
    ensures { PathsOpenByClearing }
{}

/// A law: along a direction there are no more debts than harmed segments at any open moment of the only path of a mild connection, where there are no
/// more as B's end may send a DSS first (RFC 8684, section 3.1; `opens`).
///
/// In B's direction there are none by the turn by which B's end may send one first (`b`): it sent nothing behind its SYN. In A's there are as many as
/// records may be lost (`a`): nothing came to B behind A's SYN. So there are few as the path opens, where few of A's records may be lost then
/// (`first`).
pub fn few_as_it_opens_are_few()
    ensures opens { FewAsItOpensAreFew }
    ensures b { BOwesNoneFirst }
    ensures a { AOwesRecordsFirst }
    ensures first { OpensWithFewSo }
{}

/// A law: once all bytes before it are acknowledged a DATA_FIN comes, or goes again as a timer runs out, unless it is harmed, over one path of a
/// mild connection (RFC 8684, section 3.3.3; RFC 6298, section 5).
///
/// While bytes wait for the peer's window it may go before them, and be overtaken by a piece that is sent later. Nothing is sent behind it once
/// SND.UNA is past the last byte of the side's file. By the turn in which it comes to be past, and by one in which a segment of the side is harmed,
/// the DATA_FIN may be owed; by others it isn't (`stands`). Where it is owed its end's timer runs, and as that runs out it goes again, and comes
/// within 400 ticks, or is harmed (`again`).
pub fn fins_stand_on()
    ensures stands { FinsStandOn }
    ensures again { FinsGoAgain }
{}

/// A law: a DATA_FIN that isn't owed is heard in four rounds, once all bytes before it are acknowledged, over one path of a mild connection
/// (RFC 8684, section 3.3.3).
///
/// Then the peer's side knows where the stream ends. It is said of a DATA_FIN that was sent, and of bytes that are acknowledged as the rounds begin.
pub fn fins_are_heard()
    ensures { FinsAreHeard }
{}

/// A law: a DATA_FIN is a debt of one at most, which is mended within 60,100 ticks, unless more is counted, over one path of a mild connection
/// (RFC 8684, section 3.3.3; RFC 6298, section 5).
///
/// What is counted takes in the segments that are harmed, and once the moment from which on all bytes of the side's file are acknowledged (`mended`),
/// which stays so (`acked`). No more such debts are owed at any open moment than were counted (`few`), and without one the DATA_FIN wasn't sent, was
/// heard or comes, or bytes before it aren't acknowledged, or all of the stream is there (`none`).
pub fn fins_are_mended()
    ensures mended { FinsAreMended }
    ensures few { FewFinsAreOwed }
    ensures acked { WhatIsAckedLasts }
    ensures none { WhoOwesNoFinStands }
{}

/// A law: between open ends of the only path of a mild connection no more is to be mended of what a side sends, but for one if a segment of it is
/// harmed.
pub fn harms_alone_are_owed()
    ensures { HarmsAloneAreOwed }
{}

/// A law: debts go on so, by each step and as a round begins.
pub fn debts_go_on()
    ensures { DebtsGoOn }
{}

/// A law: where the first record of a side may be lost, there is one less that may be by the tick to which its timer runs, unless a segment is
/// harmed, between open ends (RFC 6298, section 5).
///
/// By each turn that stays so to the same tick; or fewer records may be lost: SND.UNA rose past it, or it went again; or a segment of the path
/// is harmed. Or there is news by which the timer may have started anew, though SND.UNA isn't past the record.
pub fn lost_records_are_mended()
    ensures { LostRecordsAreMended }
{}

/// A law: such a wait begins where a turn is over, and ends within a minute (RFC 6298, section 2, rule 2.5).
///
/// Where path 0 is open, its turn is over, and the first record of a side is one that may be lost, its timer runs for 60,000 ticks at most; and
/// no such wait ends before the round does.
pub fn lost_records_are_awaited()
    ensures { LostRecordsAreAwaited }
{}

/// A law: in eight rounds without a harm a record that may be lost becomes the first one, or one less may be lost (RFC 9293, section 3.4).
///
/// It is said of rounds of a mild connection between open ends of path 0, where the end was to be told soon how far its peer was after the first
/// four. By turns without a harm no more records may be lost (`stays`).
pub fn lost_records_are_first()
    ensures stays { LostRecordsStay }
    ensures first { LostRecordsAreFirst }
{}

/// A law: where SND.UNA has reached a record that may be lost, that is the first one, or one less may be lost.
///
/// It is said of path 0 of a mild connection between open ends.
pub fn what_is_reached_is_first()
    ensures { WhatIsReachedIsFirst }
{}

/// A law: what an end sent is mended as its timer runs out, unless a segment is harmed once more (RFC 6298, section 5, rule 5.4).
///
/// Once the timer ran out, by a turn between open ends of a mild connection, the first record alone may be lost, and is to go again. As it goes
/// it is harmed, or each record of the end is well: the first one comes within 400 ticks, each other one is to be sent.
pub fn what_runs_out_is_mended()
    ensures { WhatRunsOutIsMended }
{}

/// A law: what the end of the only path of a mild connection is granted is a full segment's payload, or all that there is for it (RFC 9293, section
/// 3.8.6).
///
/// By any turn SND.NXT of an end that sent no FIN stays; or where it was the end's last record begins now, of data, that holds a full segment's payload,
/// or reaches all that is written of the side's stream, or the edge of the peer's window.
pub fn each_grant_is_full()
    ensures { EachGrantIsFull }
{}

/// A law: a stream of a mild connection over one path stalls at a window that is shut, and at nothing else (RFC 9293, section 3.8.6).
///
/// As six rounds begin the end is told soon how far its peer is. After them more of the stream came; or something was sent that hasn't come yet; or all
/// of the file lies before the edge of the peer's window, or all of the stream is with the peer; or nothing is left to be acknowledged, and the end
/// knows that the window is shut, so that its timer runs (`who_waits_has_a_timer`).
pub fn who_stalls_is_shut()
    ensures { WhoStallsIsShut }
{}
