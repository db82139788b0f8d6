//! How path 0 of a mild connection opens, as clauses of functions that do nothing.
ghost use Rattle.whole_paths.specs.AnswersSoon.{EachSynAckIsAnsweredSoon};
ghost use Rattle.whole_paths.specs.Clear.{AHasTheKeyFirst};
ghost use Rattle.path_core.specs.Octets.{octets};
ghost use Rattle.path_core.specs.Values.{values};
ghost use Rattle.whole_paths.specs.EarlyCopies.{OpensLosingFew, came_early};
ghost use Rattle.whole_paths.specs.EarlyRecords.{EarlyNeverFalls, EarlyOverOctets, OpensOwingRecords};
ghost use Rattle.whole_paths.specs.FewRecords.{OpensOwingSegments, RecordsAreFull};
ghost use Rattle.whole_paths.specs.FirstPiecesSoon.{EachFirstPieceComesSoon};
ghost use Rattle.whole_paths.specs.OnePathScripts.{NeverFalls};
ghost use Rattle.whole_paths.specs.QuietOpenings.{OpensOwingFew, lost_early};
ghost use Rattle.whole_paths.specs.FewSyns.{SynsAreFew};
ghost use Rattle.whole_paths.specs.QuietTexts.{NothingComesEarlyByText};
ghost use Rattle.whole_paths.specs.SignPieces.{EachSignPieceComes};
ghost use Rattle.whole_paths.specs.SynsSoon.{EachSynComesSoon};
ghost use Rattle.whole_paths.specs.WrittenAtOnce.{WhatFitsIsWrittenAtOnce};

/// A law: a SYN that an end sends as it opens is harmed, or comes within 400 ticks (RFC 9293, section 3.5).
///
/// By each turn of a mild connection in which the link takes a SYN of A's for which B listens, or B's SYN/ACK for A: the segment is harmed, or the
/// wait for it that `each_syn_comes` speaks of ends 400 ticks later, twice the longest delay.
pub fn each_syn_comes_soon()
    ensures { EachSynComesSoon }
{}

/// A law: an answer of A's to the SYN/ACK of a half-open B is harmed, or comes within 400 ticks (RFC 9293, section 3.10.7.4).
///
/// By each turn of a mild connection in which the link takes a segment of A's that acknowledges B's SYN and nothing more, while A is past the handshake:
/// it is harmed, or the wait for it that `each_syn_ack_is_answered` speaks of ends 400 ticks later, twice the longest delay.
pub fn each_syn_ack_is_answered_soon()
    ensures { EachSynAckIsAnsweredSoon }
{}

/// A law: A's first piece that is sent with both keys is harmed, or comes within 400 ticks (RFC 8684, section 3.1).
///
/// By each turn of a mild connection in which the link takes it, while neither end may send a DSS, and nothing came to B behind the SYN: the segment is
/// harmed, or the wait for it that `each_first_piece_comes` speaks of ends 400 ticks later, twice the longest delay.
pub fn each_first_piece_comes_soon()
    ensures { EachFirstPieceComesSoon }
{}

/// A law: where B's end may send a DSS A's is past the handshake, and knows B's key (RFC 8684, section 3.1).
///
/// While A treats the SYN/ACK B's end may send none. So it is on path 0 of a mild connection, at every moment at which no end is dead.
pub fn a_has_the_key_first()
    ensures { AHasTheKeyFirst }
{}

/// A law: B's first piece comes to A on path 0 of a mild connection, whatever is lost, where B may send a DSS and A may send none yet, and shows A its
/// first DSS, by which A may send one (RFC 8684, section 3.1).
///
/// As a turn is over it comes within a minute and 400 ticks (`begin`). By each turn that stays so, or the path is a step further on its way to be
/// open, or a segment is harmed, or an end is dead (`goes_on`).
pub fn each_sign_piece_comes()
    ensures { EachSignPieceComes }
{}

/// A law: as path 0 opens no more is owed along either direction than A's end has records (RFC 8684, section 3.1).
///
/// Each of them may be lost: a segment that overtakes A's first piece comes to an end that has no key of A's, and drops its payload. How many there
/// are is counted by the first moment at which B's end may send a DSS (`early_values`, `early_octets`: that never falls; `over_octets`).
pub fn paths_open_owing_records()
    ensures owing { OpensOwingRecords }
    ensures early_values { EarlyNeverFalls values }
    ensures early_octets { EarlyNeverFalls octets }
    ensures over_octets { EarlyOverOctets }
{}

/// A law: as path 0 opens no more of A's records may be lost than segments were harmed, and copies with octets came to B's end before that might
/// send a DSS (RFC 8684, section 3.1).
///
/// B's end has no key of A's then, and drops their payload. Until it has, each record of A's that was sent is under way, or was harmed, or a copy
/// of it came (`loses`; `count`: how many came never falls; where A's timer runs out one of those before counts at most). So no more is owed along
/// either direction than that; nor more, besides what was harmed, than A's end has records, or than A's file has full segments where that fits the
/// first window (`owes`; `fewer`: that never falls).
pub fn paths_open_owing_few()
    ensures loses { OpensLosingFew }
    ensures count { NeverFalls came_early }
    ensures owes { OpensOwingFew }
    ensures fewer { NeverFalls lost_early }
{}

/// A law: an application writes a file at once that fits what its side buffers.
///
/// At every moment nothing of it is written, or all: as the first write comes nothing waits to be acknowledged, and a later one has nothing left.
pub fn what_fits_is_written_at_once()
    ensures values { WhatFitsIsWrittenAtOnce values }
    ensures octets { WhatFitsIsWrittenAtOnce octets }
{}

/// A law: on the only path of a mild connection each record of an end holds a full segment's payload, where its side's file fits the first window,
/// but for the SYN, and one that reaches past all of the file.
///
/// So it is as long as both ends live and the end sent no FIN (`full`). As the path opens nothing of A's file is acknowledged: so no more is owed
/// along A's direction than that has full segments, and perhaps a shorter one (`owing`).
pub fn records_are_full()
    ensures full { RecordsAreFull }
    ensures owing { OpensOwingSegments }
{}

/// A law: where no line of the script moves one of A's first eight segments, none with octets comes to B's end before that may send a DSS, over the
/// only path of a mild connection (RFC 8684, section 3.1).
///
/// These come in the order in which they were sent, and no later one comes before. The first one that acknowledges B's SYN is among them
/// (`syns_are_few`), has no octet, and shows both keys. It is said of fewer than 2^64 - 1 turns by which no end died, over a path of 400 ticks at
/// most.
pub fn nothing_comes_early_by_text()
    ensures { NothingComesEarlyByText }
{}

/// A law: as long as A's end of the only path of a mild connection opens it sends six segments at most: its SYN, and that again for each of five
/// expiries in a row (RFC 9293, section 3.8.3; RFC 6298, section 5).
///
/// Neither end is dead: the sixth expiry in a row would end A's.
pub fn syns_are_few()
    ensures { SynsAreFew }
{}
