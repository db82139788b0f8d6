//! What is read in a capture of ours, as clauses of functions that do nothing.
ghost use Rattle.judge_rules.specs.declared.finding.Rule.TheVariants.{AddressHmac, DataAck, DataFin, DssSum, Fail, FastCloseKey, Form, Infinite, JoinHmac, Keys, Mapping, PlaceContent, Token, Within};
ghost use Rattle.own_runs.specs.Arrivals.{EachAckIsCarried, EachAckRises, WhatCameWasSent};
ghost use Rattle.own_runs.specs.Connections.{EachRunIsOneConnection};
ghost use Rattle.own_runs.specs.Fitting.{TracesFit};
ghost use Rattle.own_runs.specs.Handshakes.{EachComesInOrder};
ghost use Rattle.own_runs.specs.KeysShown.{EachComesBehindKeys, EachShowsKeysSo};
ghost use Rattle.own_runs.specs.Learned.{LearnedPlacesWereTold};
ghost use Rattle.own_runs.specs.Named.{NamedMappingsWereTold};
ghost use Rattle.own_runs.specs.Packets.{CapturesAreTheirPackets};
ghost use Rattle.own_runs.specs.Runs.{DataFinsEndTheFiles, DeliveredRunsShowTheFiles, NoPlainRunBreaks, NoRunBreaks, NoWholeRunBreaks, ReadersGetWhatIsShown, SeenOctetsAreTheFiles, StreamsBeginTheFiles, TriedOctetsAreSeen, WholeStreamsAreTheFiles};
ghost use Rattle.own_runs.specs.Segments.{SegmentsAreFound, WrittenSegmentsAreFound};
ghost use Rattle.own_runs.specs.Traces.{TracesAreTheirPackets, TracesAreTheirSegments};
ghost use Rattle.own_runs.specs.ResetsEnd.{EachResetEnds};
ghost use Rattle.own_runs.specs.WholeKept.{DeliveredRunsAreKept, WholeReportsAreKept, WholeRunsEndWell};
ghost use Rattle.own_runs.specs.WholeSegments.{DeliveredRunsTellTheEnds, EachSaysWhatItBears};

/// A law: what is written of a section's blocks is read as a capture of their packets, in order, each a raw IPv4 packet with all its octets.
/// It holds of blocks that fit their fields, where each packet is of an interface that was named before it in its section.
pub fn captures_are_their_packets()
    ensures { CapturesAreTheirPackets }
{}

/// A law: what the receiver of octets reads as a segment between IPv4 addresses is found in the packet that carries these octets, between
/// the same addresses, whole and with a good sum. It holds of at most 65,515 octets, which fit a packet (RFC 791, section 3.1).
/// What is written of a segment is found, too (`written`).
pub fn segments_are_found()
    ensures read { SegmentsAreFound }
    ensures written { WrittenSegmentsAreFound }
{}

/// A law: the capture that is written of a trace is read as the packets of its segments, in order, each a raw IPv4 packet between the
/// addresses of its path with all octets of the segment (`packets`); and in each the segment is found as its receiver reads it, between
/// these addresses, whole and with a good sum (`segments`). It holds of segments that fit a packet (RFC 791, section 3.1), on paths that the
/// capture names, with ticks of 64 bits and fates that fit a comment. So are those of each run (`runs`) whose script has maximum segment sizes
/// of 65,495 octets at most, and ticks and queues of 64 bits, up to 2^57 turns.
pub fn traces_are_their_segments()
    ensures packets { TracesAreTheirPackets }
    ensures segments { TracesAreTheirSegments }
    ensures runs { TracesFit }
{}

/// A law: in the capture of a run of ours no side is told to break a rule of the judge's on options: each option reads (`form`), MP_CAPABLE
/// shows the known keys (`keys`, RFC 8684, section 3.1), a join the token of a key that was shown before it (`token`, section 3.2) and the
/// HMACs of both keys and nonces (`join_hmac`, section 3.2), an ADD_ADDR that of its address (`address_hmac`, section 3.4.1), and MP_FASTCLOSE
/// the key of its receiver (`fast_close_key`, section 3.5). Nor is payload sent outside of a mapping of its segment (`within`, section 3.3.1),
/// nor has a position of a subflow two places, nor a number none (`mapping`), and each checksum is that of its mapping and its octets (`dss_sum`).
/// Nor has a place two octets, also where an infinite mapping gives it its octet (`place_content`, section 3.7). The DATA_FIN stands at one place,
/// and no data behind it, also where a FIN stands for it under an infinite mapping (`data_fin`, sections 3.3.3 and 3.7).
/// Nor is what an infinite mapping maps mapped otherwise, neither by another one nor by a finite one on its path, nor is anything mapped behind it
/// on another path (`infinite`, section 3.7): all that a side tells, its own one behind an MP_FAIL and those of plain TCP, are on one path, with one
/// place less position. Where the script alters no payload no MP_FAIL names what is no mapping (`fail`, section 3.7), as there is none.
///
/// The capture is that of a trace (`traces_are_their_segments`), with sums checked. It holds of every list of turns, lawful or not, whatever the
/// script takes away or alters, where the numbers of the start fit and the run fits a capture (`traces_are_their_segments`), and wherever the
/// capture is said to be taken.
pub fn own_runs_break_no_rule()
    ensures form { NoRunBreaks Form }
    ensures keys { NoRunBreaks Keys }
    ensures token { NoRunBreaks Token }
    ensures join_hmac { NoRunBreaks JoinHmac }
    ensures address_hmac { NoRunBreaks AddressHmac }
    ensures fast_close_key { NoRunBreaks FastCloseKey }
    ensures within { NoRunBreaks Within }
    ensures mapping { NoRunBreaks Mapping }
    ensures dss_sum { NoRunBreaks DssSum }
    ensures place_content { NoRunBreaks PlaceContent }
    ensures data_fin { NoRunBreaks DataFin }
    ensures fail { NoPlainRunBreaks Fail }
    ensures infinite { NoRunBreaks Infinite }
{}

/// A law: the capture of a run is read, and at most one connection is seen in it, whatever the script does. B's key is that of the start, and A's,
/// where it was shown; checksums are used where the start says so (RFC 8684, section 3.1). The subflow that opened it runs on path 0. Each subflow
/// runs between the ends of a path of the start, A opened it by a SYN without payload, and no two run on the same path, so they are no more than
/// the paths. None of its packets is cut, and none has a wrong sum. Each join's connection was found (section 3.2), so no line is of a join, and
/// whether the capture ends well is for the rules of the two sides alone. The premises are those of `own_runs_break_no_rule`.
pub fn own_runs_are_one_connection()
    ensures { EachRunIsOneConnection }
{}

/// A law: where the script alters no payload and takes no options away, no Data ACK is of more than the judge saw of the other side's stream before
/// it (`data_ack`, RFC 8684, section 3.3.2). Else as in `own_runs_break_no_rule`, so none of the judge's rules is broken.
pub fn whole_runs_break_no_rule()
    ensures { NoWholeRunBreaks DataAck }
{}

/// A law: a path opens in its order, whatever the script does (RFC 9293, section 3.5; RFC 8684, sections 3.1 and 3.2). Each SYN of B's comes behind
/// a SYN of A's on its path. Each segment that is no SYN and no reset comes behind a SYN/ACK of B's there, which acknowledges A's SYN. And each SYN
/// of A's that joins the connection comes behind the SYN/ACK of path 0. It holds of every list of turns, lawful or not, where the numbers of the
/// start fit.
pub fn paths_open_in_order()
    ensures { EachComesInOrder }
{}

/// A law: behind a SYN of B's, an end that sent a reset sends resets alone on its path, whatever the script does (RFC 9293, section 3.10.7.1). Before
/// that SYN B refuses a join by a reset, and listens on (RFC 8684, section 3.2). It holds of every list of turns, lawful or not, where the numbers
/// of the start fit.
pub fn resets_end_a_path()
    ensures { EachResetEnds }
{}

/// A law: the judge ends well with the capture of such a run, at whichever side it was taken, and wherever the judge takes that to be. The
/// capture is read. At most one connection is seen, and where it is, no side broke any rule, and each join's connection was found (`ends`). Once
/// the run is delivered it is seen (`delivered`). So each side's line says that it was kept, and no line is of a join (`lines`). The premises are
/// those of `whole_runs_break_no_rule`.
pub fn whole_runs_end_well()
    ensures ends { WholeRunsEndWell }
    ensures delivered { DeliveredRunsAreKept }
    ensures lines { WholeReportsAreKept }
{}

/// A law: what the judge finds of a side's stream in the capture of a run, whatever the run's script does, over all subflows, up to the first octet
/// that isn't there, is a first part of the side's file (`begins`). Each octet of it that was seen is there, behind a gap, too, and is the file's,
/// also where an infinite mapping gives it its place (`seen`, RFC 8684, section 3.7): links may alter payload and take options away, but what was
/// sent is the file's. Its DATA_FIN stands behind the file's last octet (`ends`, RFC 8684, section 3.3.3), so where all octets before it are there
/// it is the file (`whole`). These four hold as `own_runs_break_no_rule` does, the others of runs as in `whole_runs_break_no_rule`. Once such a run
/// is delivered its capture is read, and shows both files whole, each with its DATA_FIN (`delivered`). Whether it is or not, an application has
/// read nothing that the capture doesn't show: each octet that it has read was seen, in the other side's stream, at its place (`read`). As a round
/// ends, where each actor's turn is over, each octet that was granted to a path, and isn't acknowledged, was seen (`tried`).
pub fn captures_show_the_files()
    ensures begins { StreamsBeginTheFiles }
    ensures seen { SeenOctetsAreTheFiles }
    ensures ends { DataFinsEndTheFiles }
    ensures whole { WholeStreamsAreTheFiles }
    ensures delivered { DeliveredRunsShowTheFiles }
    ensures read { ReadersGetWhatIsShown }
    ensures tried { TriedOctetsAreSeen }
{}

/// A law: each octet that came to a side, whether its reader has it or the book of the side holds it, was in a segment that the other side
/// handed to a link, as a part of its file (`octets`). So a Data ACK covers octets of the file that were in segments before it, and nothing more
/// than the place of the DATA_FIN behind them (`acks`, RFC 8684, section 3.3.2). Both hold after every list of turns, lawful or not, of a
/// connection whose script alters no payload.
pub fn what_came_was_sent()
    ensures octets { WhatCameWasSent }
    ensures acks { EachAckIsCarried }
{}

/// A law: where the script alters no payload and takes no options away, each segment maps what it bears: its payload is empty, or an option
/// maps all of it, by a DSS (RFC 8684, section 3.3.1) or, for the first octets, by the MP_CAPABLE (section 3.1). And a Data ACK covers the place
/// of the DATA_FIN only behind a segment that told it (`bears`, sections 3.3.2 and 3.3.3), and octets as in `what_came_was_sent`. Once such a run
/// is delivered a segment of each side told the DATA_FIN (`ends`). Both hold after every list of turns where the numbers of the start fit and the
/// run fits a capture.
pub fn whole_runs_say_what_they_bear()
    ensures bears { EachSaysWhatItBears }
    ensures ends { DeliveredRunsTellTheEnds }
{}

/// A law: the Data ACKs that a side sends on a path never fall (RFC 8684, section 3.3.2): of two of its segments there no Data ACK of the second is
/// less than one of the first. It holds of every list of turns, lawful or not, whatever the script takes away or alters, where the numbers of the
/// start fit.
pub fn data_acks_never_fall()
    ensures { EachAckRises }
{}

/// A law: MP_CAPABLE with both keys goes out from A alone, on a segment without SYN and RST, and with data on path 0 alone (RFC 8684,
/// section 3.1): no segment of a path that joins tells a data-level length by it. And each SYN of B on path 0 shows B's key. It holds after every
/// list of turns where the script alters no payload and takes no options away, and the numbers of the start fit (`shows`). Then each segment of A
/// that maps octets or tells the DATA_FIN comes behind one of A on path 0 that shows both keys (`behind`).
pub fn the_opener_shows_both_keys()
    ensures shows { EachShowsKeysSo }
    ensures behind { EachComesBehindKeys }
{}

/// A law: whatever the script does, an end takes a position of its subflow for that of a place of the stream only where a segment of the other
/// side on the same path, sent before, has a mapping that says so: that of a DSS, or that of MP_CAPABLE with data (RFC 8684, sections 3.1 and
/// 3.3.1). It holds after every list of turns, lawful or not, where the numbers of the start fit.
pub fn learned_places_were_told()
    ensures { LearnedPlacesWereTold }
{}

/// A law: whatever the script does, the place that an end names in MP_FAIL, where it goes on without a mapping or breaks its path for it
/// (RFC 8684, section 3.7), is one at which a mapping of octets begins that a segment of the other side on the same path, sent before, told. It holds
/// after every list of turns, lawful or not, where the numbers of the start fit.
pub fn named_mappings_were_told()
    ensures { NamedMappingsWereTold }
{}
