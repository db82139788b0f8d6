//! What is told of a side, as clauses of functions that do nothing.
ghost use Rattle.judge_laws.specs.Laws.{DataFinsEndStreams, KeptMappingsAreTold, KeptSidesAcknowledgeWhatWasSeen, KeptSidesSentOneStream, KeptSidesSumRight, OctetsStandBeforeDataFins, OneTurnedBitIsNeverKept, PacketsTakeNothingBack, PayloadIsTheStreams, SegmentsTakeNothingBack, WrittenStreamsAreTheirs};

/// A law: no segment, and no packets of a capture, take back what was known of a stream: of a place its octet, which places were seen, with which
/// ones mappings begin, how far it is mapped, the place of its DATA_FIN, that an infinite mapping was told, what its side acknowledged, and which
/// rules that side broke.
pub fn nothing_is_taken_back()
    ensures segment { SegmentsTakeNothingBack }
    ensures packets { PacketsTakeNothingBack }
{}

/// A law: behind a segment, where its side hasn't broken `place-content`, each octet of its payload that a mapping places is the octet that
/// the stream has at that place, unless the other side had acknowledged the place before (RFC 8684, section 3.3.1).
pub fn payload_is_the_streams()
    ensures { PayloadIsTheStreams }
{}

/// A law: a side that hasn't broken `place-content` sent one stream: each octet that any packet of the capture brought to a place that wasn't
/// acknowledged is the stream's octet there (`stream`), and what is written of the stream has it (`written`).
pub fn kept_sides_sent_one_stream()
    ensures stream { KeptSidesSentOneStream }
    ensures written { WrittenStreamsAreTheirs }
{}

/// A law: a side that hasn't broken `data-ack` never acknowledged more than the capture had shown of the other side's stream by then. Each of
/// its Data ACKs means a place below which all places were seen, or the one behind the DATA_FIN there (RFC 8684, section 3.3.2), or beside
/// MP_FASTCLOSE a place below which the first subflow brought all as plain TCP, without a mapping of the first that wasn't seen (section 3.7).
pub fn kept_sides_acknowledge_what_was_seen()
    ensures { KeptSidesAcknowledgeWhatWasSeen }
{}

/// A law: where a side sent no infinite mapping, its DATA_FIN stands behind the last byte of its stream (RFC 8684, section 3.3.3): no mapping
/// reaches beyond its place, and no octet was seen at or behind it (`ends`), nor did any packet of a side that hasn't broken `place-content`
/// bring one there (`brought`).
pub fn data_fins_end_streams()
    ensures ends { DataFinsEndStreams }
    ensures brought { OctetsStandBeforeDataFins }
{}

/// A law: where a side hasn't broken `dss-sum`, each mapping with a checksum that it told on a subflow, and all of whose octets came there, has
/// the checksum of its pseudo-header and of the octets that came first at its positions (RFC 8684, section 3.3.1).
pub fn kept_sides_sum_right()
    ensures { KeptSidesSumRight }
{}

/// A law: each finite mapping with a checksum that a packet tells in a DSS, of a side whose key is known and that hasn't broken `mapping`,
/// `infinite` nor `data-fin`, is one of those told on its subflow whose sums are right once they are whole (`kept_sides_sum_right`), with the
/// place, position, length and checksum that its option means (RFC 8684, section 3.3.1).
pub fn kept_mappings_are_told()
    ensures { KeptMappingsAreTold }
{}

/// A law: one turned bit under a checksum is never kept. Of two captures that show the same mapping with a checksum, whose octets that came
/// first differ in exactly one bit, at most one is kept at the mapping's side: of the other, `dss-sum` is told (RFC 8684, section 3.3.1).
pub fn one_turned_bit_is_never_kept()
    ensures { OneTurnedBitIsNeverKept }
{}
