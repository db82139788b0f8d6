ghost use Rattle.std.specs.Prelude.{◌≡◌, codes, ◌<◌, ◌^◌, ◌-◌, ℕ, true, false, [], ◌∷◌};
ghost use Rattle.send_book.specs.State.{acked_len};
ghost use Rattle.stream_lanes.specs.Moves.{places_of};
ghost use Rattle.stream_lanes.specs.Streams.{may_go};
ghost use Rattle.stream_lanes.specs.Holding.{Holds};
ghost use Rattle.stream_lanes.specs.Laws.{Always, AlwaysAny, AlwaysChecked, BothWays, ReadsAPrefix, AcknowledgesReceivedBytes, EndsAtTheWhole, NothingFollowsTheEnd, AbortedIsNoEnd, EachEventIsOneStep, NothingIsRefused, PathsAreShort, ShortStreamsAreNear, RecordsAgree, FallsAreRight, EndsAtAllBytes, PrefixBeforeTheFall, PlacedBeforeTheFallIsRight, ChecksumsShow, NothingDisagrees, InfiniteMappingsAreRight};
ghost use Rattle.stream_lanes.specs.Example.{text, first_lane, after_the_run, after_the_plain_run, after_the_altered_run, after_the_altered_plain_run, after_the_infinite_run, after_the_rising_run};

/// A law: over links that alter nothing, at every moment, in both directions, what the reader got is a prefix of what
/// the writer wrote.
pub fn readers_get_a_prefix()
    ensures { Always (BothWays ReadsAPrefix) }
{}

/// A law: whatever is altered, at every moment every acknowledged byte was received, and the received ones were written; where DATA_FIN
/// is acknowledged, the stream is closed and all of it was received.
pub fn acknowledged_bytes_were_received()
    ensures { AlwaysAny (BothWays AcknowledgesReceivedBytes) }
{}

/// A law: a reader is told the end where the stream is closed and the reader has all of it, over links that alter
/// nothing; whatever is altered, it has as many bytes then, and nothing follows.
pub fn the_end_is_told_at_the_whole()
    ensures whole { Always (BothWays EndsAtTheWhole) }
    ensures all_bytes { AlwaysAny (BothWays EndsAtAllBytes) }
    ensures nothing_follows { AlwaysAny NothingFollowsTheEnd }
{}

/// A law: over links that may alter payload, where mappings are checked, each byte that a side placed before it fell
/// back to plain TCP or to an infinite mapping is the other side's byte at that place, and stays it for ever; until
/// then the reader has a prefix of what was written.
pub fn placed_before_a_fall_is_right()
    ensures placed { AlwaysChecked PlacedBeforeTheFallIsRight }
    ensures prefix { AlwaysChecked PrefixBeforeTheFall }
{}

/// A law: a lane's check lets pass what was sent; where all bytes of a mapping have come, a right checksum of the
/// mapping shows the same (RFC 8684, section 3.3.1), since the links turn one bit of a copy.
pub fn a_right_checksum_shows_the_bytes_that_were_sent()
    ensures { AlwaysAny (BothWays ChecksumsShow) }
{}

/// A law: whatever is altered, each infinite mapping that a path ever sent is right: from its position on it gives each
/// byte of the path the place that the byte has in the stream (RFC 8684, section 3.7).
pub fn infinite_mappings_are_right()
    ensures { AlwaysAny (BothWays InfiniteMappingsAreRight) }
{}

/// A law: whatever is altered, no book answers `FinClash` or `AckFuture`, and no mapping clashes with one learned
/// before.
pub fn nothing_disagrees()
    ensures { AlwaysAny (BothWays NothingDisagrees) }
{}

/// A law: a reader that was told of an abort is never told the end.
pub fn an_aborted_reader_is_told_no_end()
    ensures { AlwaysAny AbortedIsNoEnd }
{}

/// A law: each event is on each of the two pipes one step that the pipe allows, or none.
pub fn each_event_is_one_pipe_step_or_none()
    ensures { AlwaysAny EachEventIsOneStep }
{}

/// A law: over links that alter nothing no book answers `Beyond`, `FinClash` or `AckFuture`, and no mapping clashes with one learned before.
pub fn nothing_is_refused()
    ensures { Always (BothWays NothingIsRefused) }
{}

/// A law: at every moment the marks of a send book tile, and the records of the paths agree with them: each byte of a
/// record is the written one at its place, and each byte that a path tried is in its record.
pub fn records_agree_with_the_book()
    ensures { AlwaysAny (BothWays RecordsAgree) }
{}

/// A law: a path has no more bytes than were written, since each byte was granted to it once. So where fewer than
/// 2^31 - 2 bytes were written, every position and place that is told is less than 2^31 away from each one that may
/// be expected.
pub fn paths_are_as_short_as_the_stream()
    ensures short { AlwaysAny (BothWays PathsAreShort) }
    ensures near { AlwaysAny (BothWays ShortStreamsAreNear) }
{}

/// A law: where A fell back to plain TCP it began no join and none was answered, and where B did it answered none; then
/// only path 0 carried bytes, and each of them stands at the position that is its place.
pub fn falls_are_right()
    ensures { AlwaysAny FallsAreRight }
{}

/// A law: at every moment all holds that the promises rest on.
pub fn what_holds_stays()
    ensures { AlwaysAny Holds }
{}

/// An example: a run over two paths, with a loss, a repetition, a death and a return, delivers the whole text.
pub fn a_run_delivers()
    ensures reader { after_the_run.ab.reader ≡ record { out = text; told = true; stopped = false } }
    ensures acknowledged { acked_len after_the_run.ab.send.marks ≡ 8 }
    ensures fin { after_the_run.ab.send.fin ≡ true }
{}

/// An example: a run in plain TCP on one path delivers the whole text too.
pub fn a_plain_run_delivers()
    ensures reader { after_the_plain_run.ab.reader ≡
        record { out = text; told = true; stopped = false } }
    ensures acknowledged { acked_len after_the_plain_run.ab.send.marks ≡ 8 }
    ensures fin { after_the_plain_run.ab.send.fin ≡ true }
    ensures fell { after_the_plain_run.modes.plain_a ≡ true }
{}

/// An example: a first copy is altered, its check fails, and it is forgotten; the repetition delivers the whole text.
pub fn an_altered_run_delivers()
    ensures reader { after_the_altered_run.ab.reader ≡
        record { out = text; told = true; stopped = false } }
    ensures acknowledged { acked_len after_the_altered_run.ab.send.marks ≡ 8 }
    ensures fin { after_the_altered_run.ab.send.fin ≡ true }
{}

/// An example: after a fall to plain TCP an altered copy passes, and the reader has another byte than was written.
pub fn an_altered_copy_passes_after_the_fall()
    ensures reader { after_the_altered_plain_run.ab.reader.out ≡ codes "`bcdefgh" }
    ensures fell { after_the_altered_plain_run.modes.plain_b ≡ true }
{}

/// An example: over links that alter payload a first copy is altered and its check fails; the sender's book gives itself
/// to the path, whose infinite mapping the receiver's side takes; bytes, acknowledgements of the subflow and the FIN then
/// go by it, and the whole text is delivered.
pub fn an_infinite_mapping_delivers()
    ensures reader { after_the_infinite_run.ab.reader ≡
        record { out = text; told = true; stopped = false } }
    ensures acknowledged { acked_len after_the_infinite_run.ab.send.marks ≡ 8 }
    ensures fin { after_the_infinite_run.ab.send.fin ≡ true }
    ensures fell { after_the_infinite_run.modes.loose_b ≡ true }
{}

/// An example: that the places of the bytes that aren't acknowledged rise by one is not enough for an infinite mapping.
/// Those of places 5 and 6 stand at the first positions of the record, but behind them stand bytes that were acknowledged
/// over another path; so the book gives itself to no path here.
pub fn rising_open_bytes_are_not_enough()
    ensures places { places_of first_lane.sent ≡ 5 ∷ 6 ∷ 0 ∷ 1 ∷ 2 ∷ 3 ∷ 4 ∷ [] }
    ensures acknowledged { acked_len after_the_rising_run.ab.send.marks ≡ 5 }
    ensures refused { may_go 0 0 after_the_rising_run.ab.send first_lane ≡ false }
{}
