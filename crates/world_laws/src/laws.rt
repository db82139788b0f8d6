//! What holds of every connection, as clauses of functions that do nothing.
ghost use Rattle.world_laws.specs.AbortCause.{AbortsHaveCause};
ghost use Rattle.world_laws.specs.Agreement.{MappingsAgree};
ghost use Rattle.world_laws.specs.Altered.{BothKeepCount, FallsForGood, HoldsChecked, HoldsCheckedOfOctets, PlacedUntilTheFall, PrefixUntilTheFall};
ghost use Rattle.world_laws.specs.Announcing.{AnnouncementsEnd};
ghost use Rattle.world_laws.specs.ChecksPass.{ChecksPass, ChecksumsAreRight, NoFailureIsTold};
ghost use Rattle.world_laws.specs.FallsRight.{FallsAreRight, FallsLast, PositionsArePlaces, PositionsWerePlaces};
ghost use Rattle.world_laws.specs.Granted.{GrantedOnce};
ghost use Rattle.world_laws.specs.InfiniteMappings.{InfiniteMappingsAreHeardRight, InfiniteMappingsAreRight};
ghost use Rattle.world_laws.specs.JoinsWait.{JoinsWait};
ghost use Rattle.world_laws.specs.Laws.{AfterFreshTurns, Always, NothingDueIsLeft, SerialExists, SerialIsOne, OctetsDoAsValues, WritesTheFiles};
ghost use Rattle.world_laws.specs.NeverFalls.{IsPromisedWhole, IsPromisedWholeOfOctets, NeverFalls, WholeScriptsNeverFall};
ghost use Rattle.world_laws.specs.PlainScripts.{CheckedScriptsKeepOctets, PlainScriptsKeepAllPromises, PlainScriptsStartPlainly, ScriptsAreShownOfValues, ScriptsCanRun, ScriptsFit, ScriptsKeepAnyway};
ghost use Rattle.world_laws.specs.Promises.{AddressesAreRight, BothKeepTheirWord, EachTurnIsOneStep, EveryListIsFresh, HoldsAnyway, HoldsAnywayOfOctets, IsPromised, IsPromisedOfOctets, JoinsAreRight, KeysNeverDiffer, NothingFollows, NothingWasRefused, OctetsAreValuesShown};
ghost use Rattle.world_laws.specs.RoundDone.{LawfulRoundsAreDone, RoundsAreDone, RoundsEndOnTime, StaysFine};
ghost use Rattle.world_laws.specs.RoundEnd.{ReadersAreDone};
ghost use Rattle.world_laws.specs.RoundNumbers.{GrantsAreDone, InEachRound, PathsAskForAll, ReadersCaughtUp};
ghost use Rattle.world_laws.specs.ShortNumbers.{ShortNumbersGoShort};
ghost use Rattle.world_laws.specs.Standbys.{BackupsGetNothing};
ghost use Rattle.world_laws.specs.Stopping.{AbortIsLast};
ghost use Rattle.world_laws.specs.Timely.{EachRoundHasAStep};
ghost use Rattle.world_laws.specs.Welcome.{EachCopyIsWelcome};
ghost use Rattle.world_laws.specs.Weaving.{RoundsWeave, StepsWeave, WovenDoes};
ghost use Rattle.path_core.specs.Octets.{octets};
ghost use Rattle.path_core.specs.Values.{values};

/// A law: of all lists of whole turns in order of number there is at most one for a number of rounds.
pub fn serial_is_one()
    ensures octets { SerialIsOne octets }
    ensures values { SerialIsOne values }
{}

/// A law: at every moment there are serial turns for every number of rounds, and they are lawful, as each actor's turn ends
/// whatever the books answer. A segment has to be on its way for a tick or longer, and a full one to have a payload.
pub fn serial_exists()
    ensures octets { SerialExists octets }
    ensures values { SerialExists values }
{}

/// A law: a connection by any script can run, as `serial_exists` asks of it.
pub fn scripts_can_run()
    ensures { ScriptsCanRun }
{}

/// A law: in each world that comes about by steps and ends of rounds, lawful or not, lists and journals are paired at every
/// stamp, stamps rise in each, and they are chained above the greatest stamp at the last round's end.
pub fn what_is_fine_stays_fine()
    ensures octets { StaysFine octets }
    ensures values { StaysFine values }
{}

/// A law: at every moment, in whatever order the actors go, the round that goes on, r rounds having ended, ends on each path at
/// tick 100 (r + 1).
pub fn rounds_end_on_time()
    ensures octets { RoundsEndOnTime octets }
    ensures values { RoundsEndOnTime values }
{}

/// A law: where all turns of a round are over, in whatever order the actors went, its end is as it has to be. It is at its tick;
/// nothing that was due before it is left; each end of a path that may still ask for bytes, with room in its window for a full segment,
/// was refused the round's last grant, and asked for all; and each reader was told the end or an abort, or read as much as a side
/// buffers, or found nothing more. So it is at each end of a round in lawful turns, and serial turns are lawful.
pub fn rounds_are_done()
    ensures octets { RoundsAreDone octets }
    ensures values { RoundsAreDone values }
    ensures octets_lawful { LawfulRoundsAreDone octets }
    ensures values_lawful { LawfulRoundsAreDone values }
{}

/// A law: at every moment, where the turn of an application is over, it was told that the stream ended or was aborted, or it read
/// in this turn at least as many octets as a side buffers, or its last read was answered that there is nothing yet.
pub fn readers_are_done()
    ensures octets { Always octets (λ start w. ReadersAreDone w) }
    ensures values { Always values (λ start w. ReadersAreDone w) }
{}

/// A law: in each round, in whatever order the actors go, where the turn of an application is over, it has read all octets that had
/// arrived without a gap as the round began, or it was told that the connection was aborted.
pub fn readers_catch_up()
    ensures octets { InEachRound octets ReadersCaughtUp }
    ensures values { InEachRound values ReadersCaughtUp }
{}

/// A law: in each round, in whatever order the actors go, where the turn of a path is over, an end that may ask for bytes was refused the
/// last grant that it asked for in this round, or there is no room in its window for a full segment.
pub fn grants_are_done()
    ensures octets { InEachRound octets GrantsAreDone }
    ensures values { InEachRound values GrantsAreDone }
{}

/// A law: in each round, in whatever order the actors go, where the turn of a path is over, an end that may ask for bytes, with room
/// in its window for a full segment, asked for all: of the octets that were written as the round began none below the edge of the
/// peer's window is left that the path may take. Else the end was on standby when it asked last in this round;
/// or octets are given to another path alone, as after a fallback, and none is once the connection was aborted there; or after the
/// path asked last another one gave back some octets, or took an acknowledgement with a window past the edge as the round began.
pub fn paths_ask_for_all()
    ensures octets { InEachRound octets PathsAskForAll }
    ensures values { InEachRound values PathsAskForAll }
{}

/// A law: at every moment a path has begun no more rounds than its actor has steps, and one more while its turn isn't over. So
/// rounds are as few as the steps that a list can hold.
pub fn each_round_has_a_step()
    ensures octets { Always octets (λ start w. EachRoundHasAStep w) }
    ensures values { Always values (λ start w. EachRoundHasAStep w) }
{}

/// A law: the steps of a round, put in order by stamp, then actor, are lawful, and make of the world at the round's beginning
/// what they made before: the same actors and books, with the same lists and journals. It takes what each actor and each book
/// did, lists and journals being paired, whoever ordered them; so it speaks of threads, too.
/// Whole serial rounds from the opening on do the same, each put in that order and ended.
pub fn woven_rounds_do_the_same()
    ensures octets { WovenDoes octets }
    ensures values { WovenDoes values }
    ensures steps { StepsWeave octets }
    ensures rounds { RoundsWeave octets }
{}

/// A law: a world whose links carry octets is the world whose links carry segments as values, shown in octets, over every list
/// of turns that are fresh: each copy that arrives can be said, with numbers near those that its end expects, but for the position
/// of a reset that is 2^31 or more ahead and below 2^32; and each segment that is altered on its way can be said.
pub fn octets_do_as_values()
    ensures { OctetsDoAsValues }
{}

/// A law: every list of turns is fresh, lawful or not, whatever the script does, where the numbers of the start fit: both files
/// are shorter than 2^31 - 2 octets, there are sixteen paths at most, with a maximum segment size of 29 to 65,503 octets each, a side
/// buffers 2^20 octets at most, keys have 64 bits, and the nonces of the paths 32. So such a world over octets is always the world
/// over segments as values, shown in octets.
pub fn turns_are_fresh()
    ensures fresh { EveryListIsFresh }
    ensures same { OctetsAreValuesShown }
{}

/// A law: at every moment, whatever the order of the steps, what a send book has as written is a prefix of its side's file,
/// and it is closed only where that is the whole file.
pub fn files_are_written()
    ensures octets { Always octets WritesTheFiles }
    ensures values { Always values WritesTheFiles }
{}

/// A law: at every moment, where the turn of a path is over, no line of its script, no copy and no timer is due before the
/// round's end. So none is left at the end of a round.
pub fn nothing_due_is_left()
    ensures octets { Always octets (λ start w. NothingDueIsLeft w) }
    ensures values { Always values (λ start w. NothingDueIsLeft w) }
{}

/// A law: no control book is told another key for its own (RFC 8684, section 3.1). This holds whatever the script does; over octets
/// where the numbers of the start fit.
pub fn keys_never_differ()
    ensures values { Always values (λ start w. KeysNeverDiffer w) }
    ensures octets { AfterFreshTurns (λ w. KeysNeverDiffer w) }
    ensures fits { HoldsAnywayOfOctets KeysNeverDiffer }
{}

/// A law: no control book is told a token that isn't that of its key (RFC 8684, section 3.2).
///
/// Nor does an end of a path that joins refuse the copy that arrives next, unless its options were taken away: that copy lacks no
/// MP_JOIN, and has no wrong HMAC. Both hold whatever the script does; over octets where the numbers of the start fit.
pub fn joins_are_right()
    ensures values { Always values (λ start w. JoinsAreRight w) }
    ensures octets { HoldsAnywayOfOctets JoinsAreRight }
    ensures welcome { Always values (λ start w. EachCopyIsWelcome values w) }
    ensures heard { HoldsAnywayOfOctets (EachCopyIsWelcome octets) }
{}

/// A law: no control book is told of an address whose HMAC is wrong by an announcement of its peer (RFC 8684, section 3.4.1). This
/// holds whatever the script does; over octets where the numbers of the start fit.
pub fn addresses_are_right()
    ensures values { Always values (λ start w. AddressesAreRight w) }
    ensures octets { HoldsAnywayOfOctets AddressesAreRight }
{}

/// A law: at every moment, in each direction, what the reader got is a prefix of what the writer wrote; what is acknowledged was
/// received, and what was received was written; where DATA_FIN is acknowledged the stream is closed and all of it was received;
/// and the end is told only where the stream is closed and the reader has all of it.
///
/// The script alters no payload, and the maximum segment size of each path is 29 octets or more; any segment may lose its options on
/// the way. The steps are in any order. Over octets the numbers of the start have to fit.
pub fn both_sides_keep_their_word()
    ensures values { IsPromised BothKeepTheirWord }
    ensures octets { IsPromisedOfOctets BothKeepTheirWord }
{}

/// A law: whatever payload the links alter, once a reader was told the end it reads nothing more, and nothing more is written for it.
pub fn nothing_follows_the_end()
    ensures values { HoldsAnyway (NothingFollows values) }
    ensures octets { HoldsAnywayOfOctets (NothingFollows octets) }
{}

/// A law: once the reassembly book of a side was aborted (RFC 8684, section 3.5), its reader gets no octet more, and whatever it still
/// reads is answered by the abort, by whatever turns follow; so it is told no end. Whether the side itself or its peer aborted it
/// stays so.
pub fn aborted_readers_hear_that_alone()
    ensures octets { Always octets (λ start w. AbortIsLast octets w) }
    ensures values { Always values (λ start w. AbortIsLast values w) }
{}

/// A law: at every moment a reader is told that its peer aborted the connection only where the peer's application had asked for a
/// fast close, and the reader's side had accepted one that has the side's own key (RFC 8684, section 3.5). This holds whatever the
/// script does; over octets where the numbers of the start fit.
pub fn aborts_have_a_cause()
    ensures values { Always values (λ start w. AbortsHaveCause w) }
    ensures octets { HoldsAnywayOfOctets AbortsHaveCause }
{}

/// A law: each turn is on each of the two pipes one step that the pipe allows, or none, whatever payload the links alter.
pub fn each_turn_is_one_pipe_step_or_none()
    ensures values { HoldsAnyway (EachTurnIsOneStep values) }
    ensures octets { HoldsAnywayOfOctets (EachTurnIsOneStep octets) }
{}

/// A law: no step of an actor is answered `Beyond`, `FinClash` or `AckFuture`.
pub fn nothing_is_refused()
    ensures values { IsPromised NothingWasRefused }
    ensures octets { IsPromisedOfOctets NothingWasRefused }
{}

/// A law: where no payload is altered no check of a mapping fails, neither side knows of a failed path or goes by an infinite mapping,
/// and no copy that is under way has an MP_FAIL (RFC 8684, section 3.7).
///
/// Whatever is altered, each mapping of bytes in a copy that is under way names written octets, and where checksums are used it tells
/// that of the pseudo-header and these octets (section 3.3.1). What copies tell is said of segments as values.
pub fn checks_pass()
    ensures sums { HoldsAnyway ChecksumsAreRight }
    ensures values { IsPromised ChecksPass }
    ensures octets { IsPromisedOfOctets ChecksPass }
    ensures untold { IsPromised NoFailureIsTold }
{}

/// A law: a connection by a script, with files shorter than 2^31 - 2 octets, starts with numbers that fit. So over octets it keeps all
/// that `KeepsAnyway` lists, in whatever order its actors go, and whatever payload its links alter: what the laws beside this one say of
/// each altered connection, from lengths, acknowledgements and ends to joins that wait for their answer. And it is the connection over
/// segments as values, shown in octets, whose short data numbers go short, and whose infinite mappings and checksums are right.
///
/// Where mappings are checked, until its side falls back, by its control book's journal, a reader has a prefix of what was written, and
/// each octet that was placed is right for ever.
pub fn scripts_keep_promises_whatever_is_altered()
    ensures starts { ScriptsFit }
    ensures anyway { ScriptsKeepAnyway }
    ensures checked { CheckedScriptsKeepOctets }
    ensures shown { ScriptsAreShownOfValues }
{}

/// A law: a connection by a script that alters no payload, with files shorter than 2^31 - 2 octets, starts plainly; so over octets it
/// keeps every promise, in whatever order its actors go: both sides keep their word, nothing is refused, no check fails, and all that
/// `scripts_keep_promises_whatever_is_altered` says is so.
pub fn plain_scripts_keep_all_promises()
    ensures starts { PlainScriptsStartPlainly }
    ensures promises { PlainScriptsKeepAllPromises }
{}

/// A law: at every moment each byte of a stream was granted to a path once at most, by whichever steps of all actors.
pub fn bytes_are_granted_once()
    ensures octets { Always octets (λ start w. GrantedOnce w) }
    ensures values { Always values (λ start w. GrantedOnce w) }
{}

/// A law: at every moment each step of a path that was granted bytes is one of a path that didn't stand by, as its side's control
/// book told in the last Look on that path: it was no backup, or no other path of the side lived that was none (RFC 8684, section
/// 3.3.8).
pub fn backups_get_nothing()
    ensures octets { Always octets (λ start w. BackupsGetNothing w) }
    ensures values { Always values (λ start w. BackupsGetNothing w) }
{}

/// A law: an announcement goes out in no turn after its echo or its removal was heard (RFC 8684, section 3.4.1). At every moment,
/// where the next step of a path sends an ADD_ADDR that is no echo, its side was told to announce that id by the look of the same
/// turn; and of the calls that the side's control book had taken before that look, the last one that names the id was to announce it.
pub fn announcements_end()
    ensures octets { Always octets (λ start w. AnnouncementsEnd w) }
    ensures values { Always values (λ start w. AnnouncementsEnd w) }
{}

/// A law: at every moment no mapping that an end of a path heard, and has still to treat, gives a position another place than the
/// one that the end learned (RFC 8684, section 3.3.1), whatever payload the links alter.
pub fn mappings_agree()
    ensures values { HoldsAnyway MappingsAgree }
    ensures octets { HoldsAnywayOfOctets MappingsAgree }
{}

/// A law: a side that is in plain TCP, or was by its control book's journal, has begun and answered no join. Where either side fell
/// B answered none, and no path but path 0 ever asked for bytes; and the side stays in plain TCP until the connection is aborted there
/// (RFC 8684, sections 3.5 and 3.7). This holds whatever the script does; over octets where the numbers of the start fit.
///
/// Where either fell, positions are places on path 0: each record of data, and each mapping that an end learned, has the place before its
/// position. So it was at each moment before, of octets that are acknowledged by now, too: whatever record of data either end of path 0
/// ever had, it has the place before its position.
pub fn falls_are_right()
    ensures values { Always values (λ start w. FallsAreRight w) }
    ensures last { Always values (λ start w. FallsLast values w) }
    ensures octets { HoldsAnywayOfOctets FallsAreRight }
    ensures last_of_octets { HoldsAnywayOfOctets (FallsLast octets) }
    ensures places { HoldsAnyway PositionsArePlaces }
    ensures heard { HoldsAnywayOfOctets PositionsArePlaces }
    ensures whole { HoldsAnyway (PositionsWerePlaces values) }
    ensures whole_of_octets { HoldsAnywayOfOctets (PositionsWerePlaces octets) }
{}

/// A law: at every moment, where the connection begins with data numbers of four octets, each Data ACK and each mapping of every
/// copy that is under way tells its number by the low half (RFC 8684, section 3.3).
pub fn short_numbers_are_low_halves()
    ensures { Always values ShortNumbersGoShort }
{}

/// A law: at every moment, on each path but path 0, A has asked for no byte of its stream as long as it may send no DSS there: until
/// its third MP_JOIN was answered (RFC 8684, section 3.2).
pub fn joins_wait_for_their_answer()
    ensures octets { Always octets (λ start w. JoinsWait w) }
    ensures values { Always values (λ start w. JoinsWait w) }
{}

/// A law: whatever payload the links alter, and whether mappings are checked or not, what is acknowledged was received, and that
/// was written; and a reader is told the end only where the stream is closed and it has as many octets as were written.
pub fn counts_are_kept_whatever_is_altered()
    ensures values { HoldsAnyway BothKeepCount }
    ensures octets { HoldsAnywayOfOctets BothKeepCount }
{}

/// A law: whatever payload the links alter, an infinite mapping that is under way is right (RFC 8684, section 3.7): each octet from its
/// position on that the sender's end may still send has the place that rises with the position, also in a piece that begins before that.
///
/// The law is said of segments as values, and over octets of the copy that arrives next, as its end reads it.
pub fn infinite_mappings_are_right()
    ensures values { HoldsAnyway InfiniteMappingsAreRight }
    ensures octets { HoldsAnywayOfOctets (InfiniteMappingsAreHeardRight octets) }
{}

/// A law: whatever payload the links alter, where mappings are checked (RFC 8684, section 3.3.1): as long as a side hasn't fallen back to
/// plain TCP or to an infinite mapping of the peer's (section 3.7), its reader has a prefix of what was written for it; and each octet
/// that came to a place until then, with the reader or in the reassembly book, is the written one there, and stays it, whatever turns
/// follow. That it fell back is read off its control book's journal, so a stop of the connection changes nothing of it. Over octets the
/// numbers of the start have to fit.
///
/// A side that fell back did so for ever: it never goes by the peer's mappings again.
pub fn checked_octets_are_right()
    ensures prefix { HoldsChecked PrefixUntilTheFall }
    ensures placed { HoldsChecked (PlacedUntilTheFall values) }
    ensures prefix_of_octets { HoldsCheckedOfOctets PrefixUntilTheFall }
    ensures placed_of_octets { HoldsCheckedOfOctets (PlacedUntilTheFall octets) }
    ensures values { Always values (λ start w. FallsForGood values w) }
    ensures octets { Always octets (λ start w. FallsForGood octets w) }
{}

/// A law: where no line of the script takes Multipath TCP's options away, and none alters payload, neither side ever falls back, to plain
/// TCP or to an infinite mapping (RFC 8684, section 3.7).
///
/// At no moment is a side in such a mode, nor was it by its control book's journal; its application, or its peer's, may stop it by a fast
/// close. The maximum segment size of each path is 29 octets or more. The steps are in any order. Over octets the numbers of the start
/// have to fit, as they do by each script with files shorter than 2^31 - 2 octets.
pub fn sides_never_fall()
    ensures values { IsPromisedWhole NeverFalls }
    ensures octets { IsPromisedWholeOfOctets NeverFalls }
    ensures scripts { WholeScriptsNeverFall }
{}
