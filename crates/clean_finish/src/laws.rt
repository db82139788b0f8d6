//! What the bound rests on, as clauses of functions that do nothing.
ghost use Rattle.std.specs.Prelude.{◌≡◌, Some, None};
ghost use Rattle.clean_finish.specs.Bound.{enough};
ghost use Rattle.clean_finish.specs.Applications.{WritesAsALane, ClosesAsALane, BeginsToWriteAsALane, ReadsAsALane, FollowsAsALane, BeginsToReadAsALane};
ghost use Rattle.clean_finish.specs.Books.{AckOutAsksAsLanes, AckInHearsAsLanes};
ghost use Rattle.clean_finish.specs.Machine.{SettlesAsALane, StaysLong, FlightsAreSmall, HeadsArrive, SegmentsGoPlainly, OthersStay};
ghost use Rattle.clean_finish.specs.Finish.{CleanScriptsFinish, CleanScriptsGoOn};
ghost use Rattle.clean_finish.specs.Laws.{CleanLanesFinish, EmptyFilesRun, one_path, two_paths, one_drop};

/// A law: of every lawful list of turns of a connection by a clean script, which has one path and no line, with files of 16 MiB at
/// most: once as many rounds have ended as are enough both files are delivered (`finish`), and until then the connection goes on, as
/// no reader is told of an abort and the path lives (`go_on`). The list is any order of steps within the rounds, and links carry octets.
pub fn clean_scripts_finish()
    ensures finish { CleanScriptsFinish }
    ensures go_on { CleanScriptsGoOn }
{}

/// A law: where both directions of a connection go on as lanes of `pace`, by the numbers of a clean script, and both
/// congestion windows begin with two segments and a payload or more, both readers are told the end within the rounds that
/// are enough for its files.
pub fn clean_lanes_finish()
    ensures { CleanLanesFinish }
{}

/// Example: empty files over a path of 10 ticks go on as lanes, so that what `clean_lanes_finish` rests on is met.
pub fn empty_files_go_on_as_lanes()
    ensures { EmptyFilesRun }
{}

/// Examples: 5 octets go in one segment, and 100,000 in 73 segments of 1,372 octets of payload; a script with two paths or
/// with a line isn't clean.
pub fn examples_of_bounds()
    ensures short { enough one_path 5 0 ≡ Some 96 }
    ensures long { enough one_path 100000 0 ≡ Some 1248 }
    ensures paths { enough two_paths 100000 0 ≡ None }
    ensures drops { enough one_drop 5 0 ≡ None }
{}

/// A law: the timer of an end is settled as that of a lane is, where what is new has stopped it before.
pub fn timers_settle_as_in_lanes()
    ensures { SettlesAsALane }
{}

/// A law: as long as no timer runs out a timeout is a second or more.
pub fn timeouts_stay_long()
    ensures { StaysLong }
{}

/// A law: the flight of an end is at most what isn't acknowledged and one payload.
pub fn flights_are_small()
    ensures { FlightsAreSmall }
{}

/// A law: what an application writes is moves of the lane that it writes to (`writes`, `closes`), also as its turn begins
/// (`begins`).
pub fn applications_write_as_lanes_do()
    ensures writes { WritesAsALane }
    ensures closes { ClosesAsALane }
    ensures begins { BeginsToWriteAsALane }
{}

/// A law: what an application reads is moves of the lane that it reads from (`reads`), also as its turn begins (`begins`);
/// what it does else leaves that as it is, or ends its reading after the end (`follows`).
pub fn applications_read_as_lanes_do()
    ensures reads { ReadsAsALane }
    ensures follows { FollowsAsALane }
    ensures begins { BeginsToReadAsALane }
{}

/// A law: on a link of which no line speaks a segment goes as it is, a delay later (`plainly`), and leaves the copies of the
/// other direction (`others`); the copy that arrives next is the first of the list (`first`).
pub fn clean_links_are_lists()
    ensures first { HeadsArrive }
    ensures plainly { SegmentsGoPlainly }
    ensures others { OthersStay }
{}

/// A law: what a reassembly book answers to AckOut is what its lane may tell (`asks`), and a send book that is told a Data
/// ACK knows what its lane heard (`hears`).
pub fn books_answer_as_lanes_do()
    ensures asks { AckOutAsksAsLanes }
    ensures hears { AckInHearsAsLanes }
{}
