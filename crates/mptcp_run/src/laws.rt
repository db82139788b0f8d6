//! What holds of every run, as clauses of functions that do nothing.
ghost use Rattle.mptcp_run.specs.Logged.{WholeRunsAgree, WholeRunsAreTold};
ghost use Rattle.mptcp_run.specs.Answers.{ValidInputsAreRun};
ghost use Rattle.mptcp_run.specs.Clean.{CleanRunsDeliver, EnoughRunsDeliver, FewRunsDeliver};
ghost use Rattle.mptcp_run.specs.Promised.{CheckedRunsAreRight, CutRunsGivePrefixes, DeliveredRunsGiveAsMany, DeliveredRunsGiveFiles, LinesCutGivePrefixes, LoadedTasksArePlain, LoadedTasksArePromised, ShortTasksAreKept, StoppedRunsGivePrefixes, WholeRunsGivePrefixes, WholeRunsHaveCause};

/// A law: whatever the script alters, the connection after the turns that were made keeps its promises; at `Delivered` each reader
/// has as many octets as the other side writes; and an abort by a reader's peer has its cause. Where mappings are checked, what a reader
/// has whose side hasn't fallen back by a run's own end is a prefix of what the other side writes, and at `Delivered` all of it.
pub fn runs_keep_their_promises()
    ensures kept { ShortTasksAreKept }
    ensures delivered { DeliveredRunsGiveAsMany }
    ensures checked { CheckedRunsAreRight }
    ensures caused { WholeRunsHaveCause }
{}

/// A law: where the script alters no payload, each reader has a prefix of what the other side writes, at whichever end of a run,
/// and at `Delivered` all of it.
pub fn plain_runs_keep_their_word()
    ensures whole { WholeRunsGivePrefixes }
    ensures delivered { DeliveredRunsGiveFiles }
    ensures stopped { StoppedRunsGivePrefixes }
    ensures cut_off { CutRunsGivePrefixes }
    ensures line_cut { LinesCutGivePrefixes }
{}

/// A law: words whose inputs are told, within their limits and valid are run. Where no count of faults rose, the run comes to
/// its own end, or memory is wanting, or in `replay` a turn of the log can't be made.
pub fn valid_inputs_are_run()
    ensures { ValidInputsAreRun }
{}

/// A law: where the inputs of a command line in mode `run`, `serial` or `timed` are told, within their limits and valid, its script has one
/// path and no line, and its rounds are at least 80 and 16 for each full segment of either file, its run delivers both files,
/// or memory is wanting, as long as no count of faults rises.
pub fn clean_runs_deliver()
    ensures { CleanRunsDeliver }
{}

/// A law: where the inputs of a command line in mode `run`, `serial` or `timed` are told, within their limits and valid, few segments are lost by the
/// text of its script, and its rounds are at least 10,800, 23 for each full segment of either file, and 3,150 for each line by which a segment is
/// lost or late, its run delivers both files, or memory is wanting, as long as no count of faults rises.
///
/// Few are lost by a script with one path, four of whose lines at most lose or delay a segment. No line takes anything away, alters, kills or stops
/// anything, speaks of a whole direction, or takes back address 0. Where one loses, delays or repeats one of A's first eight segments, A's file has
/// three octets fewer than the script's buffer, and 65,534 at most, and each full segment of it counts as such a line besides.
pub fn few_runs_deliver()
    ensures { FewRunsDeliver }
{}

/// A law: where `tell_enough` tells a number of rounds for the inputs of a command line in mode `run`, `serial` or `timed`, which are within their limits
/// and valid, its run with as many rounds or more delivers both files, or memory is wanting, as long as no count of faults rises.
pub fn enough_runs_deliver()
    ensures { EnoughRunsDeliver }
{}

/// A law: where the inputs of a command line are within their limits, both files of its task are shorter than 2^31 - 2 octets, and the
/// last turn is the end of a round. So the task is plain where no line of its script alters a payload.
pub fn loaded_tasks_are_plain()
    ensures promised { LoadedTasksArePromised }
    ensures plain { LoadedTasksArePlain }
{}

/// A law: where a run of at least one round over at most sixteen paths, which keeps a log, came to
/// its own end, what its log grew by is read as a log. Its turns, those of the steps in their order,
/// are lawful from the opening on, and drive the connection to the same end; a run of these turns
/// has the same status, and leaves the same ports, the log among them (`told`).
///
/// Two runs of one task that came to their own ends have one status, and put the same to each port;
/// so a `replay` of that log comes to the same (`agree`).
pub fn logs_tell_their_runs()
    ensures told { WholeRunsAreTold }
    ensures agree { WholeRunsAgree }
{}
