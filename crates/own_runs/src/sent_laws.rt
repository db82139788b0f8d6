//! Laws of what a run has sent.

ghost use Rattle.own_runs.specs.Counting.{DeliveredFilesWereCounted};
ghost use Rattle.own_runs.specs.Granting.{DeliveredFilesWereGranted};
ghost use Rattle.own_runs.specs.Sending.{DeliveredFilesWereSent};

/// A law: once a run is delivered each octet of both files was granted to a path by one of its steps. It holds of each script that
/// alters no payload, over files shorter than 2^31 - 2 octets.
pub fn delivered_files_were_granted()
    ensures { DeliveredFilesWereGranted }
{}

/// A law: where a run is delivered as a round ends each octet of both files was sent: a segment of the run's trace, from the file's
/// side, has as its payload a part of the file with that octet. It holds of each script that alters no payload, over files shorter
/// than 2^31 - 2 octets.
pub fn delivered_files_were_sent()
    ensures { DeliveredFilesWereSent }
{}

/// A law: where a run is delivered as a round ends the table by path and direction counts as many octets that were sent for the first
/// time as the file has, in whatever order its segments are told. It holds of each script that alters no payload, over files shorter
/// than 2^31 - 2 octets.
pub fn delivered_files_were_counted()
    ensures { DeliveredFilesWereCounted }
{}
