//! What holds of a side's control book whatever it is asked, over every list of calls.

ghost use Rattle.control_book.specs.Laws.{KeysStay, AbortedStays, ResetStays, RemovedResets, AnnouncementStays, RowsStayRight, RowsCanGrow};

/// The keys change by `Keys` and `PeerKey` alone.
pub fn keys_change_by_key_calls_alone()
    ensures { KeysStay }
{}

/// A side that stopped stays aborted.
pub fn aborted_sides_stay_aborted()
    ensures { AbortedStays }
{}

/// A path that was told to reset is told so at every later look, as long as no `FastClose` follows, and always where its
/// address was removed.
pub fn resets_are_told_again()
    ensures stays { ResetStays }
    ensures removed { RemovedResets }
{}

/// An announcement stays due until `Echoed` or `Removed` of its id.
pub fn announcements_stay_due()
    ensures { AnnouncementStays }
{}

/// The rows that are answered to `Rate` meet the conditions of the linked increase.
pub fn rows_can_be_linked()
    ensures kept { RowsStayRight }
    ensures told { RowsCanGrow }
{}
