//! What holds of a side whatever happens to it, on any paths, sole or not.

ghost use Rattle.fallback_state.specs.Laws.{JoinedSidesNeverFall, IdentityStays, IdentityIsStopped, NoSideStartsAgain, ConfirmedStays, JoinedStays, InfiniteAfterFailure, AbortedStays};

/// A side that began or answered a join never falls back to plain TCP.
pub fn joined_sides_never_fall_to_identity()
    ensures { JoinedSidesNeverFall }
{}

/// A side that fell back to plain TCP stays there, unless the connection is ended at once.
pub fn identity_ends_by_stop_alone()
    ensures stays { IdentityStays }
    ensures stops { IdentityIsStopped }
{}

/// A side that is sure, or in any other mode but the first, never comes to the first mode.
pub fn sure_sides_never_start_again()
    ensures { NoSideStartsAgain }
{}

/// A confirmed side stays confirmed, and one that joined stays one that joined.
pub fn flags_never_fall_back()
    ensures confirmed { ConfirmedStays }
    ensures joined { JoinedStays }
{}

/// Without a wrong checksum at either side there is no infinite mode.
pub fn infinite_modes_follow_failures()
    ensures { InfiniteAfterFailure }
{}

/// A connection that was ended at once stays ended.
pub fn aborted_sides_stay_aborted()
    ensures { AbortedStays }
{}
