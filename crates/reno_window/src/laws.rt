//! What the rules promise of whole runs, as clauses of functions that do nothing.
ghost use Rattle.reno_window.specs.Laws.{RecoveryHalvesTheFlight, SlowStartAddsASegment, RepeatedExpiriesHoldTheThreshold};

/// A fast recovery leaves half of the flight at its third duplicate, and no less than two segments, however many
/// duplicates it heard (section 3.2).
pub fn recovery_halves_the_flight()
    ensures { RecoveryHalvesTheFlight }
{}

/// Up to ssthresh each acknowledgement of a segment or more adds one segment (section 3.1).
pub fn slow_start_adds_a_segment()
    ensures { SlowStartAddsASegment }
{}

/// Expiries that send the same segment again leave ssthresh as the first loss set it (section 3.1).
pub fn expiries_hold_the_threshold()
    ensures { RepeatedExpiriesHoldTheThreshold }
{}
