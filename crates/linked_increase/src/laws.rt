//! How far the form in integers is from RFC 6356's own formula, as clauses of functions that do nothing.
ghost use Rattle.std.specs.Prelude.{◌≡◌};
ghost use Rattle.linked_increase.specs.declared.increase.TheConstants.{ALPHA_SCALE, MAX_MSS, MAX_ACKED};
ghost use Rattle.linked_increase.specs.declared.rows.TheConstants.{MAX_ROWS, MAX_WINDOW, MAX_RTT};
ghost use Rattle.linked_increase.specs.Laws.{LeaderLeads, SumRoundsDown, AlphaIsAtLeastExact, GrowsNoFasterThanAlone, GrowsAsFastAsExact};

/// The row by which alpha is computed has the greatest window / rtt^2, and of rows of that greatness the lowest path.
pub fn leader_leads()
    ensures { LeaderLeads }
{}

/// The sum of rtt_m * window / rtt in integers is at most the exact one, and less than one a row below it.
pub fn sum_rounds_down()
    ensures { SumRoundsDown }
{}

/// alpha is at least the exact one, scaled and rounded down.
pub fn alpha_is_at_least_exact()
    ensures { AlphaIsAtLeastExact }
{}

/// A window grows by no more than that of a connection of its path alone.
pub fn growth_is_no_faster_than_alone()
    ensures { GrowsNoFasterThanAlone }
{}

/// The exact increase is less than an octet and `acked * mss / (512 * total)` octets above the growth.
pub fn growth_is_as_fast_as_exact()
    ensures { GrowsAsFastAsExact }
{}

/// The public numbers: alpha_scale; the greatest segment, the most that is acknowledged at once and the greatest
/// window, in octets; the greatest round-trip time, in ticks; the most rows.
pub fn numbers_of_the_increase()
    ensures scale { ALPHA_SCALE ≡ 512 }
    ensures segment { MAX_MSS ≡ 1460 }
    ensures acknowledged { MAX_ACKED ≡ 1048576 }
    ensures window { MAX_WINDOW ≡ 1048576 }
    ensures round_trip_time { MAX_RTT ≡ 60000 }
    ensures rows { MAX_ROWS ≡ 16 }
{}
