//! What the rules promise, as clauses of functions that do nothing.
ghost use Rattle.std.specs.Prelude.{◌≡◌};
ghost use Rattle.rtt_timer.specs.declared.estimate.TheConstants.{MAX_SAMPLE, MIN_RTO, MAX_RTO, CLOCK_GRANULARITY};
ghost use Rattle.rtt_timer.specs.declared.timer.TheConstants.{INITIAL_RTO};
ghost use Rattle.rtt_timer.specs.Laws.{SmoothsTheTime, SmoothsTheVariation, BacksOff};

/// A sample changes both means as the fractions of RFC 6298, rule 2.3, say, rounded up to the next eighth and
/// quarter of a tick.
pub fn means_round_up()
    ensures srtt { SmoothsTheTime }
    ensures rttvar { SmoothsTheVariation }
{}

/// Expiries in a row double the timeout each time, up to its bound (rule 5.5).
pub fn expiries_double()
    ensures { BacksOff }
{}

/// The public numbers, in ticks of a millisecond: the longest sample and the greatest timeout are one minute, the
/// least timeout (rule 2.4) and the first one (rule 2.1) one second, the clock's granularity one tick.
pub fn numbers_of_the_timer()
    ensures longest_sample { MAX_SAMPLE ≡ 60000 }
    ensures least { MIN_RTO ≡ 1000 }
    ensures greatest { MAX_RTO ≡ 60000 }
    ensures granularity { CLOCK_GRANULARITY ≡ 1 }
    ensures first { INITIAL_RTO ≡ 1000 }
{}
