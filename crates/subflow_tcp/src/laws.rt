//! What the rules promise of every end, as clauses of functions that do nothing.
ghost use Rattle.subflow_tcp.specs.Laws.{FiredTimersRest, SettlingSetsTheTimeout, NoTimerWithoutAReason, TimerWithAReason, ArrivalsKeepTheWindow, GrowthsKeepTheWindow, SendingsKeepTheWindow};

/// A timer that ran out is set at least 1,000 ticks later, so that an end fires at most once in a tick.
pub fn fired_timers_rest()
    ensures { FiredTimersRest }
{}

/// Settling stops the timer, keeps it, or sets it to the timeout from now on; without a reason no timer runs, and with one a timer
/// does.
pub fn timers_run_for_a_reason()
    ensures timeout { SettlingSetsTheTimeout }
    ensures reason { NoTimerWithoutAReason }
    ensures running { TimerWithAReason }
{}

/// Outside an expiry and a fast recovery the congestion window never falls: not by a segment that arrives, not by the
/// growth that is told, and not by a sending.
pub fn the_window_never_falls()
    ensures arrivals { ArrivalsKeepTheWindow }
    ensures growths { GrowthsKeepTheWindow }
    ensures sendings { SendingsKeepTheWindow }
{}
