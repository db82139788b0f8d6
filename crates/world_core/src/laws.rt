//! What holds of rounds by tick, as clauses of functions that do nothing.

ghost use Rattle.path_core.specs.Octets.{octets};
ghost use Rattle.world_core.specs.TimedRounds.{NoClockGoesBack, StepsStandAtTheirTick};

/// A law: in a round by tick, from one step to the next, of whichever paths, no clock goes back; and the tick at which a path's step
/// stands is that of its clock behind the step. So what a path does at a tick rests on steps at that tick or before alone.
pub fn no_clock_goes_back()
    ensures rises { NoClockGoesBack octets }
    ensures clocks { StepsStandAtTheirTick octets }
{}
