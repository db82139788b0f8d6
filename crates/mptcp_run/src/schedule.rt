//! By which schedule the actors of a round make their steps.

ghost use Rattle.std.specs.Prelude.{◌≡◌, false, true, OnOk, OnErr};
ghost use Rattle.mptcp_run.specs.Schedules.{RoundBy};

use std::alloc::AllocError;
use world_core::{World, round, timed_round};

/// By which schedule the actors of a round make their steps.
#[derive(Clone, Copy)]
pub enum Schedule {
    /// Whole turns, one after the other, in order of number.
    Serial,
    /// Each step is the one that stands at the earliest tick; those of applications come first.
    Timed,
}

/// A round, and its end.
///
/// # Errors
///
/// Where there is no memory. The world has failed then.
pub fn round_by(schedule: Schedule, world: &mut World) -> Result<(), AllocError>
    requires { world.old.failed ≡ false }
    ensures ok { OnOk result (RoundBy schedule world.old.state world.new.state) }
    ensures stands { OnOk result (world.new.failed ≡ false) }
    ensures err { OnErr result (world.new.failed ≡ true) }
{
    match schedule {
        Schedule::Serial => round(world),
        Schedule::Timed => timed_round(world),
    }
}
