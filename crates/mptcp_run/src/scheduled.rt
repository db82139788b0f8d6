//! Rounds by a schedule.

ghost use Rattle.std.specs.Prelude.{◌≡◌, ◌+◌, ◌-◌, ◌^◌, ◌<◌, false, length, IfErr, OnOk};
ghost use Rattle.run_outside.specs.Calling.{OnlyPuts};
ghost use Rattle.mptcp_run.specs.Making.{RoundMade, RoundStops};
ghost use Rattle.mptcp_run.specs.Courses.{CourseMade, CourseCut};
ghost use Rattle.run_outside.specs.Ports.{IsPortsFault};
ghost use Rattle.world_core.specs.RoundEnds.{round_ends};
ghost use Rattle.mptcp_run.specs.Rounds.{AtRound};
ghost use Rattle.mptcp_run.specs.Schedules.{RoundBy};
ghost use Rattle.mptcp_run.specs.Task as course;

use crate::rounds::Run;
use crate::schedule::{Schedule, round_by};
use outside_kit::Outside;
use run_outside::Status;
use std::alloc::Global;

/// Makes one round, and puts it.
fn make_round<O: Outside>(
    alloc: Global,
    outside: &mut O,
    schedule: Schedule,
    run: &mut Run,
) -> Result<(), Status>
    requires begins { AtRound run.old }
    requires few { run.old.rounds < 2 ^ 64 - 1 }
    ensures made { OnOk result (RoundMade (RoundBy schedule) run.old.opening run.old.rounds
        run.old.world.state run.new.world.state (O.told outside.old) (O.told outside.new)) }
    ensures begins { OnOk result (AtRound run.new) }
    ensures rounds { OnOk result (run.new.rounds ≡ run.old.rounds + 1) }
    ensures opening { run.new.opening ≡ run.old.opening }
    ensures stops { IfErr result (RoundStops (RoundBy schedule) run.old.opening run.old.rounds
        run.old.world.state (O.told outside.old) (O.told outside.new)) }
    ensures fault { IfErr result
        (IsPortsFault (O.told outside.old).port_faults (O.told outside.new).port_faults) }
    ensures only { OnlyPuts (O.told outside.old) (O.told outside.new) }
{
    match round_by(schedule, &mut run.world) {
        Ok(()) => run.put_round(alloc, outside),
        Err(_) => Err(Status::Memory),
    }
}

/// Makes at most so many rounds, and puts each; the last one is the first after which the connection doesn't go on.
pub fn make_rounds<O: Outside>(
    alloc: Global,
    outside: &mut O,
    schedule: Schedule,
    run: &mut Run,
    most: u32,
) -> Result<(), Status>
    requires begins { AtRound run.old }
    requires none { run.old.rounds ≡ 0 }
    // All turns of such a course, and as many rounds as they end.
    ensures ok { OnOk result ((made : CourseMade (course.rounds schedule most) run.old.opening
        run.old.world.state run.new.world.state (O.told outside.old) (O.told outside.new))
        × (run.new.rounds ≡ length (round_ends made.turns run.old.world.state))) }
    ensures stands { OnOk result (run.new.world.failed ≡ false) }
    ensures cut { IfErr result
        (CourseCut (course.rounds schedule most) run.old.opening run.old.world.state
        (O.told outside.old) (O.told outside.new)) }
    ensures fault { IfErr result
        (IsPortsFault (O.told outside.old).port_faults (O.told outside.new).port_faults) }
    ensures only { OnlyPuts (O.told outside.old) (O.told outside.new) }
{
    for _round in 0..most {
        make_round(alloc, outside, schedule, run)?;
        if !run.world.goes_on() {
            return Ok(());
        }
    }
    Ok(())
}
