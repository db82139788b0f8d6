//! The steps of a log, in its order.

ghost use Rattle.std.specs.Prelude.{◌≡◌, ◌+◌, ◌-◌, ◌^◌, ◌≤◌, ◌<◌, length, true, IfErr, OnOk, false};
ghost use Rattle.path_core.specs.Octets.{octets};
ghost use Rattle.world_core.specs.Kept.{standing};
ghost use Rattle.world_core.specs.Logged.{turn_of, all_turns};
ghost use Rattle.world_laws.specs.Worlds.{is_going, world_step, IsLawfulTurn, after_turn};
ghost use Rattle.run_outside.specs.Calling.{OnlyPuts};
ghost use Rattle.mptcp_run.specs.Making.{TurnMade};
ghost use Rattle.mptcp_run.specs.Courses.{CourseMade, LogStops};
ghost use Rattle.mptcp_run.specs.Rounds.{AtRound};
ghost use Rattle.mptcp_run.specs.Replaying.{UnderWay, StepFault, rounds_after, round_turn, IsReplayFault};
ghost use Rattle.mptcp_run.specs.Task.{Connection};
ghost use Rattle.mptcp_run.specs.Task as course;

use crate::rounds::Run;
use outside_kit::Outside;
use run_log::Turn;
use run_outside::Status;
use std::alloc::Global;
use world_core::World;

/// Makes the step that a line of the log tells.
fn make_step(world: &mut World, actor: u8, line: u64) -> Result<(), Status>
    ensures ok { OnOk result (world.new ≡ standing (world_step octets actor world.old.state)) }
    ensures going { OnOk result (is_going actor world.old.state ≡ true) }
    ensures fault { IfErr result (StepFault actor world.old.state line) }
{
    match world.go(actor) {
        Ok(true) => Ok(()),
        Ok(false) => Err(Status::Log { line }),
        Err(_) => Err(Status::Memory),
    }
}

/// Ends the round that a line of the log ends, and puts it.
fn end_round<O: Outside>(
    alloc: Global,
    outside: &mut O,
    run: &mut Run,
    line: u64,
) -> Result<(), Status>
    requires few { run.old.rounds < 2 ^ 64 - 1 }
    requires made { length run.old.made.items ≡ length run.old.world.state.crew }
    ensures ok { OnOk result
        (run.new.world ≡ standing (after_turn octets round_turn run.old.world.state)) }
    ensures over { OnOk result (IsLawfulTurn round_turn run.old.world.state) }
    ensures rounds { OnOk result (run.new.rounds ≡ rounds_after round_turn run.old.rounds) }
    ensures opening { run.new.opening ≡ run.old.opening }
    ensures turn { (last : Connection) → UnderWay last run.old →
        TurnMade run.old.opening run.old.rounds round_turn last run.old.world.state line run.new
        (O.told outside.old) (O.told outside.new) result }
{
    if !run.world.end_round() {
        return Err(Status::Log { line });
    }
    run.put_round(alloc, outside)
}

/// Makes the turn that a line of the log tells.
fn make_turn<O: Outside>(
    alloc: Global,
    outside: &mut O,
    run: &mut Run,
    turn: Turn,
    line: u64,
) -> Result<(), Status>
    requires few { run.old.rounds < 2 ^ 64 - 1 }
    requires made { length run.old.made.items ≡ length run.old.world.state.crew }
    ensures ok { OnOk result
        (run.new.world ≡ standing (after_turn octets (turn_of turn) run.old.world.state)) }
    ensures lawful { OnOk result (IsLawfulTurn (turn_of turn) run.old.world.state) }
    ensures rounds { OnOk result (run.new.rounds ≡ rounds_after (turn_of turn) run.old.rounds) }
    ensures opening { run.new.opening ≡ run.old.opening }
    ensures turn { (last : Connection) → UnderWay last run.old →
        TurnMade run.old.opening run.old.rounds (turn_of turn) last run.old.world.state line run.new
        (O.told outside.old) (O.told outside.new) result }
{
    match turn {
        Turn::Step(actor) => make_step(&mut run.world, actor, line),
        Turn::Round => end_round(alloc, outside, run, line),
    }
}

/// Makes the turns of a log, the first of which stands behind so many lines, and puts each round at its end.
pub fn make_turns<O: Outside>(
    alloc: Global,
    outside: &mut O,
    run: &mut Run,
    order: &[Turn],
    lines: u64,
) -> Result<(), Status>
    requires begins { AtRound run.old }
    requires none { run.old.rounds ≡ 0 }
    requires few { lines ≤ 3 }
    ensures ok { OnOk result (CourseMade (course.told (all_turns order.now)) run.old.opening
        run.old.world.state run.new.world.state (O.told outside.old) (O.told outside.new)) }
    ensures stands { OnOk result (run.new.world.failed ≡ false) }
    ensures stop { IfErr result (LogStops (all_turns order.now) lines
        run.old.opening run.old.world.state (O.told outside.old) (O.told outside.new)) }
    ensures cause { IfErr result
        (IsReplayFault (O.told outside.old).port_faults (O.told outside.new).port_faults) }
    ensures only { OnlyPuts (O.told outside.old) (O.told outside.new) }
{
    let mut line = lines;
    for turn in order {
        line += 1;
        make_turn(alloc, outside, run, *turn, line)?;
    }
    Ok(())
}
