//! Rounds by tick: each step is the one that stands earliest.

ghost use Rattle.std.specs.Prelude.{◌≡◌, true, false, IfSome, IsNone, OnOk, OnErr};
ghost use Rattle.path_core.specs.Octets.{octets};
ghost use Rattle.world_core.specs.Sooner.{sooner};
ghost use Rattle.world_core.specs.TimedRounds.{member_tick, step_tick, tick_at, IsNext, TimedCut, TimedRoundTo, TimedTurnsTo};
ghost use Rattle.world_laws.specs.Worlds.{all_over};

use crate::member::{Crew, Member, is_over};
use crate::world::World;
use std::alloc::AllocError;

/// The step that an actor makes next, with the tick at which it stands.
#[derive(Clone, Copy)]
struct NextStep {
    actor: u8,
    tick: u64,
}

// The tick at which an actor's next step stands; an application has none, and comes before all paths.
fn member_tick(member: &Member) -> u64
    ensures { result ≡ member_tick member.now }
{
    match member {
        Member::App(_) => 0,
        Member::Path(path) => path.next_tick(),
    }
}

// As long as its turn goes on.
fn step_tick(member: &Member) -> Option<u64>
    ensures { result ≡ step_tick member.now }
{
    if is_over(member) {
        None
    } else {
        Some(member_tick(member))
    }
}

// Of the actor at this place.
fn tick_at(crew: &[Crew], actor: usize) -> Option<u64>
    ensures { result ≡ tick_at actor crew.now }
{
    match crew.get(actor) {
        Some(crew) => step_tick(&crew.member),
        None => None,
    }
}

impl World {
    // Of the actor of this number.
    fn step_tick(&self, actor: u8) -> Option<u64>
        ensures { result ≡ tick_at actor self.now.state.crew }
    {
        tick_at(&self.crew, usize::from(actor))
    }
}

// The earlier one of a step and that of an actor with a greater number; at one tick the first.
fn sooner(step: Option<NextStep>, actor: u8, tick: Option<u64>) -> Option<NextStep>
    ensures { result ≡ sooner step actor tick }
{
    match (step, tick) {
        (step, None) => step,
        (None, Some(tick)) => Some(NextStep { actor, tick }),
        (Some(step), Some(tick)) => {
            if tick < step.tick {
                Some(NextStep { actor, tick })
            } else {
                Some(step)
            }
        }
    }
}

// The step that stands earliest.
fn earliest(world: &World) -> Option<NextStep>
    ensures step { IfSome result (λ step. IsNext step.actor world.now.state.crew) }
    ensures none { IsNone result → all_over world.now.state.crew ≡ true }
{
    let mut step = None;
    for actor in 0..world.actors() {
        step = sooner(step, actor, world.step_tick(actor));
    }
    step
}

// The steps of a round, each of which stands earliest, up to the end of each turn.
fn timed_turns(world: &mut World) -> Result<(), AllocError>
    requires { world.old.failed ≡ false }
    ensures ok { OnOk result (TimedTurnsTo octets world.old.state world.new.state) }
    ensures stands { OnOk result (world.new.failed ≡ false) }
    ensures err { OnErr result (world.new.failed ≡ true) }
    ensures cut { OnErr result (TimedCut octets world.old.state world.new.state) }
{
    while let Some(step) = earliest(world) {
        world.go(step.actor)?;
    }
    Ok(())
}

/// A round by tick, and its end. Of the actors whose turn goes on that one makes a step whose next step stands earliest, of several
/// the one with the least number; the steps of applications come before those of paths. So first A's application and then
/// B's take their turns, and from one step to the next no path's clock goes back.
///
/// # Errors
///
/// Where there is no memory. The world has failed then, and the outcome and the list of each actor are as after some first steps
/// of the round.
pub fn timed_round(world: &mut World) -> Result<(), AllocError>
    requires { world.old.failed ≡ false }
    ensures ok { OnOk result (TimedRoundTo octets world.old.state world.new.state) }
    ensures stands { OnOk result (world.new.failed ≡ false) }
    ensures err { OnErr result (world.new.failed ≡ true) }
    ensures cut { OnErr result (TimedCut octets world.old.state world.new.state) }
{
    timed_turns(world)?;
    world.end_round();
    Ok(())
}
