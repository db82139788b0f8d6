//! Rounds in which each actor takes its turn in a thread of its own. One set of threads serves all rounds of a run.

ghost use Rattle.std.specs.Prelude.{◌≡◌, ◌+◌, ◌-◌, ◌^◌, ◌<◌, false, length, None, All, IfSome, IfOk, IfErr, OnOk};
ghost use Rattle.world_core.specs.RoundEnds.{round_ends};
ghost use Rattle.run_outside.specs.Calling.{OnlyPuts};
ghost use Rattle.run_outside.specs.Ports.{IsPortsFault};
ghost use Rattle.mptcp_run.specs.Courses.{CourseMade, CourseCut};
ghost use Rattle.mptcp_run.specs.Making.{RoundMade, RoundStops};
ghost use Rattle.mptcp_run.specs.Rounds.{AtRound, Begins};
ghost use Rattle.mptcp_run.specs.Task as course;
ghost use Rattle.mptcp_run.specs.Threads.{AreMade, GoesTo, IsWoven, Waits, has_order};
ghost use Rattle.mptcp_run.specs.WovenRounds.{WovenTo};

use crate::rounds::Run;
use actor_turn::Gate;
use journal_weave::woven_round;
use outside_kit::Outside;
use path_core::Path;
use ruled_desk::{TurnGiver, dismiss_all, meet_all, open_turns, serve_all};
use run_outside::Status;
use stamped_book::Refusal;
use std::alloc::{AllocError, Global};
use std::sync::Wait;
use std::thread::{Threads, join_mut};
use stream_apps::App;
use world_core::World;
use world_laws::Member;

/// Who gives an actor's turns.
type MemberGiver = TurnGiver<Member<App, Path>>;

/// Whether an order was found.
fn has_order(order: &Result<Vec<u8>, Refusal>) -> bool
    ensures { result ≡ has_order order.now }
{
    matches!(order, Ok(_))
}

/// The connection after the steps of a round by threads, and the actors of these steps. Where stamps were used up, or memory
/// was, it has failed.
fn by_threads<G: Gate, R: Wait>(
    rt: &R,
    alloc: Global,
    world: World,
    gate: &G,
    givers: &mut [MemberGiver],
) -> (World, Result<Vec<u8>, Refusal>)
    requires rest { All (λ giver. giver ≡ None) givers.old }
    requires stands { world.failed ≡ false }
    requires begins { Begins world.state }
    ensures woven { IfOk result.1 (λ order. IsWoven world.state result.0 order.items) }
    ensures rest { All (λ giver. giver ≡ None) givers.new }
{
    let heard = world.heard();
    let (books, mut crew) = world.into_parts();
    let (books, order) = woven_round(rt, alloc, &mut crew, books, gate, givers);
    let failed = !has_order(&order);
    (World::from_parts_since(books, crew, failed, heard), order)
}

/// The connection after one more round by threads. Stamps that are used up count as want of memory, as in each other mode: 2^62 steps
/// have more notes than memory holds.
fn next_world<G: Gate, R: Wait>(
    rt: &R,
    alloc: Global,
    world: World,
    gate: &G,
    givers: &mut [MemberGiver],
) -> (World, Result<(), AllocError>)
    requires rest { All (λ giver. giver ≡ None) givers.old }
    requires stands { world.failed ≡ false }
    requires begins { Begins world.state }
    ensures goes { OnOk result.1 (GoesTo world.state result.0) }
    ensures rest { All (λ giver. giver ≡ None) givers.new }
{
    let (mut world, order) = by_threads(rt, alloc, world, gate, givers);
    match order {
        Ok(_order) => {
            world.end_round();
            (world, Ok(()))
        }
        Err(_) => (world, Err(AllocError)),
    }
}

/// One more round, put.
fn make_round<O: Outside, G: Gate, R: Wait>(
    rt: &R,
    alloc: Global,
    outside: &mut O,
    run: Run,
    gate: &G,
    givers: &mut [MemberGiver],
) -> (Run, Result<(), Status>)
    requires rest { All (λ giver. giver ≡ None) givers.old }
    requires begins { AtRound run }
    requires few { run.rounds < 2 ^ 64 - 1 }
    ensures made { OnOk result.1 (RoundMade WovenTo run.opening run.rounds
        run.world.state result.0.world.state (O.told outside.old) (O.told outside.new)) }
    ensures begins { OnOk result.1 (AtRound result.0) }
    ensures rounds { OnOk result.1 (result.0.rounds ≡ run.rounds + 1) }
    ensures opening { result.0.opening ≡ run.opening }
    ensures stops { IfErr result.1 (RoundStops WovenTo run.opening run.rounds run.world.state
        (O.told outside.old) (O.told outside.new)) }
    ensures fault { IfErr result.1
        (IsPortsFault (O.told outside.old).port_faults (O.told outside.new).port_faults) }
    ensures only { OnlyPuts (O.told outside.old) (O.told outside.new) }
    ensures rest { All (λ giver. giver ≡ None) givers.new }
{
    let Run {
        world,
        opening,
        made,
        rounds,
    } = run;
    let (world, told) = next_world(rt, alloc, world, gate, givers);
    let mut run = Run {
        world,
        opening,
        made,
        rounds,
    };
    match told {
        Ok(()) => {
            let told = run.put_round(alloc, outside);
            (run, told)
        }
        Err(_) => (run, Err(Status::Memory)),
    }
}

/// The rounds, one after the other.
fn make_rounds<O: Outside, G: Gate, R: Wait>(
    rt: &R,
    alloc: Global,
    outside: &mut O,
    run: Run,
    most: u32,
    gate: &G,
    givers: &mut [MemberGiver],
) -> (Run, Result<(), Status>)
    requires begins { AtRound run }
    requires none { run.rounds ≡ 0 }
    requires rest { All (λ giver. giver ≡ None) givers.old }
    ensures made { AreMade most run (O.told outside.old) (O.told outside.new) result }
    ensures rest { All (λ giver. giver ≡ None) givers.new }
{
    let mut run = run;
    for _round in 0..most {
        let (next, told) = make_round(rt, alloc, outside, run, gate, givers);
        run = next;
        match told {
            Ok(()) => {}
            Err(status) => return (run, Err(status)),
        }
        if !run.world.goes_on() {
            return (run, Ok(()));
        }
    }
    (run, Ok(()))
}

/// The rounds of a run that waits here, once the workers have come; after them no more turns come to these.
fn make_all<O: Outside, G: Gate, R: Wait>(
    rt: &R,
    alloc: Global,
    outside: &mut O,
    waits: &mut Option<Run>,
    most: u32,
    gate: &G,
    givers: &mut Vec<MemberGiver>,
) -> (Run, Result<(), Status>)
    requires waits { Waits waits.old }
    requires rest { All (λ giver. giver ≡ None) givers.old.items }
    ensures gone { waits.new ≡ None }
    ensures made { IfSome waits.old (λ run.
        AreMade most run (O.told outside.old) (O.told outside.new) result) }
{
    match waits.take() {
        Some(run) => {
            meet_all(rt, givers.as_slice());
            let made = make_rounds(rt, alloc, outside, run, most, gate, givers);
            dismiss_all(givers);
            made
        }
        None => unreachable!(),
    }
}

/// Makes at most so many rounds by threads from the opening on, and puts each; the last one is the first after which the
/// connection doesn't go on. A round for which there are no stamps left, or no memory, isn't put, and is the last.
pub fn make_threaded_rounds<O: Outside, G: Gate + Sync, R: Threads + Wait + Sync>(
    rt: &R,
    alloc: Global,
    outside: &mut O,
    run: Run,
    most: u32,
    gate: &G,
) -> (Run, Result<(), Status>)
    requires begins { AtRound run }
    requires none { run.rounds ≡ 0 }
    // All turns of such a course, and as many rounds as they end.
    ensures ok { OnOk result.1 ((made : CourseMade (course.threads most) run.opening
        run.world.state result.0.world.state (O.told outside.old) (O.told outside.new))
        × (result.0.rounds ≡ length (round_ends made.turns run.world.state))) }
    ensures stands { OnOk result.1 (result.0.world.failed ≡ false) }
    ensures cut { IfErr result.1 (CourseCut (course.threads most) run.opening run.world.state
        (O.told outside.old) (O.told outside.new)) }
    ensures fault { IfErr result.1
        (IsPortsFault (O.told outside.old).port_faults (O.told outside.new).port_faults) }
    ensures only { OnlyPuts (O.told outside.old) (O.told outside.new) }
{
    let (mut givers, mut workers) = open_turns(alloc, run.made.len().saturating_sub(1));
    let mut waits = Some(run);
    let (_served, made) = join_mut(
        rt,
        &mut ||
            requires { All (λ worker. worker ≡ None) workers.items }
        { serve_all(rt, alloc, &mut workers, gate) },
        &mut || -> (Run, Result<(), Status>)
            requires { Waits waits × All (λ giver. giver ≡ None) givers.items }
            ensures { (waits.exit ≡ None) × IfSome waits.entry (λ run.
                AreMade most run (O.told outside.entry.now) (O.told outside.exit.now) result) }
        { make_all(rt, alloc, outside, &mut waits, most, gate, &mut givers) },
    );
    let None = waits else { unreachable!() };
    made
}
