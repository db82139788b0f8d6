//! Turns as jobs of workers that stay from round to round.
ghost use Rattle.std.specs.Prelude.{◌≡◌, ◌≤◌, None, Some, All, IfSome, vec_capacity};
ghost use Rattle.std.specs.Arc.{arc_value};
ghost use Rattle.ruled_desk.specs.declared.errands.Errand.{Errand};
ghost use Rattle.ruled_desk.specs.declared.rider.Rider.{Rider};
ghost use Rattle.ruled_desk.specs.Errands.{AllHave, AllRode, IsSent};
ghost use Rattle.ruled_desk.specs.Riding.{HasPass, Rode};

use crate::desk::RuledDesk;
use crate::rider::Mounted;
use crate::rounds::ride;
use actor_desk::Actor;
use actor_turn::Gate;
use berth::{Deed, Giver, Worker, open_berth};
use std::alloc::{AllocError, AllocFailed, Global};
use std::marker::PhantomData;
use std::sync::{Arc, Wait};
use std::thread;
use std::thread::Threads;

/// A rider's turn as a job: the rider, with its pass, and the desk at which it rides.
#[derive(Drop)]
pub struct Errand<A> {
    pub(crate) rider: Mounted<A>,
    pub(crate) desk: Arc<RuledDesk, Global>,
}

/// What comes back of an errand: its rider made its turn.
pub struct Riding<A> {
    actor: PhantomData<A>,
}

impl<A: Actor> Deed<Errand<A>> for Riding<A> {
    ghost use Rattle.std.specs.Arc.{arc_value};
    ghost use Rattle.ruled_desk.specs.Riding.{HasPass, Rode};

    ghost may = { λ errand. HasPass (arc_value errand.desk) errand.rider };

    ghost does = { λ errand done. Rode A.asks A.takes
        (arc_value errand.desk) errand.rider done.rider };
}

/// Who gives turns to a worker.
pub type TurnGiver<A> = Giver<Errand<A>, Riding<A>>;

/// Who makes turns for a giver.
pub type TurnWorker<A> = Worker<Errand<A>, Riding<A>>;

// One berth more, where there is memory.
fn add_berth<A: Actor + Drop>(
    alloc: Global,
    givers: &mut Vec<TurnGiver<A>>,
    workers: &mut Vec<TurnWorker<A>>,
) -> Result<(), AllocError>
    requires givers { All (λ giver. giver ≡ None) givers.old.items }
    requires workers { All (λ worker. worker ≡ None) workers.old.items }
    ensures givers { All (λ giver. giver ≡ None) givers.new.items }
    ensures workers { All (λ worker. worker ≡ None) workers.new.items }
{
    let (giver, worker) = open_berth(alloc)?;
    givers.push(giver)?;
    workers.push(worker)?;
    Ok(())
}

/// Berths for so many workers, or for fewer where there is no memory.
pub fn open_turns<A: Actor + Drop>(
    alloc: Global,
    count: usize,
) -> (Vec<TurnGiver<A>>, Vec<TurnWorker<A>>)
    ensures givers { All (λ giver. giver ≡ None) result.0.items }
    ensures workers { All (λ worker. worker ≡ None) result.1.items }
{
    let mut givers = Vec::new(alloc);
    let mut workers = Vec::new(alloc);
    for _ in 0..count {
        if add_berth(alloc, &mut givers, &mut workers).is_err() {
            return (givers, workers);
        }
    }
    (givers, workers)
}

/// Waits until the workers have come, each for two seconds at most, and for none after one that hasn't.
pub fn meet_all<A: Actor + Drop, R: Wait>(rt: &R, givers: &[TurnGiver<A>]) {
    for giver in givers {
        if !giver.meet(rt) {
            return;
        }
    }
}

/// No more turns come to the workers.
pub fn dismiss_all<A: Actor + Drop>(givers: &mut Vec<TurnGiver<A>>)
    requires { All (λ giver. giver ≡ None) givers.old.items }
{
    while let Some(giver) = givers.pop() {
        giver.dismiss();
    }
}

// The turn of an errand is made.
fn run<A: Actor, G: Gate, R: Wait>(rt: &R, alloc: Global, errand: &mut Errand<A>, gate: &G)
    requires { HasPass (arc_value errand.old.desk) errand.old.rider }
    ensures { Rode A.asks A.takes (arc_value errand.old.desk) errand.old.rider errand.new.rider }
{
    ride(rt, alloc, &mut errand.rider, &*errand.desk, gate);
}

// Makes the next turn that is given, which it waits for: whether there was one.
fn serve_next<A: Actor + Drop, G: Gate, R: Wait>(
    rt: &R,
    alloc: Global,
    worker: &mut TurnWorker<A>,
    gate: &G,
) -> bool
    requires { worker.old ≡ None }
    ensures { worker.new ≡ None }
{
    match worker.next(rt) {
        Some(mut errand) => {
            run(rt, alloc, &mut errand, gate);
            worker.finish(errand);
            true
        }
        None => false,
    }
}

// Makes the turns that are given, one after the other, until no more come.
fn serve<A: Actor + Drop, G: Gate, R: Wait>(
    rt: &R,
    alloc: Global,
    worker: &mut TurnWorker<A>,
    gate: &G,
)
    requires { worker.old ≡ None }
{
    worker.arrive();
    for _ in rt.forever() {
        if !serve_next(rt, alloc, worker, gate) {
            return;
        }
    }
}

/// The workers serve, each in a thread of its own; where no thread can be made, one after the other.
pub fn serve_all<A: Actor + Drop + Send, G: Gate + Sync, R: Threads + Wait + Sync>(
    rt: &R,
    alloc: Global,
    workers: &mut [TurnWorker<A>],
    gate: &G,
)
    requires { All (λ worker. worker ≡ None) workers.old }
{
    let threads = workers.len().max(1);
    thread::for_each_mut(
        rt,
        workers,
        threads,
        &|_: usize, worker: &mut TurnWorker<A>|
            requires { worker.now ≡ None }
        { serve(rt, alloc, worker, gate) },
    );
}

impl<A> Errand<A> {
    // The rider, without the desk.
    fn into_rider(self) -> Mounted<A>
        ensures { result ≡ self.rider }
    {
        let Errand { rider, desk: _ } = self;
        rider
    }
}

// Offers an errand: its rider, where the worker has not come.
fn offer<A: Actor + Drop>(giver: &mut TurnGiver<A>, errand: Errand<A>) -> Option<Mounted<A>>
    requires rests { giver.old ≡ None }
    requires pass { HasPass (arc_value errand.desk) errand.rider }
    ensures { IsSent (arc_value errand.desk) errand.rider result giver.new }
{
    match giver.offer(errand) {
        Ok(()) => None,
        Err(errand) => Some(errand.into_rider()),
    }
}

// Sends a rider out, unless the worker has not come or the desk has too many owners.
fn send<A: Actor + Drop>(
    giver: &mut TurnGiver<A>,
    rider: Mounted<A>,
    desk: &Arc<RuledDesk, Global>,
) -> Option<Mounted<A>>
    requires rests { giver.old ≡ None }
    requires pass { HasPass (arc_value desk.now) rider }
    ensures { IsSent (arc_value desk.now) rider result giver.new }
{
    let Ok(desk) = Arc::try_clone(desk) else {
        return Some(rider);
    };
    offer(giver, Errand { rider, desk })
}

// The rider that is out: back from its worker, or after a turn here where the worker hasn't begun.
fn come_home<A: Actor + Drop, G: Gate, R: Wait>(
    rt: &R,
    alloc: Global,
    giver: &mut TurnGiver<A>,
    gate: &G,
) -> Mounted<A>
    requires { (errand : Errand A) × (giver.old ≡ Some errand) ×
        HasPass (arc_value errand.desk) errand.rider }
    ensures rode { IfSome giver.old (λ errand.
        Rode A.asks A.takes (arc_value errand.desk) errand.rider result) }
    ensures rests { giver.new ≡ None }
{
    match giver.recall() {
        Some(mut errand) => {
            run(rt, alloc, &mut errand, gate);
            errand.into_rider()
        }
        None => giver.fetch(rt).into_rider(),
    }
}

// The rider back from its worker, or after a turn here where it wasn't sent, or the worker hasn't begun.
fn back<A: Actor + Drop, G: Gate, R: Wait>(
    rt: &R,
    alloc: Global,
    giver: &mut TurnGiver<A>,
    kept: Option<Mounted<A>>,
    desk: &RuledDesk,
    gate: &G,
) -> Mounted<A>
    requires { (rider : Rider A) × IsSent desk.now rider kept giver.old × HasPass desk.now rider }
    ensures rode { (rider : Rider A) → IsSent desk.now rider kept giver.old →
        HasPass desk.now rider → Rode A.asks A.takes desk.now rider result }
    ensures rests { giver.new ≡ None }
{
    match kept {
        Some(mut rider) => {
            ride(rt, alloc, &mut rider, desk, gate);
            rider
        }
        None => come_home(rt, alloc, giver, gate),
    }
}

// The turns of all these riders, here, one after the other.
fn ride_here<A: Actor + Drop, G: Gate, R: Wait>(
    rt: &R,
    alloc: Global,
    riders: &mut Vec<Mounted<A>>,
    desk: &RuledDesk,
    gate: &G,
)
    requires { AllHave desk.now riders.old.items }
    ensures rode { AllRode A.asks A.takes desk.now riders.old.items riders.new.items }
    ensures room { vec_capacity riders.old ≤ vec_capacity riders.new }
{
    let Some(mut rider) = riders.pop() else {
        return;
    };
    ride(rt, alloc, &mut rider, desk, gate);
    ride_here(rt, alloc, riders, desk, gate);
    riders.push_reserved(rider);
}

// The turns of all these riders: the last one at the first worker, where it has come, the others at the others, and those for
// which there is no worker here.
#[cycle(apart)]
fn ride_apart<A: Actor + Drop, G: Gate, R: Wait>(
    rt: &R,
    alloc: Global,
    givers: &mut [TurnGiver<A>],
    riders: &mut Vec<Mounted<A>>,
    desk: &Arc<RuledDesk, Global>,
    gate: &G,
)
    requires passes { AllHave (arc_value desk.now) riders.old.items }
    requires rest { All (λ giver. giver ≡ None) givers.old }
    ensures rode { AllRode A.asks A.takes (arc_value desk.now) riders.old.items riders.new.items }
    ensures room { vec_capacity riders.old ≤ vec_capacity riders.new }
    ensures rest { All (λ giver. giver ≡ None) givers.new }
{
    match givers.split_first_mut() {
        Some((giver, others)) => ride_beside(rt, alloc, giver, others, riders, desk, gate),
        None => ride_here(rt, alloc, riders, &**desk, gate),
    }
}

// The turns of all these riders, the last one at this worker.
#[cycle(apart)]
fn ride_beside<A: Actor + Drop, G: Gate, R: Wait>(
    rt: &R,
    alloc: Global,
    giver: &mut TurnGiver<A>,
    others: &mut [TurnGiver<A>],
    riders: &mut Vec<Mounted<A>>,
    desk: &Arc<RuledDesk, Global>,
    gate: &G,
)
    requires passes { AllHave (arc_value desk.now) riders.old.items }
    requires rests { giver.old ≡ None }
    requires rest { All (λ giver. giver ≡ None) others.old }
    ensures rode { AllRode A.asks A.takes (arc_value desk.now) riders.old.items riders.new.items }
    ensures room { vec_capacity riders.old ≤ vec_capacity riders.new }
    ensures rests { giver.new ≡ None }
    ensures rest { All (λ giver. giver ≡ None) others.new }
{
    let Some(rider) = riders.pop() else {
        return;
    };
    let kept = send(giver, rider, desk);
    ride_apart(rt, alloc, others, riders, desk, gate);
    riders.push_reserved(back(rt, alloc, giver, kept, &**desk, gate));
}

// The desk, once nobody else has it.
fn unshared<R: Wait>(rt: &R, desk: Arc<RuledDesk, Global>) -> RuledDesk
    ensures { result ≡ arc_value desk }
{
    let mut shared = desk;
    for _ in rt.forever() {
        match Arc::try_unwrap(shared) {
            Ok(desk) => return desk,
            Err(still) => shared = still,
        }
        thread::yield_now();
    }
    unreachable!()
}

/// The turns of all riders at a desk, which comes back: each at a worker, as far as these go and begin in time, and else here.
pub(crate) fn ride_out<A: Actor + Drop, G: Gate, R: Wait>(
    rt: &R,
    alloc: Global,
    givers: &mut [TurnGiver<A>],
    riders: &mut Vec<Mounted<A>>,
    desk: RuledDesk,
    gate: &G,
) -> RuledDesk
    requires passes { AllHave desk riders.old.items }
    requires rest { All (λ giver. giver ≡ None) givers.old }
    ensures same { result ≡ desk }
    ensures rode { AllRode A.asks A.takes desk riders.old.items riders.new.items }
    ensures rest { All (λ giver. giver ≡ None) givers.new }
{
    match Arc::new(alloc, desk) {
        Ok(shared) => {
            ride_apart(rt, alloc, givers, riders, &shared, gate);
            unshared(rt, shared)
        }
        Err(AllocFailed { value }) => {
            ride_here(rt, alloc, riders, &value, gate);
            value
        }
    }
}
