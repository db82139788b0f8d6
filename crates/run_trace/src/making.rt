//! The turns of a log, made again, and what they hand to the links.

ghost use Rattle.std.specs.Prelude.{◌≡◌, ◌<◌, ◌^◌, ◌++◌, false, OnOk, OnErr, IfOk, IfErr, All};
ghost use Rattle.std.specs.Option.{option_to_list};
ghost use Rattle.path_core.specs.Octets.{octets};
ghost use Rattle.world_core.specs.Kept.{standing};
ghost use Rattle.world_core.specs.Logged.{turn_of, all_turns};
ghost use Rattle.world_laws.specs.Worlds.{AreLawful, after_turn, is_going, world_run, world_step};
ghost use Rattle.run_trace.specs.Rates.{measured_at, measured_in};
ghost use Rattle.run_trace.specs.Trace.{FailedOrIs, IsTraceFault, IsWhole, StandsAtFault, can_be_made, place_of, sent_at, sent_next, trace_of};

use crate::next::sent_next;
use crate::progress::Progress;
use crate::rates::put_rates;
use link_trace::{Rates, Sent};
use run_log::Turn;
use std::alloc::{AllocError, Global};
use world_core::World;

/// Why the turns weren't all made.
#[derive(Clone, Copy)]
pub enum TraceFault {
    /// The turn of this place, the first being 0, can't be made: its actor's turn has ended, or the round ends while an actor's
    /// hasn't.
    Turn { place: u64 },
    /// Out of memory.
    Memory,
}

/// What turns hand to the links, and what the ends measure on the way.
#[derive(Drop)]
pub struct Gathered {
    /// The segments, in order.
    pub trace: Vec<Sent>,
    /// As each round ends, what both ends of each path measure, path 0 first: one round after the other.
    pub measured: Vec<Rates>,
}

/// Keeps a segment, if there is one.
fn keep(trace: &mut Vec<Sent>, sent: Option<Sent>) -> Result<(), AllocError>
    ensures { OnOk result (trace.new.items ≡ trace.old.items ++ option_to_list sent) }
{
    if let Some(sent) = sent {
        trace.push(sent)?;
    }
    Ok(())
}

/// Keeps the segment that the next step of an actor hands to a link, and makes the step. Answers whether the actor's turn hadn't
/// ended.
fn make_step(world: &mut World, actor: u8, trace: &mut Vec<Sent>) -> Result<bool, AllocError>
    ensures made { IfOk result (λ made. made ≡ is_going actor world.old.state) }
    ensures world { OnOk result (world.new ≡ standing (world_step octets actor world.old.state)) }
    ensures still { IfOk result (λ made. made ≡ false → world.new.state ≡ world.old.state) }
    ensures trace { OnOk result (trace.new.items ≡
        trace.old.items ++ option_to_list (sent_next actor world.old.state)) }
    ensures whole { IfOk result (λ made.
        All IsWhole (option_to_list (sent_next actor world.old.state))) }
    ensures err { OnErr result (FailedOrIs world.new world.old) }
{
    let sent = sent_next(world, actor)?;
    keep(trace, sent)?;
    world.go(actor)
}

/// Makes a turn, and keeps the segment that it hands to a link, or what the ends measure as it ends a round. Answers whether it could be
/// made.
fn make_turn(world: &mut World, turn: Turn, gathered: &mut Gathered) -> Result<bool, AllocError>
    requires { world.old.failed ≡ false }
    ensures made { IfOk result (λ made. made ≡ can_be_made (turn_of turn) world.old.state) }
    ensures world { OnOk result (world.new ≡
        standing (after_turn octets (turn_of turn) world.old.state)) }
    ensures still { IfOk result (λ made. made ≡ false → world.new.state ≡ world.old.state) }
    ensures trace { OnOk result (gathered.new.trace.items ≡
        gathered.old.trace.items ++ sent_at (turn_of turn) world.old.state) }
    ensures measured { OnOk result (gathered.new.measured.items ≡
        gathered.old.measured.items ++ measured_at (turn_of turn) world.old.state) }
    ensures whole { IfOk result (λ made. All IsWhole (sent_at (turn_of turn) world.old.state)) }
    ensures err { OnErr result (FailedOrIs world.new world.old) }
{
    match turn {
        Turn::Step(actor) => make_step(world, actor, &mut gathered.trace),
        Turn::Round => {
            put_rates(&mut gathered.measured, world)?;
            Ok(world.end_round())
        }
    }
}

/// Makes these turns of a connection that hasn't failed, one after the other, and gathers the segments that they hand to the
/// links, in order, and what the ends measure as rounds end: the octets of each segment are one (RFC 9293, section 3.1). Behind each
/// turn it tells how many are made.
///
/// # Errors
///
/// The first turn that can't be made, where the world stands as the turns before it lead to; or that memory ran out, where the
/// world has failed, or stands behind some first turns of the order.
pub fn gather<P: Progress>(
    alloc: Global,
    world: &mut World,
    order: &[Turn],
    progress: &mut P,
) -> Result<Gathered, TraceFault>
    requires { world.old.failed ≡ false }
    ensures trace { IfOk result (λ gathered. gathered.trace.items ≡
        trace_of (all_turns order.now) world.old.state) }
    ensures measured { IfOk result (λ gathered. gathered.measured.items ≡
        measured_in (all_turns order.now) world.old.state) }
    ensures whole { IfOk result (λ gathered. All IsWhole gathered.trace.items) }
    ensures lawful { OnOk result (AreLawful octets (all_turns order.now) world.old.state) }
    ensures world { OnOk result
        (world.new ≡ standing (world_run octets (all_turns order.now) world.old.state)) }
    ensures fault { IfErr result (IsTraceFault (all_turns order.now) world.old.state) }
    ensures within { IfErr result (λ fault. place_of fault < 2 ^ 63) }
    ensures stopped { IfErr result
        (λ fault. StandsAtFault fault (all_turns order.now) world.old.state world.new) }
{
    let mut gathered = Gathered {
        trace: Vec::new(alloc),
        measured: Vec::new(alloc),
    };
    let mut place = 0;
    for turn in order {
        let Ok(made) = make_turn(world, *turn, &mut gathered) else {
            return Err(TraceFault::Memory);
        };
        if !made {
            return Err(TraceFault::Turn { place });
        }
        place += 1;
        progress.made(place, order.len());
    }
    Ok(gathered)
}
