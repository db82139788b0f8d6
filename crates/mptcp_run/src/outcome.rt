//! How a run ends where all its rounds were made.

ghost use Rattle.std.specs.Prelude.{◌≡◌, ◌≢◌, ◌++◌, [], ◌∷◌, OnOk, OnErr, IfErr};
ghost use Rattle.outside_kit.specs.declared.port.Port.{Port};
ghost use Rattle.outside_kit.specs.Outside.{HoldsAfter, HoldsPrefix};
ghost use Rattle.outside_kit.specs.Calls as call;
ghost use Rattle.run_outside.specs.Calling.{Puts};
ghost use Rattle.run_outside.specs.Plan.{AddsShort};
ghost use Rattle.mptcp_run.specs.Putting.{status_of, last_line_of};

use crate::report::{Report, last_line};
use crate::rounds::Run;
use outside_kit::{Outside, Port};
use run_outside::{Status, put};
use std::alloc::Global;
use world_core::Outcome;

/// The status of a run that ends so.
pub fn status_of(outcome: Outcome) -> Status
    ensures { result ≡ status_of outcome }
{
    match outcome {
        Outcome::Going => Status::Rounds,
        Outcome::Delivered => Status::Delivered,
        Outcome::Aborted(reader) => Status::Aborted { reader },
        Outcome::NoPath => Status::NoPath,
    }
}

/// Puts the last line of a run.
pub fn put_last<O: Outside>(
    alloc: Global,
    outside: &mut O,
    run: &Run,
    report: Report,
) -> Result<(), Status>
    ensures ok { OnOk result (HoldsAfter ((O.told outside.old).holds Port.Log)
        ((O.told outside.new).holds Port.Log)
        (λ held. held ++ last_line_of report run.now.rounds run.now.world.state)) }
    ensures err { OnErr result (HoldsPrefix ((O.told outside.old).holds Port.Log)
        ((O.told outside.new).holds Port.Log) (last_line_of report run.now.rounds run.now.world.state)) }
    ensures other_ports { (other : Port) → other ≢ Port.Log →
        (O.told outside.new).holds other ≡ (O.told outside.old).holds other }
    ensures short { IfErr result (λ status. AddsShort
        (call.Put Port.Log (last_line_of report run.now.rounds run.now.world.state) ∷ [])
        status (O.told outside.old).calls (O.told outside.new).calls) }
    ensures puts { Puts
        (call.Put Port.Log (last_line_of report run.now.rounds run.now.world.state) ∷ [])
        (O.told outside.old) (O.told outside.new) result }
{
    match last_line(alloc, run, report) {
        Ok(line) => put(outside, Port::Log, line.as_bytes()),
        Err(_) => Err(Status::Memory),
    }
}
