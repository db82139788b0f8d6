//! The log's steps made again, and one view of what was sent.

ghost use Rattle.std.specs.Prelude.{◌≡◌, ◌≢◌, ◌++◌, ◌↔◌, ◌<◌, ◌≤◌, ◌^◌, false, Err, None, [], ◌∷◌, map, IfOk, IfErr, IfSome, OnOk, OnErr, length, string_bytes};
ghost use Rattle.outside_kit.specs.Calls as call;
ghost use Rattle.outside_kit.specs.Outside.{HoldsAfter, HoldsPrefix};
ghost use Rattle.outside_kit.specs.declared.port.Port.{Port};
ghost use Rattle.link_script.specs.Scripts.{HasRanges};
ghost use Rattle.path_core.specs.Octets.{octets};
ghost use Rattle.link_trace.specs.Carrying.{all_carried};
ghost use Rattle.run_trace.specs.Initials.{initials_in};
ghost use Rattle.run_trace.specs.Trace.{place_of, trace_of};
ghost use Rattle.run_words.specs.Lines.{as_line, replay};
ghost use Rattle.run_outside.specs.Plan.{AddsAll, AddsCut};
ghost use Rattle.run_outside.specs.Ports.{IsUntouched};
ghost use Rattle.run_outside.specs.declared.status.Status.TheVariants.{Usage};
ghost use Rattle.world_core.specs.Kept.{standing};
ghost use Rattle.world_core.specs.Logged.{all_turns};
ghost use Rattle.world_laws.specs.Worlds.{AreLawful};
ghost use Rattle.mptcp_view.specs.Asking.{as_asked, asked_in};
ghost use Rattle.mptcp_view.specs.Telling.{untold};
ghost use Rattle.mptcp_view.specs.Views.{HoldsCut, IsBeforeOut, IsCaptureAt, IsOutFault, IsPictureOf, IsShownByTick, IsTurnsFault, IsUntold, IsViewAnswer, IsViewFault, IsViewFrom, IsViewOf, Shows, base_in, data_in, end_of, first_world, out_calls, stopped_at};

use crate::asking::{Asked, DataNumbers, View, asked_by};
use crate::cutting::{Extent, ReadLog, read_shown};
use crate::deaths::deaths_in;
use crate::telling::untold;
use crate::whole::{json_shown, page_shown};
use key_material::idsn;
use link_script::Script;
use link_trace::{
    Base, Carried, InitialData, Rates, Sent, all_carried, capture, lines, picture, put_by_tick,
    rates, seen_at, summary,
};
use outside_kit::{Outside, Port, PutFault};
use path_core::key_of;
use run_outside::{Input, Logged, Status, load_logged, opening_count};
use run_trace::{Gathered, Progress, TraceFault, gather, initials_in, rates_of};
use sides::Side;
use std::alloc::{AllocError, Global};
use world_core::World;

/// The numbers from which those of a run count.
fn base_in(script: &Script) -> Base
    ensures { result ≡ base_in script.now }
{
    let (key_a, key_b) = (key_of(script.seed, 0), key_of(script.seed, 2));
    Base::of(key_a, key_b, script.checksum)
}

/// What each segment of a run of this script carries.
pub fn carried_in(
    alloc: Global,
    script: &Script,
    trace: &[Sent],
) -> Result<Vec<Carried>, AllocError>
    ensures { IfOk result (λ carried. carried.items ≡
        all_carried (base_in script.now) (initials_in script.now) trace.now) }
{
    let initials = initials_in(alloc, script)?;
    all_carried(alloc, &base_in(script), &initials, trace)
}

/// The initial data sequence numbers of both sides, where data numbers are told from these.
pub fn data_in(numbers: DataNumbers, script: &Script) -> Option<InitialData>
    ensures { result ≡ data_in numbers script.now }
{
    match numbers {
        DataNumbers::Relative => Some(InitialData {
            a: idsn(key_of(script.seed, 0)),
            b: idsn(key_of(script.seed, 2)),
        }),
        DataNumbers::Absolute => None,
    }
}

/// The tick at which a run ended that ended with this world. Clocks meet as a round ends, so it is that of path 0, which is the actor 2.
pub fn end_of(world: &World) -> u64
    ensures { result ≡ end_of world.now.state }
{
    match world.path(2) {
        None => 0,
        Some(path) => path.tick(),
    }
}

/// The capture of what a side sees of these segments of a run that ended at this tick.
fn capture_at(
    alloc: Global,
    side: Side,
    script: &Script,
    end: u64,
    told: &[Sent],
) -> Result<Vec<u8>, AllocError>
    ensures { IfOk result (λ shown. IsCaptureAt side script.now end told.now shown.items) }
{
    let paths = script.paths.as_slice();
    let seen = seen_at(alloc, side, paths, end, told)?;
    capture(alloc, side, paths.len(), &seen)
}

/// The picture of these segments of a run of this script, whose ends measured this as its rounds ended, and which ended with this world.
fn picture_at(
    alloc: Global,
    script: &Script,
    world: &World,
    measured: &[Rates],
    told: &[Sent],
) -> Result<Vec<u8>, AllocError>
    ensures { IfOk result (λ shown.
        IsPictureOf script.now world.now.state measured.now told.now shown.items) }
{
    let deaths = deaths_in(alloc, world, script.lines.as_slice())?;
    let carried = carried_in(alloc, script, told)?;
    let paths = script.paths.as_slice().len();
    let shown = picture(alloc, paths, &deaths, measured, &carried)?;
    Ok(shown)
}

/// A view of these segments of a run of this script, which ended with this world.
fn shown(
    alloc: Global,
    view: View,
    script: &Script,
    world: &World,
    measured: &[Rates],
    told: &[Sent],
) -> Result<Vec<u8>, AllocError>
    ensures { IfOk result (λ shown.
        IsViewFrom script.now world.now.state measured.now view told.now shown.items) }
{
    let paths = script.paths.as_slice().len();
    match view {
        View::Capture(None) => capture(alloc, Side::A, paths, told),
        View::Capture(Some(side)) => capture_at(alloc, side, script, end_of(world), told),
        View::Rates => {
            let carried = carried_in(alloc, script, told)?;
            rates(alloc, measured, paths, end_of(world) / 100, &carried)
        }
        View::Summary => {
            let carried = carried_in(alloc, script, told)?;
            summary(alloc, &rates_of(alloc, world)?, &carried)
        }
        View::Picture => picture_at(alloc, script, world, measured, told),
        View::Text(numbers) => lines(alloc, script.checksum, data_in(numbers, script), told),
        View::Json => json_shown(alloc, script, world, told),
        View::Page => page_shown(alloc, script, world, told),
    }
}

/// A view of what was sent in a run of this script, which ended with this world: its segments stand by tick.
fn shown_by_tick(
    alloc: Global,
    view: View,
    script: &Script,
    world: &World,
    gathered: Gathered,
) -> Result<Vec<u8>, AllocError>
    ensures { IfOk result (λ shown. IsShownByTick script.now world.now.state
        gathered.measured.items view gathered.trace.items shown.items) }
{
    let Gathered {
        mut trace,
        measured,
    } = gathered;
    put_by_tick(&mut trace)?;
    shown(alloc, view, script, world, &measured, &trace)
}

/// The status of turns that weren't all made, behind so many lines of the log.
fn stopped(fault: TraceFault, lines: u64) -> Status
    requires few { lines ≤ 3 }
    requires within { place_of fault < 2 ^ 63 }
    ensures { result ≡ stopped_at lines fault }
{
    match fault {
        TraceFault::Turn { place } => Status::Log {
            line: lines + place + 1,
        },
        TraceFault::Memory => Status::Memory,
    }
}

/// Writes all of it at the end of OUT.
fn put_out<O: Outside>(outside: &mut O, shown: &[u8]) -> Result<(), Status>
    ensures ok { OnOk result (HoldsAfter ((O.told outside.old).holds Port.ReadByB)
        ((O.told outside.new).holds Port.ReadByB) (λ held. held ++ shown.now)) }
    ensures err { OnErr result (HoldsPrefix ((O.told outside.old).holds Port.ReadByB)
        ((O.told outside.new).holds Port.ReadByB) shown.now) }
    ensures fault { IfErr result (IsOutFault
        ((O.told outside.old).port_faults Port.ReadByB) ((O.told outside.new).port_faults Port.ReadByB)) }
    ensures other_ports { (port : Port) → port ≢ Port.ReadByB →
        (O.told outside.new).holds port ≡ (O.told outside.old).holds port }
    ensures other_counts { (port : Port) → port ≢ Port.ReadByB →
        (O.told outside.new).port_faults port ≡ (O.told outside.old).port_faults port }
    ensures made { OnOk result (AddsAll (call.Put Port.ReadByB shown.now ∷ [])
        (O.told outside.old).calls (O.told outside.new).calls) }
    ensures cut { IfErr result (λ status. AddsCut (call.Put Port.ReadByB shown.now ∷ []) status
        (O.told outside.old).calls (O.told outside.new).calls) }
{
    match outside.put(Port::ReadByB, shown) {
        Ok(()) => Ok(()),
        Err(PutFault::Failed) => Err(Status::Put {
            port: Port::ReadByB,
        }),
        Err(PutFault::Memory) => Err(Status::Memory),
    }
}

/// Makes OUT anew, and writes it.
#[tactic(auto, using(crate::proofs::Refusing::kept_out))]
fn write_out<O: Outside>(outside: &mut O, out: &str, shown: &[u8]) -> Result<(), Status>
    ensures ok { OnOk result (HoldsAfter ((O.told outside.old).holds Port.ReadByB)
        ((O.told outside.new).holds Port.ReadByB) (λ _. shown.now)) }
    ensures err { OnErr result (HoldsCut ((O.told outside.old).holds Port.ReadByB)
        ((O.told outside.new).holds Port.ReadByB) shown.now) }
    ensures fault { IfErr result (IsOutFault
        ((O.told outside.old).port_faults Port.ReadByB) ((O.told outside.new).port_faults Port.ReadByB)) }
    ensures other_ports { (port : Port) → port ≢ Port.ReadByB →
        (O.told outside.new).holds port ≡ (O.told outside.old).holds port }
    ensures other_counts { (port : Port) → port ≢ Port.ReadByB →
        (O.told outside.new).port_faults port ≡ (O.told outside.old).port_faults port }
    ensures made { OnOk result (AddsAll (out_calls out.now shown.now)
        (O.told outside.old).calls (O.told outside.new).calls) }
    ensures cut { IfErr result (λ status. AddsCut (out_calls out.now shown.now) status
        (O.told outside.old).calls (O.told outside.new).calls) }
{
    match outside.bind(Port::ReadByB, out) {
        Ok(()) => put_out(outside, shown),
        Err(PutFault::Failed) => Err(Status::Put {
            port: Port::ReadByB,
        }),
        Err(PutFault::Memory) => Err(Status::Memory),
    }
}

/// The lines of a log tell just the segments of a trace, or the fault says where they don't.
fn are_told(alloc: Global, log: &[u8], trace: &[Sent]) -> Result<(), Status>
    ensures told { OnOk result (untold log.now trace.now ≡ None) }
    ensures fault { IfErr result (IsUntold log.now trace.now) }
{
    match untold(alloc, log, trace) {
        Ok(None) => Ok(()),
        Ok(Some(line)) => Err(Status::Log { line }),
        Err(_) => Err(Status::Memory),
    }
}

/// The octets of a view of these turns, made from the connection before its first step.
fn view_from<P: Progress>(
    alloc: Global,
    view: View,
    input: &Input,
    read: &ReadLog,
    world: &mut World,
    progress: &mut P,
) -> Result<Vec<u8>, Status>
    requires opened { world.old ≡ standing (first_world input.now) }
    ensures shown { IfOk result
        (λ shown. IsViewOf view input.now (all_turns read.now.turns.items) shown.items) }
    ensures lawful { OnOk result
        (AreLawful octets (all_turns read.now.turns.items) (first_world input.now)) }
    ensures told { OnOk result (untold read.now.part.items
        (trace_of (all_turns read.now.turns.items) (first_world input.now)) ≡ None) }
    ensures fault { IfErr result
        (IsTurnsFault (all_turns read.now.turns.items) input.now read.now.part.items) }
{
    let gathered = match gather(alloc, world, &read.turns, progress) {
        Ok(gathered) => gathered,
        Err(fault) => return Err(stopped(fault, opening_count(&read.part))),
    };
    are_told(alloc, &read.part, &gathered.trace)?;
    match shown_by_tick(alloc, view, &input.script, world, gathered) {
        Ok(shown) => Ok(shown),
        Err(_) => Err(Status::Memory),
    }
}

/// The octets of a view of these turns, made over the inputs.
fn view_of<P: Progress>(
    alloc: Global,
    view: View,
    input: &Input,
    read: &ReadLog,
    progress: &mut P,
) -> Result<Vec<u8>, Status>
    requires ranges { HasRanges input.now.script }
    ensures shown { IfOk result
        (λ shown. IsViewOf view input.now (all_turns read.now.turns.items) shown.items) }
    ensures lawful { OnOk result
        (AreLawful octets (all_turns read.now.turns.items) (first_world input.now)) }
    ensures told { OnOk result (untold read.now.part.items
        (trace_of (all_turns read.now.turns.items) (first_world input.now)) ≡ None) }
    ensures fault { IfErr result
        (IsTurnsFault (all_turns read.now.turns.items) input.now read.now.part.items) }
{
    let Ok(mut world) = World::open(alloc, input) else {
        return Err(Status::Memory);
    };
    let shown = view_from(alloc, view, input, read, &mut world, progress);
    // What drops a world stands in its crate alone.
    world.close();
    shown
}

/// Makes the turns of the log again, or of its whole rounds, and writes the view of what they send.
pub fn show<O: Outside, P: Progress>(
    alloc: Global,
    outside: &mut O,
    progress: &mut P,
    asked: &Asked<'_>,
) -> Result<Extent, Status>
    requires { (as_line asked.now.line).work ≡ replay asked.now.log.now }
    ensures { IsViewAnswer (as_asked asked.now) (O.told outside.old) (O.told outside.new) result }
{
    let logged = load_logged(alloc, outside, &asked.line, asked.log)?;
    let Logged { input, log } = logged;
    let read = read_shown(alloc, &input.script, log)?;
    let shown = view_of(alloc, asked.view, &input, &read, progress)?;
    match write_out(outside, asked.line.read_by_b, &shown) {
        Ok(()) => Ok(read.extent),
        Err(status) => Err(status),
    }
}

/// Writes the view that the words ask for: a first word `capture`, `rates`, `summary`, `picture`, `text`, `json` or `page`, behind `capture` the
/// words `--at a` or `--at b`, or behind `text` the word `--absolute`, where they are wanted, and five names. No name is empty, and
/// OUT is none of the inputs. It tells how far the turns of the log are made. Of the ports only that of OUT, `ReadByB`, is touched.
/// The answer is how much of the log is shown: where it was cut off, as that of a run that was killed, its whole rounds.
///
/// # Errors
///
/// `Usage` exactly where the words break this form, and then nothing is called; else what a replay of the log is refused by, or `Log` of
/// the first line that tells another segment than the one that is sent, where OUT isn't touched; and what a write of OUT is refused by,
/// whose port is `ReadByB`: where OUT told what it held, it then holds that, or the first octets of the view.
pub fn view_words<O: Outside, P: Progress>(
    alloc: Global,
    words: &[String],
    outside: &mut O,
    progress: &mut P,
) -> Result<Extent, Status>
    ensures usage { (result ≡ Err Usage) ↔ (asked_in false (map string_bytes words.now) ≡ None) }
    ensures shown { IfOk result
        (λ extent. IfSome (asked_in false (map string_bytes words.now)) (λ asked.
        Shows asked (O.told outside.old) (O.told outside.new) extent)) }
    ensures fault { IfErr result
        (λ status. IfSome (asked_in false (map string_bytes words.now)) (λ asked.
        IsViewFault asked (O.told outside.old) (O.told outside.new) status)) }
    ensures untouched { IfErr result (λ status. IsBeforeOut status → IsUntouched
        (O.told outside.old) (O.told outside.new)) }
    ensures other_ports { (port : Port) → port ≢ Port.ReadByB →
        (O.told outside.new).holds port ≡ (O.told outside.old).holds port }
    ensures other_counts { (port : Port) → port ≢ Port.ReadByB →
        (O.told outside.new).port_faults port ≡ (O.told outside.old).port_faults port }
    ensures unloaded { result ≡ Err Usage → (O.told outside.new).load_faults ≡
        (O.told outside.old).load_faults }
    ensures uncalled { result ≡ Err Usage → (O.told outside.new).calls ≡
        (O.told outside.old).calls }
{
    match asked_by(false, words) {
        None => Err(Status::Usage),
        Some(asked) => show(alloc, outside, progress, &asked),
    }
}
