//! What happens on the paths of a script, as objects.

ghost use Rattle.std.specs.Prelude.{◌≡◌, map, IfOk};
ghost use Rattle.serde_json.specs.View.{view};
ghost use Rattle.trace_json.specs.Events.{add_data, death_data, event_data, events_data, fast_close_data, happens_ticks, happens_word, impairment_data, jitter_data, loss_data, prio_data, rate_data, remove_data, segment_event_data, strip_all_data};

use crate::fields::{Member, object, put, side_letter};
use link_script::{Direction, Happens, Impairment, ScriptLine, Segment};
use serde_json::Value;
use sides::Side;
use std::alloc::{AllocError, Global};

fn happens_word(happens: Happens) -> &'static str
    ensures { result.now ≡ happens_word happens }
{
    match happens {
        Happens::Lost => "drop",
        Happens::Late(_) => "late",
        Happens::Again(_) => "dup",
        Happens::Stripped => "strip",
        Happens::Altered => "alter",
    }
}

/// How many ticks late it comes, or comes again.
fn happens_ticks(happens: Happens) -> Option<u64>
    ensures { result ≡ happens_ticks happens }
{
    match happens {
        Happens::Late(ticks) | Happens::Again(ticks) => Some(u64::from(ticks)),
        Happens::Lost | Happens::Stripped | Happens::Altered => None,
    }
}

fn segment_event(alloc: Global, segment: Segment, happens: Happens) -> Result<Value, AllocError>
    ensures { IfOk result (λ value. view value ≡ segment_event_data segment happens) }
{
    let (number, path) = (u64::from(segment.number), u64::from(segment.path));
    let members = [
        Member::Text("event", happens_word(happens)),
        Member::Text("from", side_letter(segment.from)),
        Member::Number("number", number),
        Member::Number("path", path),
        Member::NumberOrNull("ticks", happens_ticks(happens)),
    ];
    object(alloc, &members)
}

/// Octets a tick, and the most that wait.
fn rate(alloc: Global, direction: Direction, octets: u32, queue: u32) -> Result<Value, AllocError>
    ensures { IfOk result (λ value. view value ≡ rate_data direction octets queue) }
{
    let members = [
        Member::Text("event", "rate"),
        Member::Text("from", side_letter(direction.from)),
        Member::Number("octets", u64::from(octets)),
        Member::Number("path", u64::from(direction.path)),
        Member::Number("queue", u64::from(queue)),
    ];
    object(alloc, &members)
}

fn loss(alloc: Global, direction: Direction, parts: u32) -> Result<Value, AllocError>
    ensures { IfOk result (λ value. view value ≡ loss_data direction parts) }
{
    let members = [
        Member::Text("event", "loss"),
        Member::Text("from", side_letter(direction.from)),
        Member::Number("parts", u64::from(parts)),
        Member::Number("path", u64::from(direction.path)),
    ];
    object(alloc, &members)
}

fn jitter(alloc: Global, direction: Direction, ticks: u32) -> Result<Value, AllocError>
    ensures { IfOk result (λ value. view value ≡ jitter_data direction ticks) }
{
    let members = [
        Member::Text("event", "jitter"),
        Member::Text("from", side_letter(direction.from)),
        Member::Number("path", u64::from(direction.path)),
        Member::Number("ticks", u64::from(ticks)),
    ];
    object(alloc, &members)
}

/// What a line gives a direction.
fn impairment_event(
    alloc: Global,
    direction: Direction,
    impairment: Impairment,
) -> Result<Value, AllocError>
    ensures { IfOk result (λ value. view value ≡ impairment_data direction impairment) }
{
    match impairment {
        Impairment::Rate { octets, queue } => rate(alloc, direction, octets, queue),
        Impairment::Loss(parts) => loss(alloc, direction, parts),
        Impairment::Jitter(ticks) => jitter(alloc, direction, ticks),
    }
}

fn strip_all(alloc: Global, path: u8, from: Side, tick: u64) -> Result<Value, AllocError>
    ensures { IfOk result (λ value. view value ≡ strip_all_data path from tick) }
{
    let members = [
        Member::Text("event", "strip-all"),
        Member::Text("from", side_letter(from)),
        Member::Number("path", u64::from(path)),
        Member::Number("tick", tick),
    ];
    object(alloc, &members)
}

fn death(alloc: Global, path: u8, tick: u64) -> Result<Value, AllocError>
    ensures { IfOk result (λ value. view value ≡ death_data path tick) }
{
    let members = [
        Member::Text("event", "die"),
        Member::Number("path", u64::from(path)),
        Member::Number("tick", tick),
    ];
    object(alloc, &members)
}

fn prio(alloc: Global, path: u8, side: Side, tick: u64, on: bool) -> Result<Value, AllocError>
    ensures { IfOk result (λ value. view value ≡ prio_data path side tick on) }
{
    let members = [
        Member::Text("event", "prio"),
        Member::Flag("on", on),
        Member::Number("path", u64::from(path)),
        Member::Text("side", side_letter(side)),
        Member::Number("tick", tick),
    ];
    object(alloc, &members)
}

fn add(alloc: Global, id: u8, tick: u64) -> Result<Value, AllocError>
    ensures { IfOk result (λ value. view value ≡ add_data id tick) }
{
    let members = [
        Member::Text("event", "add"),
        Member::Number("id", u64::from(id)),
        Member::Text("side", "b"),
        Member::Number("tick", tick),
    ];
    object(alloc, &members)
}

fn remove(alloc: Global, side: Side, id: u8, tick: u64) -> Result<Value, AllocError>
    ensures { IfOk result (λ value. view value ≡ remove_data side id tick) }
{
    let members = [
        Member::Text("event", "remove"),
        Member::Number("id", u64::from(id)),
        Member::Text("side", side_letter(side)),
        Member::Number("tick", tick),
    ];
    object(alloc, &members)
}

fn fast_close(alloc: Global, side: Side, tick: u64) -> Result<Value, AllocError>
    ensures { IfOk result (λ value. view value ≡ fast_close_data side tick) }
{
    let members = [
        Member::Text("event", "fastclose"),
        Member::Text("side", side_letter(side)),
        Member::Number("tick", tick),
    ];
    object(alloc, &members)
}

/// A line of a script, by its first word.
fn event_value(alloc: Global, line: &ScriptLine) -> Result<Value, AllocError>
    ensures { IfOk result (λ value. view value ≡ event_data line.now) }
{
    match *line {
        ScriptLine::OnSegment(segment, happens) => segment_event(alloc, segment, happens),
        ScriptLine::OnDirection(direction, impairment) => {
            impairment_event(alloc, direction, impairment)
        }
        ScriptLine::StripAll { path, from, tick } => strip_all(alloc, path, from, tick),
        ScriptLine::Die { path, tick } => death(alloc, path, tick),
        ScriptLine::Prio {
            path,
            side,
            tick,
            on,
        } => prio(alloc, path, side, tick, on),
        ScriptLine::Add { id, tick } => add(alloc, id, tick),
        ScriptLine::Remove { side, id, tick } => remove(alloc, side, id, tick),
        ScriptLine::FastClose { side, tick } => fast_close(alloc, side, tick),
    }
}

/// Each line, in its order.
pub fn events_list(alloc: Global, lines: &[ScriptLine]) -> Result<Vec<Value>, AllocError>
    ensures { IfOk result (λ list. map view list.items ≡ events_data lines.now) }
{
    let mut list = Vec::new(alloc);
    for line in lines {
        let value = event_value(alloc, line)?;
        put(&mut list, value)?;
    }
    Ok(list)
}
