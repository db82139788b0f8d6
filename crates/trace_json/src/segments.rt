//! The segments of a trace as objects.

ghost use Rattle.std.specs.Prelude.{◌≡◌, ◌++◌, Some, map, slice_get, IfOk, OnOk, string_bytes};
ghost use Rattle.serde_json.specs.View.{members_view, view};
ghost use Rattle.link_trace.specs.Meanings.{meaning_in};
ghost use Rattle.link_trace.specs.Points.{delay_on};
ghost use Rattle.trace_json.specs.Segments.{arrival_at, arrival_word, beside_of, carried_data, data_of, fate_data, flag_letters, flags_data, letter_if, options_of, place_told, segment_data, segments_data, text_data, ticks_data, ticks_over, with_end, with_fate, with_header, with_segment, with_sent, with_told};

use crate::fields::{Member, object, put, put_members, side_letter};
use crate::options::options_list;
use link_model::{Fate, SegmentFate};
use link_script::PathLine;
use link_trace::{Carried, Sent, arrival_tick};
use segment_wire::{Head, addresses_from, parse};
use serde_json::{Map, Value};
use std::alloc::{AllocError, Global};

/// What the segments of a trace are told by, beside themselves.
#[derive(Clone, Copy)]
pub struct Beside<'a> {
    /// The lines of the paths, path 0 first.
    pub paths: &'a [PathLine],
    /// The tick at which the run ended.
    pub end: u64,
    /// Whether checksums of data are used.
    pub checksums: bool,
    /// What each segment carries.
    pub carried: &'a [Carried],
    /// The words of each one.
    pub words: &'a [String],
}

/// For how many ticks a segment is on its way over the path of this number.
fn delay_on(path: u8, paths: &[PathLine]) -> Option<u32>
    ensures { result ≡ delay_on path paths.now }
{
    match paths.get(usize::from(path)) {
        None => None,
        Some(line) => Some(line.delay),
    }
}

/// Puts the tick of a copy, where it comes before the run ends.
fn put_arrival(list: &mut Vec<Value>, tick: u128, end: u64) -> Result<(), AllocError>
    ensures { OnOk result (map view list.new.items ≡
        map view list.old.items ++ arrival_at end tick) }
{
    if tick >= u128::from(end) {
        return Ok(());
    }
    put(list, Value::from(tick as u64))
}

/// Puts the ticks of the copies of a segment that arrive after so many ticks and those that it waited.
fn put_arrivals(list: &mut Vec<Value>, sent: &Sent, delay: u32, end: u64) -> Result<(), AllocError>
    ensures { OnOk result (map view list.new.items ≡
        map view list.old.items ++ ticks_over (Some delay) end sent.now) }
{
    let on_time = arrival_tick(sent.tick, delay, sent.fate.waited);
    match sent.fate.arrival {
        Fate::Lost | Fate::Full => Ok(()),
        Fate::OnTime => put_arrival(list, on_time, end),
        Fate::Late { ticks } => put_arrival(list, on_time + u128::from(ticks), end),
        Fate::Twice { ticks } => {
            put_arrival(list, on_time, end)?;
            put_arrival(list, on_time + u128::from(ticks), end)
        }
    }
}

/// The ticks at which a segment arrives, over paths of these lines.
fn ticks_list(
    alloc: Global,
    paths: &[PathLine],
    end: u64,
    sent: &Sent,
) -> Result<Vec<Value>, AllocError>
    ensures { IfOk result (λ list. map view list.items ≡ ticks_data paths.now end sent.now) }
{
    let mut list = Vec::new(alloc);
    if let Some(delay) = delay_on(sent.path, paths) {
        put_arrivals(&mut list, sent, delay, end)?;
    }
    Ok(list)
}

fn arrival_word(arrival: Fate) -> &'static str
    ensures { result.now ≡ arrival_word arrival }
{
    match arrival {
        Fate::OnTime => "on time",
        Fate::Lost => "lost",
        Fate::Full => "queue full",
        Fate::Late { .. } => "late",
        Fate::Twice { .. } => "repeated",
    }
}

fn put_fate(
    alloc: Global,
    object: &mut Map<String, Value>,
    fate: &SegmentFate,
    ticks: Vec<Value>,
) -> Result<(), AllocError>
    ensures { OnOk result (members_view object.new.entries ≡
        with_fate fate.now (map view ticks.items) (members_view object.old.entries)) }
{
    serde_json::put(object, alloc, "ticks", Value::Array(ticks))?;
    let members = [
        Member::Flag("altered", fate.altered),
        Member::Text("arrival", arrival_word(fate.arrival)),
        Member::Flag("stripped", fate.stripped),
    ];
    put_members(alloc, object, &members)
}

fn fate_value(alloc: Global, fate: &SegmentFate, ticks: Vec<Value>) -> Result<Value, AllocError>
    ensures { IfOk result
        (λ value. view value ≡ fate_data fate.now (map view ticks.items)) }
{
    let mut object = Map::new(alloc);
    put_fate(alloc, &mut object, fate, ticks)?;
    Ok(Value::Object(object))
}

/// The place of its first octet of payload, where it has one.
fn place_told(carried: &Carried) -> Option<u64>
    ensures { result ≡ place_told carried.now }
{
    if carried.len == 0 {
        return None;
    }
    carried.place.map(u64::from)
}

fn carried_value(alloc: Global, carried: &Carried) -> Result<Value, AllocError>
    ensures { IfOk result (λ value. view value ≡ carried_data carried.now) }
{
    let members = [
        Member::NumberOrNull("acknowledged", carried.acknowledged.map(u64::from)),
        Member::Number("length", u64::from(carried.len)),
        Member::NumberOrNull("place", place_told(carried)),
        Member::Number("position", u64::from(carried.position)),
    ];
    object(alloc, &members)
}

/// What the segment of a place of the trace carries.
fn data_value(alloc: Global, carried: &[Carried], place: usize) -> Result<Value, AllocError>
    ensures { IfOk result (λ value. view value ≡ data_of (slice_get carried.now place)) }
{
    match carried.get(place) {
        None => Ok(Value::Null),
        Some(carried) => carried_value(alloc, carried),
    }
}

/// The words of the segment of a place.
fn text_value(alloc: Global, words: &[String], place: usize) -> Result<Value, AllocError>
    ensures { IfOk result (λ value. view value ≡
        text_data (slice_get (map string_bytes words.now) place)) }
{
    match words.get(place) {
        None => Ok(Value::Null),
        Some(words) => Value::try_from_str(alloc, words.as_str()),
    }
}

/// A letter where the flag is set.
fn letter_if(flag: bool, letter: &'static str) -> &'static str
    ensures { result.now ≡ letter_if flag letter.now }
{
    if flag { letter } else { "" }
}

/// A letter for each flag that is set, and a point for ACK.
fn flag_letters(alloc: Global, head: &Head) -> Result<String, AllocError>
    ensures { IfOk result (λ text. string_bytes text ≡ flag_letters head.now) }
{
    let (fin, syn) = (letter_if(head.fin, "F"), letter_if(head.syn, "S"));
    let (rst, ack) = (letter_if(head.rst, "R"), letter_if(head.ack_set, "."));
    format!(in alloc; "{fin}{syn}{rst}{ack}")
}

fn flags_value(alloc: Global, sent: &Sent) -> Result<Value, AllocError>
    ensures { IfOk result (λ value. view value ≡ flags_data (meaning_in sent.now)) }
{
    let addresses = addresses_from(sent.path, sent.from);
    match parse(sent.octets.as_bytes(), &addresses) {
        Ok(segment) => Ok(Value::String(flag_letters(alloc, &segment.head)?)),
        Err(_) => Ok(Value::Null),
    }
}

fn options_of(alloc: Global, sent: &Sent, checksums: bool) -> Result<Vec<Value>, AllocError>
    ensures { IfOk result
        (λ list. map view list.items ≡ options_of checksums (meaning_in sent.now)) }
{
    let addresses = addresses_from(sent.path, sent.from);
    match parse(sent.octets.as_bytes(), &addresses) {
        Ok(segment) => options_list(alloc, &segment, checksums),
        Err(_) => Ok(Vec::new(alloc)),
    }
}

/// Puts which segment it is.
fn put_sent(alloc: Global, object: &mut Map<String, Value>, sent: &Sent) -> Result<(), AllocError>
    ensures { OnOk result (members_view object.new.entries ≡
        with_sent sent.now (members_view object.old.entries)) }
{
    let members = [
        Member::Text("from", side_letter(sent.from)),
        Member::Number("number", sent.number),
        Member::Number("path", u64::from(sent.path)),
        Member::Number("tick", sent.tick),
    ];
    put_members(alloc, object, &members)
}

/// Puts its flags and its options.
fn put_header(
    alloc: Global,
    object: &mut Map<String, Value>,
    sent: &Sent,
    checksums: bool,
) -> Result<(), AllocError>
    ensures { OnOk result (members_view object.new.entries ≡
        with_header checksums sent.now (members_view object.old.entries)) }
{
    let flags = flags_value(alloc, sent)?;
    serde_json::put(object, alloc, "flags", flags)?;
    let options = options_of(alloc, sent, checksums)?;
    serde_json::put(object, alloc, "options", Value::Array(options))
}

/// Puts what becomes of it.
fn put_end(
    alloc: Global,
    object: &mut Map<String, Value>,
    beside: &Beside<'_>,
    sent: &Sent,
) -> Result<(), AllocError>
    ensures { OnOk result (members_view object.new.entries ≡
        with_end (beside_of beside.now) sent.now (members_view object.old.entries)) }
{
    let ticks = ticks_list(alloc, beside.paths, beside.end, sent)?;
    let fate = fate_value(alloc, &sent.fate, ticks)?;
    serde_json::put(object, alloc, "fate", fate)
}

/// Puts what it carries, and its words.
fn put_told(
    alloc: Global,
    object: &mut Map<String, Value>,
    beside: &Beside<'_>,
    place: usize,
) -> Result<(), AllocError>
    ensures { OnOk result (members_view object.new.entries ≡
        with_told (beside_of beside.now) place (members_view object.old.entries)) }
{
    let data = data_value(alloc, beside.carried, place)?;
    serde_json::put(object, alloc, "data", data)?;
    let text = text_value(alloc, beside.words, place)?;
    serde_json::put(object, alloc, "text", text)
}

/// Puts all that is told of the segment of this place.
fn put_segment(
    alloc: Global,
    object: &mut Map<String, Value>,
    beside: &Beside<'_>,
    place: usize,
    sent: &Sent,
) -> Result<(), AllocError>
    ensures { OnOk result (members_view object.new.entries ≡
        with_segment (beside_of beside.now) place sent.now (members_view object.old.entries)) }
{
    put_sent(alloc, object, sent)?;
    put_header(alloc, object, sent, beside.checksums)?;
    put_end(alloc, object, beside, sent)?;
    put_told(alloc, object, beside, place)
}

/// The segment of this place of the trace.
fn segment_value(
    alloc: Global,
    beside: &Beside<'_>,
    place: usize,
    sent: &Sent,
) -> Result<Value, AllocError>
    ensures { IfOk result (λ value. view value ≡
        segment_data (beside_of beside.now) place sent.now) }
{
    let mut object = Map::new(alloc);
    put_segment(alloc, &mut object, beside, place, sent)?;
    Ok(Value::Object(object))
}

/// Each segment of a trace, in the order of the trace.
pub fn segments_list(
    alloc: Global,
    beside: &Beside<'_>,
    trace: &[Sent],
) -> Result<Vec<Value>, AllocError>
    ensures { IfOk result (λ list. map view list.items ≡
        segments_data (beside_of beside.now) trace.now) }
{
    let mut list = Vec::new(alloc);
    for (place, sent) in trace.iter().enumerate() {
        let value = segment_value(alloc, beside, place, sent)?;
        put(&mut list, value)?;
    }
    Ok(list)
}
