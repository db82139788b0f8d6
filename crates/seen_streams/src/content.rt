//! The octets of a stream: of each place the one that was held first.

ghost use Rattle.std.specs.Prelude.{◌≡◌, ◌+◌, ◌-◌, ◌^◌, ◌<◌, ◌≤◌, Some, IfOk, OnOk, length, take, drop};
ghost use Rattle.seen_streams.specs.Content.{content_fault, earlier, in_payload, octet_of, payload_of, shown, shown_all, shown_from, with_payload};
ghost use Rattle.seen_streams.specs.Held.{IsHeldPart};
ghost use Rattle.seen_streams.specs.Shows.{lane_of, mapped_of, stream_of};
ghost use Rattle.seen_streams.specs.State.{place_of, tell_found};
ghost use Rattle.judge_rules.specs.declared.finding.Rule.TheVariants as rule;

use crate::lane::Lane;
use crate::places::{mapped_from, places_from, seen_from};
use crate::stream::Stream;
use crate::told::Learnt;
use crate::waits::fill;
use judge_rules::{Finding, Rule};
use std::alloc::AllocError;

/// The payload of a segment: its positions from one behind the SYN on, up to `to`, which is none of them, and its octets that are held.
#[derive(Clone, Copy)]
pub struct Payload<'a> {
    pub from: u64,
    pub to: u64,
    pub held: &'a [u8],
}

/// By whom octets are told: the packet, and the place below which the other side acknowledged all.
#[derive(Clone, Copy)]
pub struct Shower {
    pub packet: u32,
    pub acknowledged: u64,
}

/// Takes the payload of a segment, and what had come before the mappings that it told.
///
/// # Errors
///
/// Want of memory.
pub fn take_payload(
    stream: &mut Stream<'_>,
    lane: &mut Lane,
    learnt: &Learnt,
    shower: &Shower,
    payload: &Payload<'_>,
) -> Result<(), AllocError>
    requires begun { 1 ≤ payload.now.from }
    requires order { payload.now.from + length payload.now.held.now ≤ payload.now.to }
    requires few { payload.now.to ≤ 2 ^ 61 }
    ensures lane { OnOk result
        (lane_of lane.new ≡ with_payload (payload_of payload.now) shower.now.packet
        (lane_of lane.old)) }
    ensures stream { OnOk result (stream_of stream.new
        ≡ shown_all (payload_of payload.now) shower.now.acknowledged shower.now.packet (mapped_of stream.old lane.old learnt.now) (lane_of lane.new)) }
{
    keep(lane, shower.packet, payload)?;
    show_earlier(stream, lane, learnt, shower, 1, payload.from)?;
    show_payload(stream, lane, shower, payload)?;
    let top = lane.top();
    show_earlier(stream, lane, learnt, shower, payload.to, top)
}

// Keeps a payload by positions.
#[tactic(auto, using(crate::proofs::Telling::same_payload))]
fn keep(lane: &mut Lane, packet: u32, payload: &Payload<'_>) -> Result<(), AllocError>
    requires held { payload.now.from + length payload.now.held.now < 2 ^ 64 }
    requires few { payload.now.to ≤ 2 ^ 61 }
    ensures { OnOk result (lane_of lane.new ≡ with_payload (payload_of payload.now) packet
        (lane_of lane.old)) }
{
    fill(
        &mut lane.octets,
        &mut lane.waits,
        payload.from,
        payload.held,
        packet,
    )?;
    lane.seen.add(payload.from, payload.to)?;
    lane.top = lane.top.max(payload.to);
    Ok(())
}

// Shows what was seen before of positions from one on, below another, that are mapped now.
fn show_earlier(
    stream: &mut Stream<'_>,
    lane: &Lane,
    learnt: &Learnt,
    shower: &Shower,
    from: u64,
    to: u64,
) -> Result<(), AllocError>
    requires few { to ≤ 2 ^ 61 }
    ensures { OnOk result (stream_of stream.new ≡ shown_from (place_of (lane_of lane.now))
        (earlier learnt.now.mappings.items learnt.now.has_line (lane_of lane.now))
        shower.now.acknowledged shower.now.packet from (to - from) (stream_of stream.old)) }
{
    let mut position = from;
    while position < to {
        position = show_next(stream, lane, learnt, shower, position, to)?;
    }
    Ok(())
}

// Shows the octets of positions from one on, as far as all are mapped, seen and placed alike. Answers the position behind them.
fn show_next(
    stream: &mut Stream<'_>,
    lane: &Lane,
    learnt: &Learnt,
    shower: &Shower,
    from: u64,
    to: u64,
) -> Result<u64, AllocError>
    requires some { from < to }
    requires few { to ≤ 2 ^ 61 }
    ensures further { IfOk result (λ end. from < end) }
    ensures within { IfOk result (λ end. end ≤ to) }
    ensures shown { IfOk result
        (λ end. stream_of stream.new ≡ shown_from (place_of (lane_of lane.now))
        (earlier learnt.now.mappings.items learnt.now.has_line (lane_of lane.now))
        shower.now.acknowledged shower.now.packet from (end - from) (stream_of stream.old)) }
{
    let mapped = mapped_from(learnt, lane, from, to);
    if !mapped.marked {
        return Ok(mapped.end);
    }
    let seen = seen_from(lane, from, mapped.end);
    if !seen.marked {
        return Ok(seen.end);
    }
    show_seen(stream, lane, shower, from, seen.end)
}

// Shows the octets of positions that were seen and are mapped, as far as their places follow one another.
fn show_seen(
    stream: &mut Stream<'_>,
    lane: &Lane,
    shower: &Shower,
    from: u64,
    to: u64,
) -> Result<u64, AllocError>
    requires some { from < to }
    requires few { to ≤ 2 ^ 61 }
    ensures further { IfOk result (λ end. from < end) }
    ensures within { IfOk result (λ end. end ≤ to) }
    ensures shown { IfOk result
        (λ end. stream_of stream.new ≡ shown_from (place_of (lane_of lane.now))
        (λ p. Some (octet_of (lane_of lane.now) p))
        shower.now.acknowledged shower.now.packet from (end - from) (stream_of stream.old)) }
{
    let placed = places_from(lane, from, to);
    let Some(place) = placed.place else {
        return Ok(placed.end);
    };
    let part = held_from(lane, from, placed.end);
    show(stream, shower, place, part.end - from, part.octets)?;
    Ok(part.end)
}

// The octets of positions from one on, and where these positions end: all are held, or none is and there are no octets.
#[derive(Clone, Copy)]
struct HeldPart<'a> {
    end: u64,
    octets: &'a [u8],
}

#[tactic(auto, using(crate::proofs::Walks::held_gap, crate::proofs::Walks::held_piece))]
fn held_from(lane: &Lane, from: u64, to: u64) -> HeldPart<'_>
    requires { from < to }
    ensures { IsHeldPart (octet_of (lane_of lane.now)) from to result.end result.octets.now }
{
    let octets = lane.octets.piece(from, to);
    if octets.is_empty() {
        let end = lane.octets.gap_end(from, to);
        return HeldPart { end, octets };
    }
    HeldPart {
        end: from + octets.len() as u64,
        octets,
    }
}

// Shows the octets of a payload: those that are held, and then those that were cut off.
fn show_payload(
    stream: &mut Stream<'_>,
    lane: &Lane,
    shower: &Shower,
    payload: &Payload<'_>,
) -> Result<(), AllocError>
    requires order { payload.now.from + length payload.now.held.now ≤ payload.now.to }
    requires few { payload.now.to ≤ 2 ^ 61 }
    ensures { OnOk result (stream_of stream.new ≡ shown_from (place_of (lane_of lane.now))
        (in_payload (payload_of payload.now))
        shower.now.acknowledged shower.now.packet payload.now.from (payload.now.to - payload.now.from) (stream_of stream.old)) }
{
    let mut position = payload.from;
    while position < payload.to {
        position = show_part(stream, lane, shower, payload, position)?;
    }
    Ok(())
}

// Shows the octets of a payload from a position on, as far as places follow one another. Answers the position behind them.
fn show_part(
    stream: &mut Stream<'_>,
    lane: &Lane,
    shower: &Shower,
    payload: &Payload<'_>,
    from: u64,
) -> Result<u64, AllocError>
    requires begun { payload.now.from ≤ from }
    requires some { from < payload.now.to }
    requires order { payload.now.from + length payload.now.held.now ≤ payload.now.to }
    requires few { payload.now.to ≤ 2 ^ 61 }
    ensures further { IfOk result (λ end. from < end) }
    ensures within { IfOk result (λ end. end ≤ payload.now.to) }
    ensures shown { IfOk result
        (λ end. stream_of stream.new ≡ shown_from (place_of (lane_of lane.now))
        (in_payload (payload_of payload.now))
        shower.now.acknowledged shower.now.packet from (end - from) (stream_of stream.old)) }
{
    let placed = places_from(lane, from, payload.to);
    let Some(place) = placed.place else {
        return Ok(placed.end);
    };
    let part = held_between(payload, from, placed.end);
    show(stream, shower, place, placed.end - from, part)?;
    Ok(placed.end)
}

// The octets that are held of positions of a payload.
fn held_between<'a>(payload: &Payload<'a>, from: u64, to: u64) -> &'a [u8]
    requires begun { payload.now.from ≤ from }
    requires some { from ≤ to }
    ensures { result.now ≡ take (to - from) (drop (from - payload.now.from) payload.now.held.now) }
{
    let len = payload.held.len();
    let begin = len.min((from - payload.from) as usize);
    let end = len.min((to - payload.from) as usize);
    &payload.held[begin..end]
}

// Brings these octets to the first of so many places, which are seen: of each place the first octet stays, and another one breaks the
// rule unless the place was acknowledged.
fn show(
    stream: &mut Stream<'_>,
    shower: &Shower,
    place: u64,
    count: u64,
    part: &[u8],
) -> Result<(), AllocError>
    requires part { length part.now ≤ count }
    requires few { place + count < 2 ^ 64 }
    ensures { OnOk result (stream_of stream.new ≡ shown shower.now.acknowledged shower.now.packet
        place count part.now (stream_of stream.old)) }
{
    find_other(stream, shower, place, part)?;
    stream.octets.fill(place, part, shower.packet)?;
    stream.seen.add(place, place + count)
}

// Tells of places from one on the first that has another octet.
fn find_other(
    stream: &mut Stream<'_>,
    shower: &Shower,
    place: u64,
    part: &[u8],
) -> Result<(), AllocError>
    requires { place + length part.now < 2 ^ 64 }
    ensures { OnOk result (stream_of stream.new ≡ tell_found rule.PlaceContent shower.now.packet
        (content_fault shower.now.acknowledged (stream_of stream.old).octet place part.now) (stream_of stream.old)) }
{
    match content_fault(stream, shower.acknowledged, place, part) {
        Some(finding) => stream.find(Rule::PlaceContent, shower.packet, finding),
        None => Ok(()),
    }
}

fn content_fault(stream: &Stream<'_>, acknowledged: u64, place: u64, part: &[u8]) -> Option<Finding>
    requires { place + length part.now < 2 ^ 64 }
    ensures { result ≡ content_fault acknowledged (stream_of stream.now).octet place part.now }
{
    let done = part.len().min(acknowledged.saturating_sub(place) as usize);
    let other = stream
        .octets
        .first_other(place.max(acknowledged), &part[done..])?;
    Some(Finding::OtherOctet {
        place: other.place,
        was: other.was,
        packet: other.teller,
        is: other.is,
    })
}
