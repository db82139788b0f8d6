//! The rules on infinite mappings (RFC 8684, section 3.7), and what is learnt of one that holds.

ghost use Rattle.std.specs.Ordering.{int_eq};
ghost use Rattle.std.specs.Prelude.{◌≡◌, ℤ, pos, neg_ℤ, ◌-ℤ◌, ◌^◌, ◌<◌, ◌<ℤ◌, ◌≤ℤ◌, IfSome, OnOk};
ghost use Rattle.seen_streams.specs.Mapped.{agrees, infinite_after, infinite_at, infinite_by, line_fault, lowest_line, with_line};
ghost use Rattle.seen_streams.specs.Shows.{lane_of, mapped_of, stream_of, IsLineBounded};
ghost use Rattle.judge_rules.specs.Numbers.{place_near};

use crate::lane::Lane;
use crate::mapping::{find_no_place, start};
use crate::stream::Stream;
use crate::told::{Infinite, Learnt, Teller};
use judge_rules::{Finding, Line, Offer, Rule, place_near};
use std::alloc::AllocError;

/// Learns an infinite mapping, if it keeps the rules. It is the mapping of an option whose relative number means this position.
pub(crate) fn learn_infinite(
    stream: &mut Stream<'_>,
    lane: &mut Lane,
    learnt: &mut Learnt,
    teller: &Teller,
    offer: &Offer,
    position: i64,
) -> Result<(), AllocError>
    requires low { neg_ℤ (pos (2 ^ 62)) ≤ℤ position }
    requires high { position <ℤ pos (2 ^ 62) }
    ensures { OnOk result (mapped_of stream.new lane.new learnt.new
        ≡ infinite_at (place_near teller.now.first (stream_of stream.old).top offer.now.number) teller.now offer.now position
        (mapped_of stream.old lane.old learnt.old)) }
{
    match place_of(teller.first, stream.top(), offer) {
        Some(place) => learn_line(stream, lane, learnt, teller, position, place),
        None => find_no_place(stream, teller, offer),
    }
}

// Learns an infinite mapping whose first octet has a place.
fn learn_line(
    stream: &mut Stream<'_>,
    lane: &mut Lane,
    learnt: &mut Learnt,
    teller: &Teller,
    position: i64,
    place: u64,
) -> Result<(), AllocError>
    requires low { neg_ℤ (pos (2 ^ 62)) ≤ℤ position }
    requires high { position <ℤ pos (2 ^ 62) }
    requires place { place < 2 ^ 62 }
    ensures { OnOk result (mapped_of stream.new lane.new learnt.new
        ≡ infinite_by (line_fault (stream_of stream.old).infinite teller.now.flow (lane_of lane.old).line position place) teller.now position place
        (mapped_of stream.old lane.old learnt.old)) }
{
    let known = lane.line();
    match line_fault(stream.infinite(), teller.flow, known, position, place) {
        Some(finding) => stream.find(Rule::Infinite, teller.packet, finding),
        None => {
            let line = lowest_line(known, position, place);
            keep_line(stream, lane, learnt, teller, place, line)
        }
    }
}

// What an infinite mapping breaks, after another one.
fn line_fault(
    infinite: Option<Infinite>,
    flow: usize,
    line: Option<Line>,
    position: i64,
    place: u64,
) -> Option<Finding>
    requires line { IfSome line IsLineBounded }
    requires low { neg_ℤ (pos (2 ^ 62)) ≤ℤ position }
    requires high { position <ℤ pos (2 ^ 62) }
    requires place { place < 2 ^ 62 }
    ensures { result ≡ line_fault infinite flow line position place }
{
    let infinite = infinite?;
    if agrees(&infinite, flow, line, position, place) {
        return None;
    }
    Some(Finding::AfterInfinite {
        position,
        place,
        packet: infinite.packet,
    })
}

// The place of an infinite mapping.
#[tactic(auto, using(crate::proofs::Lines::near_few))]
fn place_of(first: u64, top: u64, offer: &Offer) -> Option<u64>
    requires { top < 2 ^ 62 }
    ensures value { result ≡ place_near first top offer.now.number }
    ensures few { IfSome result (λ place. place < 2 ^ 62) }
{
    place_near(first, top, &offer.number)
}

// Whether place less position is that of the line, on the same subflow.
fn agrees(infinite: &Infinite, flow: usize, line: Option<Line>, position: i64, place: u64) -> bool
    requires line { IfSome line IsLineBounded }
    requires low { neg_ℤ (pos (2 ^ 62)) ≤ℤ position }
    requires high { position <ℤ pos (2 ^ 62) }
    requires place { place < 2 ^ 62 }
    ensures { result ≡ agrees infinite.now flow line position place }
{
    match line {
        Some(line) => {
            infinite.flow == flow
                && are_same(shift(place, position), shift(line.place, line.position))
        }
        None => false,
    }
}

fn are_same(one: i64, other: i64) -> bool
    ensures { result ≡ int_eq one other }
{
    one == other
}

// Place less position.
fn shift(place: u64, position: i64) -> i64
    requires low { neg_ℤ (pos (2 ^ 62)) ≤ℤ position }
    requires high { position <ℤ pos (2 ^ 62) }
    requires place { place < 2 ^ 62 }
    ensures { result ≡ pos place -ℤ position }
{
    place as i64 - position
}

fn lowest_line(line: Option<Line>, position: i64, place: u64) -> Line
    requires line { IfSome line IsLineBounded }
    requires low { neg_ℤ (pos (2 ^ 62)) ≤ℤ position }
    requires high { position <ℤ pos (2 ^ 62) }
    requires place { place < 2 ^ 62 }
    ensures value { result ≡ lowest_line line position place }
    ensures bounded { IsLineBounded result }
{
    match line {
        Some(line) if line.position <= position => line,
        _ => Line { position, place },
    }
}

// Keeps a line, on which this place begins a mapping.
fn keep_line(
    stream: &mut Stream<'_>,
    lane: &mut Lane,
    learnt: &mut Learnt,
    teller: &Teller,
    place: u64,
    line: Line,
) -> Result<(), AllocError>
    requires place { place < 2 ^ 62 }
    requires bounded { IsLineBounded line }
    ensures { OnOk result (mapped_of stream.new lane.new learnt.new
        ≡ with_line teller.now place line (mapped_of stream.old lane.old learnt.old)) }
{
    start(stream, place)?;
    stream.keep_infinite(infinite_after(stream.infinite(), teller, line.place));
    lane.keep_line(line);
    learnt.has_line = true;
    Ok(())
}

fn infinite_after(infinite: Option<Infinite>, teller: &Teller, place: u64) -> Infinite
    ensures { result ≡ infinite_after infinite teller.now place }
{
    match infinite {
        Some(infinite) => Infinite { place, ..infinite },
        None => Infinite {
            flow: teller.flow,
            packet: teller.packet,
            place,
        },
    }
}
