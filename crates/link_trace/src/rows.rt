//! The table by path and direction: counts and sums over what the segments carry.

ghost use Rattle.std.specs.Prelude.{◌≡◌, ◌-◌, ◌++◌, ◌∷◌, [], filter, length, IfOk, OnOk};
ghost use Rattle.sides.specs.declared.side.Side.TheVariants.{A, B};
ghost use Rattle.link_trace.specs.Rows.{again_by, below, capped, count_in, edge_behind, end_of, fresh_by, full_of, goodput, if_from, is_from, is_on, last_tick, lost_of, most_queued, moved_by, octets_of, row_of, rows_of, shares_of, tick_at, total_from};

use crate::carried::Carried;
use crate::places::{carry, repeated};
use range_marks::RangeMarks;
use sides::Side;
use std::alloc::{AllocError, Global};

/// What an end measures, and how much it may have under way.
#[derive(Clone, Copy)]
pub struct Rate {
    /// cwnd, the congestion window, in octets (RFC 5681, section 3.1).
    pub window: u32,
    /// ssthresh, the slow start threshold, in octets.
    pub threshold: u32,
    /// SRTT, the smoothed round-trip time, in ticks; None before the first measurement (RFC 6298, section 2).
    pub rtt: Option<u32>,
    /// RTO, the retransmission timeout, in ticks.
    pub timeout: u32,
    /// Octets that wait before the direction from its side, as the round ends.
    pub waiting: u32,
}

/// Those of both ends of a path.
#[derive(Clone, Copy)]
pub struct Rates {
    pub a: Rate,
    pub b: Rate,
}

/// The sums of one direction of a path. Sums of octets stand still at 2^64 - 1.
#[derive(Clone, Copy)]
pub struct Row {
    /// The number of the path.
    pub path: usize,
    /// The side that sends.
    pub from: Side,
    /// The tick of the first segment.
    pub first: Option<u64>,
    /// The tick of the last one.
    pub last: Option<u64>,
    pub segments: usize,
    /// Octets of payload, each as often as it was sent.
    pub octets: u64,
    /// Those of them at places that the direction had carried before, at positions that were sent before on this path.
    pub again: u64,
    /// Those at places that the direction had carried before, at new positions.
    pub moved: u64,
    /// Those at places that no segment of the direction had carried before.
    pub fresh: u64,
    /// Segments that a line of the script lets go lost, or that find a full queue.
    pub lost: usize,
    /// Those of them that find a full queue.
    pub full: usize,
    /// The most octets that waited before the direction as one was sent.
    pub queue: u64,
    /// Of the end of this side.
    pub rate: Rate,
}

/// What a row counts.
#[derive(Clone, Copy)]
pub(crate) enum Count {
    Segments,
    Octets,
    New,
    Again,
    Moved,
    Lost,
    Full,
}

/// Octets of one direction of a path, by whether they were sent before.
#[derive(Clone, Copy)]
pub(crate) struct Shares {
    pub again: u64,
    pub moved: u64,
    pub fresh: u64,
}

fn is_from(side: Side, carried: &Carried) -> bool
    ensures { result ≡ is_from side carried.now }
{
    carried.from == side
}

fn is_on(path: usize, side: Side, carried: &Carried) -> bool
    ensures { result ≡ is_on path side carried.now }
{
    usize::from(carried.path) == path && carried.from == side
}

/// What a side's segments carry.
pub fn side_of(alloc: Global, carried: &[Carried], side: Side) -> Result<Vec<Carried>, AllocError>
    ensures { IfOk result (λ row. row.items ≡ filter (is_from side) carried.now) }
{
    carried
        .iter()
        .copied()
        .filter(|carried| is_from(side, carried))
        .collect(alloc)
}

/// What those of a path carry.
fn path_of(
    alloc: Global,
    carried: &[Carried],
    path: usize,
    side: Side,
) -> Result<Vec<Carried>, AllocError>
    ensures { IfOk result (λ row. row.items ≡ filter (is_on path side) carried.now) }
{
    carried
        .iter()
        .copied()
        .filter(|carried| is_on(path, side, carried))
        .collect(alloc)
}

/// The octets of the payloads.
#[tactic(auto, using(crate::proofs::Sums::capped_more))]
fn octets_of(row: &[Carried]) -> u64
    ensures { result ≡ capped (octets_of row.now) }
{
    let mut octets = 0_u64;
    for segment in row {
        octets = octets.saturating_add(u64::from(segment.len));
    }
    octets
}

/// How many of so many octets from a number on lie below an edge.
pub fn below(from: u32, len: u32, edge: u64) -> u64
    ensures { result ≡ below from len edge }
{
    edge.saturating_sub(u64::from(from)).min(u64::from(len))
}

/// The position behind a segment's payload.
fn end_of(carried: &Carried) -> u64
    ensures { result ≡ end_of carried.now }
{
    u64::from(carried.position) + u64::from(carried.len)
}

/// Octets of a segment of this path that are sent again, where so many stand at places that were carried before.
fn again_by(path: usize, edge: u64, repeated: u64, carried: &Carried) -> u64
    ensures { result ≡ again_by path edge repeated carried.now }
{
    if usize::from(carried.path) != path {
        return 0;
    }
    below(carried.position, carried.len, edge).min(repeated)
}

/// Those that moved.
fn moved_by(path: usize, edge: u64, repeated: u64, carried: &Carried) -> u64
    ensures { result ≡ moved_by path edge repeated carried.now }
{
    if usize::from(carried.path) != path {
        return 0;
    }
    repeated.saturating_sub(below(carried.position, carried.len, edge))
}

/// Those at places that weren't carried before.
fn fresh_by(path: usize, repeated: u64, carried: &Carried) -> u64
    ensures { result ≡ fresh_by path repeated carried.now }
{
    if usize::from(carried.path) != path {
        return 0;
    }
    u64::from(carried.len).saturating_sub(repeated)
}

pub fn edge_behind(path: usize, edge: u64, carried: &Carried) -> u64
    ensures { result ≡ edge_behind path edge carried.now }
{
    if usize::from(carried.path) == path {
        edge.max(end_of(carried))
    } else {
        edge
    }
}

/// The octets of a path, by whether they were sent before.
#[tactic(auto, using(crate::proofs::Sums::capped_more))]
fn shares_of(alloc: Global, path: usize, direction: &[Carried]) -> Result<Shares, AllocError>
    ensures { IfOk result (λ shares. shares ≡ shares_of path direction.now) }
{
    let mut places: RangeMarks<bool> = RangeMarks::new(alloc);
    let (mut again, mut moved, mut fresh, mut edge) = (0_u64, 0_u64, 0_u64, 0_u64);
    for segment in direction {
        let repeated = repeated(&places, segment.place, segment.len);
        again = again.saturating_add(again_by(path, edge, repeated, segment));
        moved = moved.saturating_add(moved_by(path, edge, repeated, segment));
        fresh = fresh.saturating_add(fresh_by(path, repeated, segment));
        edge = edge_behind(path, edge, segment);
        carry(&mut places, segment.place, segment.len)?;
    }
    Ok(Shares {
        again,
        moved,
        fresh,
    })
}

/// Segments that are lost.
fn lost_of(row: &[Carried]) -> usize
    ensures { result ≡ lost_of row.now }
{
    row.iter().filter(|carried| carried.lost).count()
}

/// Segments that find a full queue.
fn full_of(row: &[Carried]) -> usize
    ensures { result ≡ full_of row.now }
{
    row.iter().filter(|carried| carried.full).count()
}

/// The most octets that waited as one was sent.
fn most_queued(row: &[Carried]) -> u64
    ensures { result ≡ most_queued row.now }
{
    let mut most = 0;
    for segment in row {
        most = most.max(u64::from(segment.queued));
    }
    most
}

pub fn first_tick(row: &[Carried]) -> Option<u64>
    ensures { result ≡ tick_at 0 row.now }
{
    match row.first() {
        None => None,
        Some(carried) => Some(carried.tick),
    }
}

pub fn final_tick(row: &[Carried]) -> Option<u64>
    ensures { result ≡ tick_at (length row.now - 1) row.now }
{
    match row.last() {
        None => None,
        Some(carried) => Some(carried.tick),
    }
}

/// The row of a path and a direction.
fn row_of(
    alloc: Global,
    path: usize,
    side: Side,
    rate: Rate,
    carried: &[Carried],
) -> Result<Row, AllocError>
    ensures { IfOk result (λ row. row ≡ row_of path side rate carried.now) }
{
    let row = path_of(alloc, carried, path, side)?;
    let direction = side_of(alloc, carried, side)?;
    let shares = shares_of(alloc, path, &direction)?;
    Ok(Row {
        path,
        from: side,
        first: first_tick(&row),
        last: final_tick(&row),
        segments: row.as_slice().len(),
        octets: octets_of(&row),
        again: shares.again,
        moved: shares.moved,
        fresh: shares.fresh,
        lost: lost_of(&row),
        full: full_of(&row),
        queue: most_queued(&row),
        rate,
    })
}

/// Puts the rows of both directions of a path.
fn put_rows(
    alloc: Global,
    rows: &mut Vec<Row>,
    path: usize,
    rates: Rates,
    carried: &[Carried],
) -> Result<(), AllocError>
    ensures { OnOk result (rows.new.items ≡
        rows.old.items ++
        (row_of path A rates.a carried.now ∷ row_of path B rates.b carried.now ∷ [])) }
{
    let from_a = row_of(alloc, path, Side::A, rates.a, carried)?;
    let from_b = row_of(alloc, path, Side::B, rates.b, carried)?;
    rows.push(from_a)?;
    rows.push(from_b)?;
    Ok(())
}

/// The rows of both directions of each path, whose ends measure this.
pub fn rows_of(alloc: Global, rates: &[Rates], carried: &[Carried]) -> Result<Vec<Row>, AllocError>
    ensures { IfOk result (λ rows. rows.items ≡ rows_of rates.now carried.now) }
{
    let mut rows = Vec::new(alloc);
    for (path, rates) in rates.iter().enumerate() {
        put_rows(alloc, &mut rows, path, *rates, carried)?;
    }
    Ok(rows)
}

/// The octets where the row is of this direction, and none otherwise.
fn if_from(side: Side, row: &Row, octets: u64) -> u64
    ensures { result ≡ if_from side row.now octets }
{
    if row.from == side { octets } else { 0 }
}

fn count_in(count: Count, row: &Row) -> u64
    ensures { result ≡ count_in count row.now }
{
    match count {
        Count::Segments => row.segments as u64,
        Count::Octets => row.octets,
        Count::New => row.fresh,
        Count::Again => row.again,
        Count::Moved => row.moved,
        Count::Lost => row.lost as u64,
        Count::Full => row.full as u64,
    }
}

/// What the rows of a direction count together.
#[tactic(auto, using(crate::proofs::Sums::capped_more))]
pub fn total_from(side: Side, count: Count, rows: &[Row]) -> u64
    ensures { result ≡ capped (total_from side count rows.now) }
{
    let mut total = 0_u64;
    for row in rows {
        total = total.saturating_add(if_from(side, row, count_in(count, row)));
    }
    total
}

/// The greatest tick of a segment.
pub fn last_tick(carried: &[Carried]) -> u64
    ensures { result ≡ last_tick carried.now }
{
    let mut last = 0;
    for segment in carried {
        last = last.max(segment.tick);
    }
    last
}

/// Thousands of bits in a second.
pub fn goodput(octets: u64, ticks: u64) -> u64
    ensures { result ≡ goodput octets ticks }
{
    if ticks == 0 {
        return 0;
    }
    octets.saturating_mul(8) / ticks
}
