//! What was sent in each 100 ticks, by path and direction, as lines of a CSV file.

ghost use Rattle.std.specs.Prelude.{◌≡◌, ◌++◌, if◌then◌else◌, slice_get, IfOk, OnOk, string_bytes};
ghost use Rattle.link_trace.specs.Intervals.{acknowledged_at, acknowledged_in, all_shares, field, is_in, octets_words, part_in, part_words, paths_from, rate_at, rate_of, rate_words, rates_head, rates_text, row_line, row_place, rows_from, share_of, share_on, sum_in, way_code, way_lines};
ghost use Rattle.link_trace.specs.Rows.{capped};

use crate::carried::Carried;
use crate::places::{carry, repeated};
use crate::rows::{Rate, Rates, below, edge_behind, side_of};
use range_marks::RangeMarks;
use sides::Side;
use std::alloc::{AllocError, Global};

/// The octets of a segment's payload, by whether they were sent before.
#[derive(Clone, Copy)]
pub(crate) struct Share {
    /// When it was sent, in ticks of a millisecond.
    pub tick: u64,
    pub octets: u64,
    /// At places that no segment of the direction had carried before.
    pub fresh: u64,
    /// Sent again on the path.
    pub again: u64,
    /// At new positions of the path.
    pub moved: u64,
    /// All, where the segment is lost.
    pub lost: u64,
}

/// What of a share is counted.
#[derive(Clone, Copy)]
pub(crate) enum Part {
    Octets,
    New,
    Again,
    Moved,
    Lost,
}

fn share_of(edge: u64, repeated: u64, carried: &Carried) -> Share
    ensures { result ≡ share_of edge repeated carried.now }
{
    let octets = u64::from(carried.len);
    let below = below(carried.position, carried.len, edge);
    Share {
        tick: carried.tick,
        octets,
        fresh: octets.saturating_sub(repeated),
        again: below.min(repeated),
        moved: repeated.saturating_sub(below),
        lost: if carried.lost { octets } else { 0 },
    }
}

/// Puts the share of a segment, where it is of this path.
fn put_share(
    shares: &mut Vec<Share>,
    path: usize,
    edge: u64,
    repeated: u64,
    carried: &Carried,
) -> Result<(), AllocError>
    ensures { OnOk result (shares.new.items ≡
        shares.old.items ++ share_on path edge repeated carried.now) }
{
    if usize::from(carried.path) != path {
        return Ok(());
    }
    shares.push(share_of(edge, repeated, carried))?;
    Ok(())
}

/// The shares of a path's segments, among those of a direction.
fn all_shares(alloc: Global, path: usize, direction: &[Carried]) -> Result<Vec<Share>, AllocError>
    ensures { IfOk result (λ shares. shares.items ≡ all_shares path direction.now) }
{
    let mut places: RangeMarks<bool> = RangeMarks::new(alloc);
    let (mut shares, mut edge) = (Vec::new(alloc), 0_u64);
    for segment in direction {
        let repeated = repeated(&places, segment.place, segment.len);
        put_share(&mut shares, path, edge, repeated, segment)?;
        edge = edge_behind(path, edge, segment);
        carry(&mut places, segment.place, segment.len)?;
    }
    Ok(shares)
}

/// Whether a segment was sent in this row.
fn is_in(row: u64, share: &Share) -> bool
    ensures { result ≡ is_in row share.now }
{
    share.tick / 100 == row
}

fn part_in(part: Part, share: &Share) -> u64
    ensures { result ≡ part_in part share.now }
{
    match part {
        Part::Octets => share.octets,
        Part::New => share.fresh,
        Part::Again => share.again,
        Part::Moved => share.moved,
        Part::Lost => share.lost,
    }
}

/// That of a segment of this row, and nothing of another one.
fn part_if(row: u64, part: Part, share: &Share) -> u64
    ensures { result ≡ (if is_in row share.now then part_in part share.now else 0) }
{
    if is_in(row, share) {
        part_in(part, share)
    } else {
        0
    }
}

/// What the segments of a row add up to.
#[tactic(auto, using(crate::proofs::Sums::capped_more))]
fn sum_in(row: u64, part: Part, shares: &[Share]) -> u64
    ensures { result ≡ capped (sum_in row part shares.now) }
{
    let mut sum = 0_u64;
    for share in shares {
        sum = sum.saturating_add(part_if(row, part, share));
    }
    sum
}

/// How much a Data ACK acknowledges that is sent before the row's end.
fn acknowledged_at(row: u64, tick: u64, acknowledged: Option<u32>) -> u32
    ensures { result ≡ acknowledged_at row tick acknowledged }
{
    match acknowledged {
        None => 0,
        Some(octets) => { if row < tick / 100 { 0 } else { octets } }
    }
}

/// The most that the Data ACKs of these segments acknowledge by the row's end.
fn acknowledged_in(row: u64, answers: &[Carried]) -> u32
    ensures { result ≡ acknowledged_in row answers.now }
{
    let mut most = 0;
    for answer in answers {
        most = most.max(acknowledged_at(row, answer.tick, answer.acknowledged));
    }
    most
}

fn way_code(side: Side) -> &'static str
    ensures { result.now ≡ way_code side }
{
    match side {
        Side::A => "ab",
        Side::B => "ba",
    }
}

fn put_place(text: &mut String, row: u64, path: usize, side: Side) -> Result<(), AllocError>
    ensures { OnOk result (string_bytes text.new ≡
        string_bytes text.old ++ row_place row path side) }
{
    let (tick, way) = (u128::from(row) * 100, way_code(side));
    write!(text, "{tick},{path},{way}")
}

fn put_part(text: &mut String, row: u64, part: Part, shares: &[Share]) -> Result<(), AllocError>
    ensures { OnOk result (string_bytes text.new ≡
        string_bytes text.old ++ part_words row part shares.now) }
{
    write!(text, ",{}", sum_in(row, part, shares))
}

fn put_octets(text: &mut String, row: u64, shares: &[Share]) -> Result<(), AllocError>
    ensures { OnOk result (string_bytes text.new ≡
        string_bytes text.old ++ octets_words row shares.now) }
{
    put_part(text, row, Part::Octets, shares)?;
    put_part(text, row, Part::New, shares)?;
    put_part(text, row, Part::Again, shares)?;
    put_part(text, row, Part::Moved, shares)?;
    put_part(text, row, Part::Lost, shares)
}

fn put_field(text: &mut String, number: Option<u32>) -> Result<(), AllocError>
    ensures { OnOk result (string_bytes text.new ≡ string_bytes text.old ++ field number) }
{
    match number {
        None => text.push_str(","),
        Some(number) => write!(text, ",{number}"),
    }
}

fn put_rate(text: &mut String, rate: Option<Rate>) -> Result<(), AllocError>
    ensures { OnOk result (string_bytes text.new ≡ string_bytes text.old ++ rate_words rate) }
{
    let Some(rate) = rate else {
        return text.push_str(",,,,,");
    };
    put_field(text, Some(rate.window))?;
    put_field(text, Some(rate.threshold))?;
    put_field(text, rate.rtt)?;
    put_field(text, Some(rate.timeout))?;
    put_field(text, Some(rate.waiting))
}

/// What the end of a side measures.
pub(crate) fn rate_of(side: Side, rates: Rates) -> Rate
    ensures { result ≡ rate_of side rates }
{
    match side {
        Side::A => rates.a,
        Side::B => rates.b,
    }
}

/// What stands at a place, if anything does.
#[tactic(auto, using(std::proofs::lemmas::Option::gets))]
fn rates_at(measured: &[Rates], place: u128) -> Option<Rates>
    ensures { result ≡ slice_get measured.now place }
{
    if place < measured.len() as u128 {
        Some(measured[place as usize])
    } else {
        None
    }
}

/// What an end measures as a row ends.
fn rate_at(measured: &[Rates], paths: usize, row: u64, path: usize, side: Side) -> Option<Rate>
    ensures { result ≡ rate_at measured.now paths row path side }
{
    let place = u128::from(row) * paths as u128 + path as u128;
    match rates_at(measured, place) {
        None => None,
        Some(rates) => Some(rate_of(side, rates)),
    }
}

/// The line of a row.
fn put_line(
    text: &mut String,
    row: u64,
    path: usize,
    side: Side,
    shares: &[Share],
    answers: &[Carried],
    rate: Option<Rate>,
) -> Result<(), AllocError>
    ensures { OnOk result (string_bytes text.new ≡
        string_bytes text.old ++ row_line row path side shares.now answers.now rate) }
{
    put_place(text, row, path, side)?;
    put_octets(text, row, shares)?;
    put_field(text, Some(acknowledged_in(row, answers)))?;
    put_rate(text, rate)?;
    writeln!(text)
}

/// The lines of so many rows of a direction of a path.
fn put_rows(
    text: &mut String,
    measured: &[Rates],
    paths: usize,
    rows: u64,
    path: usize,
    side: Side,
    shares: &[Share],
    answers: &[Carried],
) -> Result<(), AllocError>
    ensures { OnOk result (string_bytes text.new ≡ string_bytes text.old ++
        rows_from measured.now paths 0 rows path side shares.now answers.now) }
{
    for row in 0..rows {
        let rate = rate_at(measured, paths, row, path, side);
        put_line(text, row, path, side, shares, answers, rate)?;
    }
    Ok(())
}

/// The lines of a direction of a path.
fn put_way(
    alloc: Global,
    text: &mut String,
    measured: &[Rates],
    paths: usize,
    rows: u64,
    path: usize,
    side: Side,
    carried: &[Carried],
) -> Result<(), AllocError>
    ensures { OnOk result (string_bytes text.new ≡
        string_bytes text.old ++ way_lines measured.now paths rows path side carried.now) }
{
    let direction = side_of(alloc, carried, side)?;
    let answers = side_of(alloc, carried, side.peer())?;
    let shares = all_shares(alloc, path, &direction)?;
    put_rows(text, measured, paths, rows, path, side, &shares, &answers)
}

fn put_paths(
    alloc: Global,
    text: &mut String,
    measured: &[Rates],
    paths: usize,
    rows: u64,
    carried: &[Carried],
) -> Result<(), AllocError>
    ensures { OnOk result (string_bytes text.new ≡
        string_bytes text.old ++ paths_from measured.now paths rows 0 paths carried.now) }
{
    for path in 0..paths {
        put_way(alloc, text, measured, paths, rows, path, Side::A, carried)?;
        put_way(alloc, text, measured, paths, rows, path, Side::B, carried)?;
    }
    Ok(())
}

/// The rates of what a trace carries: for each of so many paths, and each direction of it, a line for each of so many rows of 100 ticks,
/// the first of which begins at tick 0. It tells the row's first tick, the path, the direction; octets of payload that were handed over in
/// the row, those of them that were sent for the first time, sent again, moved, and lost; how many of the direction's stream the other
/// side has acknowledged by the row's end, the DATA_FIN among them; and the end's congestion window, slow start threshold, smoothed
/// round-trip time and retransmission timeout, and the octets that wait before the direction: those of path i in row n stand at the place
/// n times `paths` plus i, and fields are empty where there is none. A head of names stands before the lines.
pub fn rates(
    alloc: Global,
    measured: &[Rates],
    paths: usize,
    rows: u64,
    carried: &[Carried],
) -> Result<Vec<u8>, AllocError>
    ensures { IfOk result (λ text. text.items ≡ rates_text measured.now paths rows carried.now) }
{
    let mut text = String::new(alloc);
    writeln!(
        text,
        "tick,path,direction,octets,new,again,moved,lost,acknowledged,window,ssthresh,rtt,timeout,waiting"
    )?;
    put_paths(alloc, &mut text, measured, paths, rows, carried)?;
    Ok(text.into_bytes())
}
