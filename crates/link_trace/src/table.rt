//! The table by path and direction, in words.

ghost use Rattle.std.specs.Prelude.{◌≡◌, ◌++◌, ◌∷◌, [], IfOk, OnOk, string_bytes};
ghost use Rattle.std.specs.List.{flat_map};
ghost use Rattle.link_trace.specs.Rows.{rows_of};
ghost use Rattle.link_trace.specs.Tables.{aligned, all_measures, all_place, all_words, all_words_of, column, counts_columns, counts_of, first_columns, goodput_column, head_words, lost_columns, measures_columns, optional_column, place_columns, rate_columns, row_words, summary_of, table_words, total_words, totals_of, way_column};

use crate::carried::Carried;
use crate::rows::{
    Count, Rate, Rates, Row, final_tick, first_tick, goodput, last_tick, rows_of, side_of,
    total_from,
};
use sides::Side;
use std::alloc::{AllocError, Global};

const HEAD: &str =
    "path  dir  first/ms   last/ms  segments    octets       new     again     moved      lost      full   queue/B    rtt/ms  window/B    Mbit/s";

/// What a row counts: segments, octets of payload, and whether they were sent for the first time.
#[derive(Clone, Copy)]
pub(crate) struct Counts {
    pub segments: u64,
    pub octets: u64,
    /// At places that no segment of the direction had carried before.
    pub fresh: u64,
    /// Sent again on their path.
    pub again: u64,
    /// At new positions of it.
    pub moved: u64,
    /// Segments that are lost.
    pub lost: u64,
    /// Those of them that find a full queue.
    pub full: u64,
}

fn put_head(text: &mut String) -> Result<(), AllocError>
    ensures { OnOk result (string_bytes text.new ≡
        string_bytes text.old ++ (head_words ++ 10 ∷ [])) }
{
    text.push_str(HEAD)?;
    writeln!(text)
}

fn put_column(text: &mut String, number: u64) -> Result<(), AllocError>
    ensures { OnOk result (string_bytes text.new ≡ string_bytes text.old ++ column number) }
{
    write!(text, " {number:>9}")
}

fn put_optional(text: &mut String, number: Option<u64>) -> Result<(), AllocError>
    ensures { OnOk result (string_bytes text.new ≡
        string_bytes text.old ++ optional_column number) }
{
    match number {
        Some(number) => put_column(text, number),
        None => write!(text, "         -"),
    }
}

fn put_rate(text: &mut String, rate: Rate) -> Result<(), AllocError>
    ensures { OnOk result (string_bytes text.new ≡ string_bytes text.old ++ rate_columns rate) }
{
    put_optional(text, rate.rtt.map(u64::from))?;
    put_column(text, u64::from(rate.window))
}

fn way_column(from: Side) -> &'static str
    ensures { result.now ≡ way_column from }
{
    match from {
        Side::A => "   ab",
        Side::B => "   ba",
    }
}

fn put_place(text: &mut String, row: &Row) -> Result<(), AllocError>
    ensures { OnOk result (string_bytes text.new ≡ string_bytes text.old ++ place_columns row.now) }
{
    let (path, way) = (row.path, way_column(row.from));
    write!(text, "{path:>4}{way}")?;
    put_optional(text, row.first)?;
    put_optional(text, row.last)
}

/// A goodput in thousands of bits a second, as millions.
fn put_goodput(text: &mut String, kilobits: u64) -> Result<(), AllocError>
    ensures { OnOk result (string_bytes text.new ≡
        string_bytes text.old ++ goodput_column kilobits) }
{
    let (whole, tenths) = (kilobits / 1_000, kilobits / 100 % 10);
    let (hundredths, thousandths) = (kilobits / 10 % 10, kilobits % 10);
    write!(text, " {whole:>5}.{tenths}{hundredths}{thousandths}")
}

fn counts_of(row: &Row) -> Counts
    ensures { result ≡ counts_of row.now }
{
    Counts {
        segments: row.segments as u64,
        octets: row.octets,
        fresh: row.fresh,
        again: row.again,
        moved: row.moved,
        lost: row.lost as u64,
        full: row.full as u64,
    }
}

fn totals_of(side: Side, rows: &[Row]) -> Counts
    ensures { result ≡ totals_of side rows.now }
{
    Counts {
        segments: total_from(side, Count::Segments, rows),
        octets: total_from(side, Count::Octets, rows),
        fresh: total_from(side, Count::New, rows),
        again: total_from(side, Count::Again, rows),
        moved: total_from(side, Count::Moved, rows),
        lost: total_from(side, Count::Lost, rows),
        full: total_from(side, Count::Full, rows),
    }
}

fn put_first_counts(text: &mut String, counts: &Counts) -> Result<(), AllocError>
    ensures { OnOk result (string_bytes text.new ≡
        string_bytes text.old ++ first_columns counts.now) }
{
    put_column(text, counts.segments)?;
    put_column(text, counts.octets)?;
    put_column(text, counts.fresh)
}

fn put_lost(text: &mut String, counts: &Counts) -> Result<(), AllocError>
    ensures { OnOk result (string_bytes text.new ≡
        string_bytes text.old ++ lost_columns counts.now) }
{
    put_column(text, counts.lost)?;
    put_column(text, counts.full)
}

fn put_counts(text: &mut String, counts: &Counts) -> Result<(), AllocError>
    ensures { OnOk result (string_bytes text.new ≡
        string_bytes text.old ++ counts_columns counts.now) }
{
    put_first_counts(text, counts)?;
    put_column(text, counts.again)?;
    put_column(text, counts.moved)?;
    put_lost(text, counts)
}

/// The greatest queue before the direction, and what the end measures.
fn put_measures(text: &mut String, row: &Row) -> Result<(), AllocError>
    ensures { OnOk result (string_bytes text.new ≡
        string_bytes text.old ++ measures_columns row.now) }
{
    put_column(text, row.queue)?;
    put_rate(text, row.rate)
}

/// The row of a path and a direction, in a run of so many ticks.
fn put_row(text: &mut String, ticks: u64, row: &Row) -> Result<(), AllocError>
    ensures { OnOk result (string_bytes text.new ≡
        string_bytes text.old ++ row_words ticks row.now) }
{
    put_place(text, row)?;
    put_counts(text, &counts_of(row))?;
    put_measures(text, row)?;
    put_goodput(text, goodput(row.fresh, ticks))?;
    writeln!(text)
}

fn put_rows(text: &mut String, ticks: u64, rows: &[Row]) -> Result<(), AllocError>
    ensures { OnOk result (string_bytes text.new ≡
        string_bytes text.old ++ flat_map (row_words ticks) rows.now) }
{
    for row in rows {
        put_row(text, ticks, row)?;
    }
    Ok(())
}

fn put_all_place(text: &mut String, side: Side, direction: &[Carried]) -> Result<(), AllocError>
    ensures { OnOk result (string_bytes text.new ≡
        string_bytes text.old ++ all_place side direction.now) }
{
    write!(text, " all{}", way_column(side))?;
    put_optional(text, first_tick(direction))?;
    put_optional(text, final_tick(direction))
}

/// Puts no queue, no end's measures, and the goodput of so many octets.
fn put_all_measures(text: &mut String, ticks: u64, fresh: u64) -> Result<(), AllocError>
    ensures { OnOk result (string_bytes text.new ≡
        string_bytes text.old ++ all_measures ticks fresh) }
{
    write!(text, "         -         -         -")?;
    put_goodput(text, goodput(fresh, ticks))?;
    writeln!(text)
}

/// The row of all paths of a direction, whose segments come to these totals, in a run of so many ticks.
fn put_all_of(
    text: &mut String,
    side: Side,
    ticks: u64,
    direction: &[Carried],
    totals: &Counts,
) -> Result<(), AllocError>
    ensures { OnOk result (string_bytes text.new ≡
        string_bytes text.old ++ all_words_of side ticks direction.now totals.now) }
{
    put_all_place(text, side, direction)?;
    put_counts(text, totals)?;
    put_all_measures(text, ticks, totals.fresh)
}

/// The row of all paths of a direction, in a run of so many ticks.
fn put_all(
    text: &mut String,
    side: Side,
    ticks: u64,
    direction: &[Carried],
    rows: &[Row],
) -> Result<(), AllocError>
    ensures { OnOk result (string_bytes text.new ≡
        string_bytes text.old ++ all_words side ticks direction.now rows.now) }
{
    let totals = totals_of(side, rows);
    put_all_of(text, side, ticks, direction, &totals)
}

fn put_totals(
    alloc: Global,
    text: &mut String,
    ticks: u64,
    carried: &[Carried],
    rows: &[Row],
) -> Result<(), AllocError>
    ensures { OnOk result (string_bytes text.new ≡
        string_bytes text.old ++ total_words ticks carried.now rows.now) }
{
    let (from_a, from_b) = (
        side_of(alloc, carried, Side::A)?,
        side_of(alloc, carried, Side::B)?,
    );
    put_all(text, Side::A, ticks, &from_a, rows)?;
    put_all(text, Side::B, ticks, &from_b, rows)
}

/// The table of what a trace carries, a row for each direction of each path, whose ends measure this, and one
/// for all paths of each direction. Its goodputs are over the ticks up to the last segment of the trace.
pub fn summary(alloc: Global, rates: &[Rates], carried: &[Carried]) -> Result<Vec<u8>, AllocError>
    ensures { IfOk result (λ text. text.items ≡ summary_of rates.now carried.now) }
{
    let rows = rows_of(alloc, rates, carried)?;
    let ticks = last_tick(carried);
    let mut text = String::new(alloc);
    put_head(&mut text)?;
    put_rows(&mut text, ticks, &rows)?;
    put_totals(alloc, &mut text, ticks, carried, &rows)?;
    Ok(text.into_bytes())
}
