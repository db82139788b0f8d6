//! What a picture shows of a stream: a stroke for each payload whose place is told, a dot for each Data ACK.

ghost use Rattle.std.specs.Prelude.{◌≡◌, ◌++◌, IfOk, OnOk};
ghost use Rattle.std.specs.Option.{option_to_list};
ghost use Rattle.range_marks.specs.Marks.{no_marks};
ghost use Rattle.link_trace.specs.Strokes.{dot_of, dots_of, stroke_at, stroke_of, strokes_behind, strokes_of};

use crate::carried::Carried;
use crate::places::{carry, repeated};
use crate::rows::side_of;
use range_marks::RangeMarks;
use sides::Side;
use std::alloc::{AllocError, Global};

/// A payload that was sent: its places at its tick.
#[derive(Clone, Copy)]
pub struct Stroke {
    /// The number of the path.
    pub path: u8,
    /// Some of its places were carried before, on this path or another one.
    pub again: bool,
    /// A line of the script lets it go lost.
    pub lost: bool,
    pub tick: u64,
    /// Its first place.
    pub from: u64,
    /// The place behind its last one.
    pub to: u64,
}

/// A Data ACK that was sent: how many bytes it acknowledges.
#[derive(Clone, Copy)]
pub struct Dot {
    pub tick: u64,
    pub place: u32,
}

fn stroke_at(repeated: u64, carried: &Carried, place: u32) -> Stroke
    ensures { result ≡ stroke_at repeated carried.now place }
{
    let from = u64::from(place);
    Stroke {
        path: carried.path,
        again: repeated > 0,
        lost: carried.lost,
        tick: carried.tick,
        from,
        to: from + u64::from(carried.len),
    }
}

fn stroke_of(repeated: u64, carried: &Carried) -> Option<Stroke>
    ensures { result ≡ stroke_of repeated carried.now carried.now.place }
{
    match carried.place {
        None => None,
        Some(place) => {
            if carried.len == 0 {
                None
            } else {
                Some(stroke_at(repeated, carried, place))
            }
        }
    }
}

fn put_stroke(strokes: &mut Vec<Stroke>, stroke: Option<Stroke>) -> Result<(), AllocError>
    ensures { OnOk result (strokes.new.items ≡ strokes.old.items ++ option_to_list stroke) }
{
    if let Some(stroke) = stroke {
        strokes.push(stroke)?;
    }
    Ok(())
}

/// The payloads of what a side's segments carry.
fn strokes_behind(alloc: Global, direction: &[Carried]) -> Result<Vec<Stroke>, AllocError>
    ensures { IfOk result (λ strokes. strokes.items ≡ strokes_behind no_marks direction.now) }
{
    let mut places: RangeMarks<bool> = RangeMarks::new(alloc);
    let mut strokes = Vec::new(alloc);
    for segment in direction {
        let repeated = repeated(&places, segment.place, segment.len);
        put_stroke(&mut strokes, stroke_of(repeated, segment))?;
        carry(&mut places, segment.place, segment.len)?;
    }
    Ok(strokes)
}

/// The payloads of a side's stream.
pub fn strokes_of(alloc: Global, side: Side, carried: &[Carried]) -> Result<Vec<Stroke>, AllocError>
    ensures { IfOk result (λ strokes. strokes.items ≡ strokes_of side carried.now) }
{
    let direction = side_of(alloc, carried, side)?;
    strokes_behind(alloc, &direction)
}

fn dot_of(carried: &Carried) -> Option<Dot>
    ensures { result ≡ dot_of carried.now carried.now.acknowledged }
{
    match carried.acknowledged {
        None => None,
        Some(place) => Some(Dot {
            tick: carried.tick,
            place,
        }),
    }
}

/// What the other side acknowledges of a side's stream.
pub fn dots_of(alloc: Global, side: Side, carried: &[Carried]) -> Result<Vec<Dot>, AllocError>
    ensures { IfOk result (λ dots. dots.items ≡ dots_of side carried.now) }
{
    let direction = side_of(alloc, carried, side.peer())?;
    direction
        .iter()
        .filter_map(|segment| dot_of(segment))
        .collect(alloc)
}
