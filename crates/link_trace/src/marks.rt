//! The marks of a panel: bars, crosses and stairs.

ghost use Rattle.std.specs.Prelude.{◌≡◌, ◌++◌, ◌^◌, ◌<◌, OnOk, string_bytes};
ghost use Rattle.std.specs.List.{flat_map};
ghost use Rattle.link_trace.specs.Marks.{bar_of, bar_on, bars_of, box_of, box_on, boxes_of, colour_at, colour_of, cross_of, crosses_of, dashes_of, part_of, stair_of, stairs_from, stairs_of, x_of, y_of};

use crate::elements::{put_bars_head, put_boxes_head, put_crosses_head, put_stairs_head};
use crate::strokes::{Dot, Stroke};
use std::alloc::AllocError;

/// What a panel of 8,800 by 3,400 units shows: so many ticks and places, of which the first lie at 900 and at the floor.
#[derive(Clone, Copy)]
pub struct Scale {
    pub ticks: u64,
    pub places: u64,
    pub floor: u32,
}

/// The share of a length that a part is of a whole.
fn part_of(length: u64, part: u64, whole: u64) -> u64
    ensures { result ≡ part_of length part whole }
{
    length.saturating_mul(part.min(whole)) / whole.max(1)
}

impl Scale {
    pub fn x(&self, tick: u64) -> u64
        ensures { result ≡ x_of self.now tick }
    {
        part_of(8_800, tick, self.ticks).saturating_add(900)
    }

    pub fn y(&self, place: u64) -> u64
        ensures value { result ≡ y_of self.now place }
        ensures below { result < 2 ^ 32 }
    {
        u64::from(self.floor).saturating_sub(part_of(3_400, place, self.places))
    }
}

/// A colour of Okabe and Ito, who chose eight that everyone can tell apart.
fn colour_at(n: usize) -> &'static str
    ensures { result.now ≡ colour_at n }
{
    match n {
        0 => "#0072b2",
        1 => "#e69f00",
        2 => "#009e73",
        3 => "#cc79a7",
        4 => "#56b4e9",
        5 => "#d55e00",
        6 => "#f0e442",
        _ => "#000000",
    }
}

/// The colour of a path.
#[tactic(auto, unfolding(crate::specs::Marks::colour_of))]
pub fn colour_of(path: usize) -> &'static str
    ensures { result.now ≡ colour_of path }
{
    colour_at(path % 8)
}

/// From path 8 on lines are dashed.
#[tactic(auto, unfolding(crate::specs::Marks::dashes_of))]
pub fn dashes_of(path: usize) -> &'static str
    ensures { result.now ≡ dashes_of path }
{
    if path < 8 {
        ""
    } else {
        " stroke-dasharray=\"24 24\""
    }
}

fn put_bar(text: &mut String, scale: &Scale, stroke: &Stroke) -> Result<(), AllocError>
    ensures { OnOk result (string_bytes text.new ≡
        string_bytes text.old ++ bar_of scale.now stroke.now) }
{
    let (x, y, to) = (
        scale.x(stroke.tick),
        scale.y(stroke.from),
        scale.y(stroke.to),
    );
    write!(text, "M{x} {y}V{to}")
}

/// Puts a hollow bar.
fn put_box(text: &mut String, scale: &Scale, stroke: &Stroke) -> Result<(), AllocError>
    ensures { OnOk result (string_bytes text.new ≡
        string_bytes text.old ++ box_of scale.now stroke.now) }
{
    let x = scale.x(stroke.tick).saturating_sub(20);
    let (y, to) = (scale.y(stroke.from), scale.y(stroke.to));
    write!(text, "M{x} {y}h40V{to}h-40z")
}

fn put_bar_on(
    text: &mut String,
    scale: &Scale,
    path: usize,
    stroke: &Stroke,
) -> Result<(), AllocError>
    ensures { OnOk result (string_bytes text.new ≡
        string_bytes text.old ++ bar_on scale.now path stroke.now) }
{
    if usize::from(stroke.path) == path && !stroke.again {
        return put_bar(text, scale, stroke);
    }
    Ok(())
}

fn put_box_on(
    text: &mut String,
    scale: &Scale,
    path: usize,
    stroke: &Stroke,
) -> Result<(), AllocError>
    ensures { OnOk result (string_bytes text.new ≡
        string_bytes text.old ++ box_on scale.now path stroke.now) }
{
    if usize::from(stroke.path) == path && stroke.again {
        return put_box(text, scale, stroke);
    }
    Ok(())
}

fn put_bars_on(
    text: &mut String,
    scale: &Scale,
    strokes: &[Stroke],
    path: usize,
) -> Result<(), AllocError>
    ensures { OnOk result (string_bytes text.new ≡
        string_bytes text.old ++ flat_map (bar_on scale.now path) strokes.now) }
{
    for stroke in strokes {
        put_bar_on(text, scale, path, stroke)?;
    }
    Ok(())
}

fn put_boxes_on(
    text: &mut String,
    scale: &Scale,
    strokes: &[Stroke],
    path: usize,
) -> Result<(), AllocError>
    ensures { OnOk result (string_bytes text.new ≡
        string_bytes text.old ++ flat_map (box_on scale.now path) strokes.now) }
{
    for stroke in strokes {
        put_box_on(text, scale, path, stroke)?;
    }
    Ok(())
}

/// Puts a bar for each payload of a path that was sent for the first time.
#[tactic(auto, unfolding(crate::specs::Marks::bars_of))]
pub fn put_bars(
    text: &mut String,
    scale: &Scale,
    strokes: &[Stroke],
    path: usize,
) -> Result<(), AllocError>
    ensures { OnOk result (string_bytes text.new ≡
        string_bytes text.old ++ bars_of scale.now strokes.now path) }
{
    put_bars_head(text, colour_of(path), dashes_of(path))?;
    put_bars_on(text, scale, strokes, path)?;
    writeln!(text, "\"/>")
}

/// Puts a hollow bar for each payload of a path of which octets were sent before.
#[tactic(auto, unfolding(crate::specs::Marks::boxes_of))]
pub fn put_boxes(
    text: &mut String,
    scale: &Scale,
    strokes: &[Stroke],
    path: usize,
) -> Result<(), AllocError>
    ensures { OnOk result (string_bytes text.new ≡
        string_bytes text.old ++ boxes_of scale.now strokes.now path) }
{
    put_boxes_head(text, colour_of(path))?;
    put_boxes_on(text, scale, strokes, path)?;
    writeln!(text, "\"/>")
}

/// Puts a cross, where the payload is lost.
fn put_cross(text: &mut String, scale: &Scale, stroke: &Stroke) -> Result<(), AllocError>
    ensures { OnOk result (string_bytes text.new ≡
        string_bytes text.old ++ cross_of scale.now stroke.now) }
{
    if !stroke.lost {
        return Ok(());
    }
    let (x, y) = (scale.x(stroke.tick), scale.y(stroke.from));
    write!(text, "M{x} {y}m-40 -40l80 80m0 -80l-80 80")
}

fn put_each_cross(text: &mut String, scale: &Scale, strokes: &[Stroke]) -> Result<(), AllocError>
    ensures { OnOk result (string_bytes text.new ≡
        string_bytes text.old ++ flat_map (cross_of scale.now) strokes.now) }
{
    for stroke in strokes {
        put_cross(text, scale, stroke)?;
    }
    Ok(())
}

/// Puts a cross at each payload that is lost.
#[tactic(auto, unfolding(crate::specs::Marks::crosses_of))]
pub fn put_crosses(text: &mut String, scale: &Scale, strokes: &[Stroke]) -> Result<(), AllocError>
    ensures { OnOk result (string_bytes text.new ≡
        string_bytes text.old ++ crosses_of scale.now strokes.now) }
{
    put_crosses_head(text)?;
    put_each_cross(text, scale, strokes)?;
    writeln!(text, "\"/>")
}

/// Puts a stair, where more is acknowledged than so much.
fn put_stair(text: &mut String, scale: &Scale, top: u32, dot: &Dot) -> Result<(), AllocError>
    ensures { OnOk result (string_bytes text.new ≡
        string_bytes text.old ++ stair_of scale.now top dot.now) }
{
    if top < dot.place {
        let (x, y) = (scale.x(dot.tick), scale.y(u64::from(dot.place)));
        return write!(text, "H{x}V{y}");
    }
    Ok(())
}

fn put_each_stair(text: &mut String, scale: &Scale, dots: &[Dot]) -> Result<(), AllocError>
    ensures { OnOk result (string_bytes text.new ≡
        string_bytes text.old ++ stairs_from scale.now 0 dots.now) }
{
    let mut top = 0_u32;
    for dot in dots {
        put_stair(text, scale, top, dot)?;
        top = top.max(dot.place);
    }
    Ok(())
}

/// Puts one line of stairs, which tells how much is acknowledged.
#[tactic(auto, unfolding(crate::specs::Marks::stairs_of))]
pub fn put_stairs(text: &mut String, scale: &Scale, dots: &[Dot]) -> Result<(), AllocError>
    ensures { OnOk result (string_bytes text.new ≡
        string_bytes text.old ++ stairs_of scale.now dots.now) }
{
    put_stairs_head(text, scale.floor)?;
    put_each_stair(text, scale, dots)?;
    writeln!(text, "\"/>")
}
