//! One stream in a picture: a title, what each path carries of it, two axes, and its marks.

ghost use Rattle.std.specs.Prelude.{◌≡◌, ◌++◌, ◌^◌, ◌<◌, ◌≤◌, OnOk, string_bytes};
ghost use Rattle.std.specs.List.{flat_map, range_with_len};
ghost use Rattle.link_trace.specs.Panels.{along, amount_words, at_each, axes_of, beside, block_of, count_of, death_of, death_words, frame_of, heading, height_of, key_of, key_rows, key_words, key_x, key_y, keys_of, marks_of, octets_at, octets_name, octets_on, octets_words, panel_of, part_words, path_marks, place_of, scale_of, sentence_of, tick_of, ticks_name, title_of, top_of, way_name};
ghost use Rattle.link_trace.specs.Rows.{capped};

use crate::elements::{
    put_death_line, put_death_words_at, put_heading_at, put_key_line, put_notch, put_rectangle,
    put_words_at, put_words_by,
};
use crate::marks::{Scale, colour_of, dashes_of, put_bars, put_boxes, put_crosses, put_stairs};
use crate::numbers::{put_grouped, step_of};
use crate::strokes::{Dot, Stroke};
use sides::Side;
use std::alloc::AllocError;

/// A path that died by a line of the script, and when, in ticks of a millisecond.
#[derive(Clone, Copy)]
pub struct Death {
    /// The number of the path.
    pub path: u8,
    pub tick: u64,
}

/// Where a stream stands in a picture.
#[derive(Clone, Copy)]
pub(crate) struct Block {
    /// The side whose stream it is.
    pub side: Side,
    /// How far below the picture's top.
    pub top: u16,
    /// How many paths there are.
    pub paths: usize,
    /// One segment of so many is drawn.
    pub every: usize,
}

fn way_name(side: Side) -> &'static str
    ensures { result.now ≡ way_name side }
{
    match side {
        Side::A => "A to B",
        Side::B => "B to A",
    }
}

fn put_heading(text: &mut String, block: &Block) -> Result<(), AllocError>
    ensures { OnOk result (string_bytes text.new ≡ string_bytes text.old ++ heading block.now) }
{
    put_heading_at(text, u64::from(block.top) + 200, way_name(block.side))
}

/// Puts how many octets.
fn put_octets(text: &mut String, octets: u64) -> Result<(), AllocError>
    ensures { OnOk result (string_bytes text.new ≡ string_bytes text.old ++ octets_words octets) }
{
    text.push_str(": ")?;
    put_grouped(text, octets)?;
    text.push_str(" octets")
}

/// Says that one segment of several is drawn, where that is so.
#[tactic(auto, unfolding(crate::specs::Panels::part_words))]
fn put_part(text: &mut String, every: usize) -> Result<(), AllocError>
    ensures { OnOk result (string_bytes text.new ≡ string_bytes text.old ++ part_words every) }
{
    if every > 1 {
        return write!(text, ", 1 of {every} segments");
    }
    Ok(())
}

/// Puts how many octets go in how many ticks.
#[tactic(auto, unfolding(crate::specs::Panels::amount_words))]
fn put_amount(text: &mut String, scale: &Scale) -> Result<(), AllocError>
    ensures { OnOk result (string_bytes text.new ≡
        string_bytes text.old ++ amount_words scale.now) }
{
    put_octets(text, scale.places)?;
    text.push_str(" in ")?;
    put_grouped(text, scale.ticks)?;
    text.push_str(" ms")
}

#[tactic(auto, unfolding(crate::specs::Panels::title_of))]
fn put_title(text: &mut String, block: &Block, scale: &Scale) -> Result<(), AllocError>
    ensures { OnOk result (string_bytes text.new ≡
        string_bytes text.old ++ title_of block.now scale.now) }
{
    put_heading(text, block)?;
    put_amount(text, scale)?;
    put_part(text, block.every)?;
    writeln!(text, "</text>")
}

/// That of a stream without payload.
#[tactic(auto, unfolding(crate::specs::Panels::sentence_of))]
fn put_sentence(text: &mut String, block: &Block) -> Result<(), AllocError>
    ensures { OnOk result (string_bytes text.new ≡ string_bytes text.old ++ sentence_of block.now) }
{
    put_heading(text, block)?;
    writeln!(text, ": no payload</text>")
}

/// The octets of a payload, where it is of this path.
fn octets_at(path: usize, stroke: &Stroke) -> u64
    ensures { result ≡ octets_at path stroke.now }
{
    if usize::from(stroke.path) == path {
        stroke.to.saturating_sub(stroke.from)
    } else {
        0
    }
}

/// The octets of a path's payloads.
#[tactic(auto, using(crate::proofs::Sums::capped_more))]
fn octets_on(path: usize, strokes: &[Stroke]) -> u64
    ensures { result ≡ capped (octets_on path strokes.now) }
{
    let mut octets = 0_u64;
    for stroke in strokes {
        octets = octets.saturating_add(octets_at(path, stroke));
    }
    octets
}

/// Where the line of a path begins: four stand in a row.
fn key_x(path: usize) -> u64
    ensures value { result ≡ key_x path }
    ensures low { result ≤ 7500 }
{
    900 + 2_200 * (path % 4) as u64
}

fn key_y(top: u16, path: usize) -> u64
    ensures value { result ≡ key_y top path }
    ensures low { result < 2 ^ 17 }
{
    let row = (path % 16 / 4) as u64;
    u64::from(top) + (400 + 200 * row)
}

/// Puts how many octets a path carries.
#[tactic(auto, unfolding(crate::specs::Panels::key_words))]
fn put_key_words(text: &mut String, strokes: &[Stroke], path: usize) -> Result<(), AllocError>
    ensures { OnOk result (string_bytes text.new ≡
        string_bytes text.old ++ key_words strokes.now path) }
{
    write!(text, "path {path}")?;
    put_octets(text, octets_on(path, strokes))?;
    writeln!(text, "</text>")
}

#[tactic(auto, unfolding(crate::specs::Panels::key_of))]
fn put_key(
    text: &mut String,
    block: &Block,
    strokes: &[Stroke],
    path: usize,
) -> Result<(), AllocError>
    ensures { OnOk result (string_bytes text.new ≡
        string_bytes text.old ++ key_of block.now strokes.now path) }
{
    let (x, y) = (key_x(path), key_y(block.top, path));
    put_key_line(text, colour_of(path), dashes_of(path), x, y)?;
    put_words_at(text, x + 260, y + 50)?;
    put_key_words(text, strokes, path)
}

fn put_keys(text: &mut String, block: &Block, strokes: &[Stroke]) -> Result<(), AllocError>
    ensures { OnOk result (string_bytes text.new ≡
        string_bytes text.old ++ keys_of block.now strokes.now) }
{
    for path in 0..block.paths {
        put_key(text, block, strokes, path)?;
    }
    Ok(())
}

#[tactic(auto, unfolding(crate::specs::Panels::ticks_name))]
fn put_ticks_name(text: &mut String, scale: &Scale) -> Result<(), AllocError>
    ensures { OnOk result (string_bytes text.new ≡ string_bytes text.old ++ ticks_name scale.now) }
{
    put_words_by(text, 5_300, u64::from(scale.floor) + 440, "middle")?;
    writeln!(text, "ticks (ms)</text>")
}

#[tactic(auto, unfolding(crate::specs::Panels::octets_name))]
fn put_octets_name(text: &mut String, scale: &Scale) -> Result<(), AllocError>
    ensures { OnOk result (string_bytes text.new ≡ string_bytes text.old ++ octets_name scale.now) }
{
    put_words_at(text, 900, u64::from(scale.floor).saturating_sub(3_460))?;
    writeln!(text, "octets</text>")
}

#[tactic(auto, unfolding(crate::specs::Panels::frame_of))]
fn put_frame(text: &mut String, scale: &Scale) -> Result<(), AllocError>
    ensures { OnOk result (string_bytes text.new ≡ string_bytes text.old ++ frame_of scale.now) }
{
    put_rectangle(text, scale.floor.saturating_sub(3_400))?;
    put_ticks_name(text, scale)?;
    put_octets_name(text, scale)
}

#[tactic(auto, unfolding(crate::specs::Panels::tick_of))]
fn put_tick(text: &mut String, scale: &Scale, tick: u64) -> Result<(), AllocError>
    ensures { OnOk result (string_bytes text.new ≡
        string_bytes text.old ++ tick_of scale.now tick) }
{
    let (x, floor) = (scale.x(tick), u64::from(scale.floor));
    put_notch(text, x, floor, "v60")?;
    put_words_by(text, x, floor + 220, "middle")?;
    put_grouped(text, tick)?;
    writeln!(text, "</text>")
}

#[tactic(auto, unfolding(crate::specs::Panels::place_of))]
fn put_place(text: &mut String, scale: &Scale, place: u64) -> Result<(), AllocError>
    ensures { OnOk result (string_bytes text.new ≡
        string_bytes text.old ++ place_of scale.now place) }
{
    let y = scale.y(place);
    put_notch(text, 900, y, "h-60")?;
    put_words_by(text, 820, y + 50, "end")?;
    put_grouped(text, place)?;
    writeln!(text, "</text>")
}

/// How many numbers so far apart an axis has.
fn count_of(range: u64, step: u64) -> u64
    ensures { result ≡ count_of range step }
{
    (range / step.max(1)).saturating_add(1)
}

/// Puts so many ticks, so far apart.
fn put_each_tick(text: &mut String, scale: &Scale, step: u64, count: u64) -> Result<(), AllocError>
    ensures { OnOk result (string_bytes text.new ≡
        string_bytes text.old ++ at_each (tick_of scale.now) step count) }
{
    for n in 0..count {
        put_tick(text, scale, step.saturating_mul(n))?;
    }
    Ok(())
}

/// Puts so many places, so far apart.
fn put_each_place(text: &mut String, scale: &Scale, step: u64, count: u64) -> Result<(), AllocError>
    ensures { OnOk result (string_bytes text.new ≡
        string_bytes text.old ++ at_each (place_of scale.now) step count) }
{
    for n in 0..count {
        put_place(text, scale, step.saturating_mul(n))?;
    }
    Ok(())
}

fn put_ticks(text: &mut String, scale: &Scale) -> Result<(), AllocError>
    ensures { OnOk result (string_bytes text.new ≡
        string_bytes text.old ++ along (tick_of scale.now) scale.now.ticks) }
{
    let step = step_of(scale.ticks);
    put_each_tick(text, scale, step, count_of(scale.ticks, step))
}

fn put_places(text: &mut String, scale: &Scale) -> Result<(), AllocError>
    ensures { OnOk result (string_bytes text.new ≡
        string_bytes text.old ++ along (place_of scale.now) scale.now.places) }
{
    let step = step_of(scale.places);
    put_each_place(text, scale, step, count_of(scale.places, step))
}

/// Puts the frame of a panel, with its numbers.
#[tactic(auto, unfolding(crate::specs::Panels::axes_of))]
pub(crate) fn put_axes(text: &mut String, scale: &Scale) -> Result<(), AllocError>
    ensures { OnOk result (string_bytes text.new ≡ string_bytes text.old ++ axes_of scale.now) }
{
    put_frame(text, scale)?;
    put_ticks(text, scale)?;
    put_places(text, scale)
}

/// Puts the marks of a path.
fn put_path(
    text: &mut String,
    scale: &Scale,
    strokes: &[Stroke],
    path: usize,
) -> Result<(), AllocError>
    ensures { OnOk result (string_bytes text.new ≡
        string_bytes text.old ++ path_marks scale.now strokes.now path) }
{
    put_bars(text, scale, strokes, path)?;
    put_boxes(text, scale, strokes, path)
}

fn put_paths(
    text: &mut String,
    scale: &Scale,
    paths: usize,
    strokes: &[Stroke],
) -> Result<(), AllocError>
    ensures { OnOk result (string_bytes text.new ≡
        string_bytes text.old ++
        flat_map (path_marks scale.now strokes.now) (range_with_len 0 paths)) }
{
    for path in 0..paths {
        put_path(text, scale, strokes, path)?;
    }
    Ok(())
}

#[tactic(auto, unfolding(crate::specs::Panels::marks_of))]
fn put_marks(
    text: &mut String,
    scale: &Scale,
    paths: usize,
    strokes: &[Stroke],
    dots: &[Dot],
) -> Result<(), AllocError>
    ensures { OnOk result (string_bytes text.new ≡
        string_bytes text.old ++ marks_of scale.now paths strokes.now dots.now) }
{
    put_paths(text, scale, paths, strokes)?;
    put_stairs(text, scale, dots)?;
    put_crosses(text, scale, strokes)
}

/// Puts where words stand beside a line: on the side that has more room.
#[tactic(auto, unfolding(crate::specs::Panels::beside))]
fn put_beside(text: &mut String, x: u64) -> Result<(), AllocError>
    ensures { OnOk result (string_bytes text.new ≡ string_bytes text.old ++ beside x) }
{
    if x < 5_000 {
        return write!(text, "{}\" text-anchor=\"start", x + 40);
    }
    write!(text, "{}\" text-anchor=\"end", x.saturating_sub(40))
}

#[tactic(auto, unfolding(crate::specs::Panels::death_words))]
fn put_death_words(text: &mut String, scale: &Scale, death: &Death) -> Result<(), AllocError>
    ensures { OnOk result (string_bytes text.new ≡
        string_bytes text.old ++ death_words scale.now death.now) }
{
    put_death_words_at(text, scale.floor.saturating_sub(3_200))?;
    put_beside(text, scale.x(death.tick))?;
    writeln!(text, "\">path {} dies</text>", death.path)
}

#[tactic(auto, unfolding(crate::specs::Panels::death_of))]
fn put_death(text: &mut String, scale: &Scale, death: &Death) -> Result<(), AllocError>
    ensures { OnOk result (string_bytes text.new ≡
        string_bytes text.old ++ death_of scale.now death.now) }
{
    let (colour, x) = (colour_of(usize::from(death.path)), scale.x(death.tick));
    put_death_line(text, colour, x, scale.floor.saturating_sub(3_400))?;
    put_death_words(text, scale, death)
}

fn put_deaths(text: &mut String, scale: &Scale, deaths: &[Death]) -> Result<(), AllocError>
    ensures { OnOk result (string_bytes text.new ≡
        string_bytes text.old ++ flat_map (death_of scale.now) deaths.now) }
{
    for death in deaths {
        put_death(text, scale, death)?;
    }
    Ok(())
}

/// The place behind all payloads.
fn top_of(strokes: &[Stroke]) -> u64
    ensures { result ≡ top_of strokes.now }
{
    let mut top = 0;
    for stroke in strokes {
        top = top.max(stroke.to);
    }
    top
}

/// How many rows the paths stand in, four in each: a script has 16 paths at most.
fn key_rows(paths: usize) -> u16
    ensures value { result ≡ key_rows paths }
    ensures few { result ≤ 4 }
{
    (paths.min(16) as u16 + 3) / 4
}

/// How high the block of a stream is.
pub(crate) fn height_of(paths: usize, strokes: &[Stroke]) -> u16
    ensures value { result ≡ height_of paths strokes.now }
    ensures low { result ≤ 5410 }
{
    if strokes.is_empty() {
        return 400;
    }
    4_610 + 200 * key_rows(paths)
}

fn scale_of(block: &Block, ticks: u64, strokes: &[Stroke]) -> Scale
    ensures { result ≡ scale_of block.now ticks strokes.now }
{
    Scale {
        ticks,
        places: top_of(strokes),
        floor: u32::from(block.top) + 4_010 + 200 * u32::from(key_rows(block.paths)),
    }
}

#[tactic(auto, unfolding(crate::specs::Panels::panel_of))]
fn put_panel(
    text: &mut String,
    block: &Block,
    scale: &Scale,
    deaths: &[Death],
    strokes: &[Stroke],
    dots: &[Dot],
) -> Result<(), AllocError>
    ensures { OnOk result (string_bytes text.new ≡
        string_bytes text.old ++ panel_of block.now scale.now deaths.now strokes.now dots.now) }
{
    put_title(text, block, scale)?;
    put_keys(text, block, strokes)?;
    put_axes(text, scale)?;
    put_marks(text, scale, block.paths, strokes, dots)?;
    put_deaths(text, scale, deaths)
}

/// Puts the block of a stream: a panel over so many ticks, or where it has no payload a sentence.
#[tactic(auto, unfolding(crate::specs::Panels::block_of))]
pub(crate) fn put_block(
    text: &mut String,
    block: &Block,
    ticks: u64,
    deaths: &[Death],
    strokes: &[Stroke],
    dots: &[Dot],
) -> Result<(), AllocError>
    ensures { OnOk result (string_bytes text.new ≡
        string_bytes text.old ++ block_of block.now ticks deaths.now strokes.now dots.now) }
{
    if strokes.is_empty() {
        return put_sentence(text, block);
    }
    let scale = scale_of(block, ticks, strokes);
    put_panel(text, block, &scale, deaths, strokes, dots)
}
