//! A picture of both streams, and of the congestion windows of their senders, in SVG: ticks go across, octets up.

ghost use Rattle.std.specs.Prelude.{◌≡◌, ◌++◌, ◌^◌, ◌≤◌, IfOk, OnOk, length, string_bytes};
ghost use Rattle.link_trace.specs.Pictures.{as_shown, blocks_of, bottom_of, dot_if, drawn, drawn_in_part, every_of, head_words, if_room, is_drawn, last_death, legend_words, lower, most_of, picture_of, some_dots, some_strokes, too_many, upper, windows_behind, windows_below};
ghost use Rattle.link_trace.specs.Strokes.{dots_of, strokes_of};

use crate::carried::Carried;
use crate::elements::{put_acknowledged_entry, put_again_entry, put_lost_entry, put_payload_entry};
use crate::panels::{Block, Death, height_of, put_block};
use crate::rows::{Rates, last_tick};
use crate::strokes::{Dot, Stroke, dots_of, strokes_of};
use crate::windows::{Window, put_windows, windows_height, windows_of};
use sides::Side;
use std::alloc::{AllocError, Global};

const TOO_MANY: &str =
    "<svg xmlns=\"http://www.w3.org/2000/svg\" viewBox=\"0 0 10000 400\" width=\"1000\" height=\"40\" font-family=\"sans-serif\" font-size=\"200\">\n<text x=\"900\" y=\"200\">too many segments are lost for a picture</text>\n</svg>\n";

/// What a picture shows of a stream.
#[derive(Drop)]
pub(crate) struct Stream {
    pub strokes: Vec<Stroke>,
    pub dots: Vec<Dot>,
    /// Those of the side that sends it.
    pub windows: Vec<Window>,
}

/// The windows of the side that sends a stream, up to this tick: none of one without payload.
fn windows_behind(
    alloc: Global,
    strokes: &[Stroke],
    side: Side,
    paths: usize,
    ticks: u64,
    measured: &[Rates],
) -> Result<Vec<Window>, AllocError>
    ensures { IfOk result (λ windows. windows.items ≡
        windows_behind strokes.now side paths ticks measured.now) }
{
    if strokes.is_empty() {
        return Ok(Vec::new(alloc));
    }
    windows_of(alloc, side, paths, ticks, measured)
}

fn stream_of(
    alloc: Global,
    side: Side,
    paths: usize,
    ticks: u64,
    measured: &[Rates],
    carried: &[Carried],
) -> Result<Stream, AllocError>
    ensures strokes { IfOk result (λ stream. stream.strokes.items ≡ strokes_of side carried.now) }
    ensures dots { IfOk result (λ stream. stream.dots.items ≡ dots_of side carried.now) }
    ensures windows { IfOk result (λ stream. stream.windows.items ≡
        windows_behind (strokes_of side carried.now) side paths ticks measured.now) }
{
    let strokes = strokes_of(alloc, side, carried)?;
    let dots = dots_of(alloc, side, carried)?;
    let windows = windows_behind(alloc, &strokes, side, paths, ticks, measured)?;
    Ok(Stream {
        strokes,
        dots,
        windows,
    })
}

#[tactic(auto, unfolding(crate::specs::Pictures::head_words))]
fn put_head(text: &mut String, height: u16) -> Result<(), AllocError>
    ensures { OnOk result (string_bytes text.new ≡ string_bytes text.old ++ head_words height) }
{
    let tenth = height / 10;
    write!(
        text,
        "<svg xmlns=\"http://www.w3.org/2000/svg\" viewBox=\"0 0 10000 {height}\" width=\"1000\" height=\"{tenth}\" font-family=\"sans-serif\" font-size=\"150\">\n<rect width=\"10000\" height=\"{height}\" fill=\"#ffffff\"/>\n"
    )
}

/// Puts what the marks mean.
#[tactic(auto, unfolding(crate::specs::Pictures::legend_words))]
fn put_legend(text: &mut String) -> Result<(), AllocError>
    ensures { OnOk result (string_bytes text.new ≡ string_bytes text.old ++ legend_words) }
{
    put_payload_entry(text)?;
    put_again_entry(text)?;
    put_lost_entry(text)?;
    put_acknowledged_entry(text)
}

fn upper(paths: usize, every: usize) -> Block
    ensures { result ≡ upper paths every }
{
    Block {
        side: Side::A,
        top: 400,
        paths,
        every,
    }
}

fn lower(paths: usize, every: usize, from_a: &Stream) -> Block
    ensures { result ≡ lower paths every (as_shown from_a.now) }
{
    Block {
        side: Side::B,
        top: 400 + height_of(paths, &from_a.strokes),
        paths,
        every,
    }
}

/// Puts both streams.
#[tactic(auto, unfolding(crate::specs::Pictures::blocks_of))]
fn put_blocks(
    text: &mut String,
    paths: usize,
    every: usize,
    deaths: &[Death],
    ticks: u64,
    from_a: &Stream,
    from_b: &Stream,
) -> Result<(), AllocError>
    ensures { OnOk result (string_bytes text.new ≡ string_bytes text.old ++
        blocks_of paths deaths.now ticks every (as_shown from_a.now) (as_shown from_b.now)) }
{
    let first = upper(paths, every);
    put_block(text, &first, ticks, deaths, &from_a.strokes, &from_a.dots)?;
    let second = lower(paths, every, from_a);
    put_block(text, &second, ticks, deaths, &from_b.strokes, &from_b.dots)
}

/// How far down both streams reach.
fn bottom_of(paths: usize, from_a: &Stream, from_b: &Stream) -> u16
    ensures value { result ≡ bottom_of paths (as_shown from_a.now) (as_shown from_b.now) }
    ensures low { result ≤ 11220 }
{
    400 + height_of(paths, &from_a.strokes) + height_of(paths, &from_b.strokes)
}

/// Puts the windows of both sides, so far below the picture's top.
#[tactic(auto, unfolding(crate::specs::Pictures::windows_below))]
fn put_windows_below(
    text: &mut String,
    paths: usize,
    ticks: u64,
    top: u16,
    from_a: &Stream,
    from_b: &Stream,
) -> Result<(), AllocError>
    requires { top ≤ 11220 }
    ensures { OnOk result (string_bytes text.new ≡ string_bytes text.old ++
        windows_below paths ticks top (as_shown from_a.now) (as_shown from_b.now)) }
{
    put_windows(text, Side::A, paths, top, ticks, &from_a.windows)?;
    let below = top + windows_height(&from_a.windows);
    put_windows(text, Side::B, paths, below, ticks, &from_b.windows)
}

/// The picture of both streams: of so many paths, every so many-th segment is drawn, these died, over so many ticks.
#[tactic(auto, unfolding(crate::specs::Pictures::drawn))]
fn drawn(
    alloc: Global,
    paths: usize,
    every: usize,
    deaths: &[Death],
    ticks: u64,
    from_a: &Stream,
    from_b: &Stream,
) -> Result<Vec<u8>, AllocError>
    ensures { IfOk result (λ text. text.items ≡
        drawn paths deaths.now ticks every (as_shown from_a.now) (as_shown from_b.now)) }
{
    let top = bottom_of(paths, from_a, from_b);
    let (height_a, height_b) = (
        windows_height(&from_a.windows),
        windows_height(&from_b.windows),
    );
    let mut text = String::new(alloc);
    put_head(&mut text, top + height_a + height_b)?;
    put_legend(&mut text)?;
    put_blocks(&mut text, paths, every, deaths, ticks, from_a, from_b)?;
    put_windows_below(&mut text, paths, ticks, top, from_a, from_b)?;
    text.push_str("</svg>\n")?;
    Ok(text.into_bytes())
}

/// Whether one of so many is drawn, by its index.
#[tactic(auto, unfolding(crate::specs::Pictures::is_drawn))]
fn is_drawn(every: usize, index: usize) -> bool
    ensures { result ≡ is_drawn every index }
{
    index % every.max(1) == 0
}

/// The payloads that are lost, and every so many-th of the others.
fn some_strokes(alloc: Global, every: usize, strokes: &[Stroke]) -> Result<Vec<Stroke>, AllocError>
    ensures { IfOk result (λ some. some.items ≡ some_strokes every strokes.now) }
{
    let mut some = Vec::new(alloc);
    for (index, stroke) in strokes.iter().enumerate() {
        if stroke.lost || is_drawn(every, index) {
            some.push(*stroke)?;
        }
    }
    Ok(some)
}

fn put_dot(some: &mut Vec<Dot>, every: usize, index: usize, dot: &Dot) -> Result<(), AllocError>
    ensures { OnOk result (some.new.items ≡ some.old.items ++ dot_if every index dot.now) }
{
    if is_drawn(every, index) {
        some.push(*dot)?;
    }
    Ok(())
}

/// Every so many-th Data ACK.
fn some_dots(alloc: Global, every: usize, dots: &[Dot]) -> Result<Vec<Dot>, AllocError>
    ensures { IfOk result (λ some. some.items ≡ some_dots every dots.now) }
{
    let mut some = Vec::new(alloc);
    for (index, dot) in dots.iter().enumerate() {
        put_dot(&mut some, every, index, dot)?;
    }
    Ok(some)
}

/// Some of a stream.
fn thinned(alloc: Global, every: usize, stream: &Stream) -> Result<Stream, AllocError>
    ensures strokes { IfOk result (λ some.
        some.strokes.items ≡ some_strokes every stream.now.strokes.items) }
    ensures dots { IfOk result (λ some. some.dots.items ≡ some_dots every stream.now.dots.items) }
    ensures windows { IfOk result (λ some. some.windows.items ≡ stream.now.windows.items) }
{
    let strokes = some_strokes(alloc, every, &stream.strokes)?;
    let dots = some_dots(alloc, every, &stream.dots)?;
    let windows = Vec::from_slice(alloc, &stream.windows)?;
    Ok(Stream {
        strokes,
        dots,
        windows,
    })
}

/// How many strokes a stream has, or dots where these are more.
fn most_of(stream: &Stream) -> usize
    ensures { result ≡ most_of (as_shown stream.now) }
{
    let (strokes, dots) = (stream.strokes.as_slice(), stream.dots.as_slice());
    strokes.len().max(dots.len())
}

/// One segment of how many is drawn: the least number of which 10,000 are more than the strokes of a stream, and than its dots.
fn every_of(from_a: &Stream, from_b: &Stream) -> usize
    ensures { result ≡ every_of (as_shown from_a.now) (as_shown from_b.now) }
{
    most_of(from_a).max(most_of(from_b)) / 10_000 + 1
}

/// What stands in the place of a picture.
#[tactic(auto, unfolding(crate::specs::Pictures::too_many))]
fn too_many(alloc: Global) -> Result<Vec<u8>, AllocError>
    ensures value { IfOk result (λ text. text.items ≡ too_many) }
    ensures size { IfOk result (λ text. length text.items ≤ 2 ^ 21) }
{
    Ok(String::from_str(alloc, TOO_MANY)?.into_bytes())
}

/// The picture of some of the segments, where all of them have no room in one.
fn drawn_in_part(
    alloc: Global,
    paths: usize,
    deaths: &[Death],
    ticks: u64,
    from_a: &Stream,
    from_b: &Stream,
) -> Result<Vec<u8>, AllocError>
    ensures value { IfOk result (λ text. text.items ≡ if_room
        (drawn_in_part paths deaths.now ticks (as_shown from_a.now) (as_shown from_b.now)) too_many) }
    ensures size { IfOk result (λ text. length text.items ≤ 2 ^ 21) }
{
    let every = every_of(from_a, from_b);
    let (some_a, some_b) = (
        thinned(alloc, every, from_a)?,
        thinned(alloc, every, from_b)?,
    );
    let text = drawn(alloc, paths, every, deaths, ticks, &some_a, &some_b)?;
    if text.len() <= 2_097_152 {
        return Ok(text);
    }
    too_many(alloc)
}

/// The greatest tick of a death.
fn last_death(deaths: &[Death]) -> u64
    ensures { result ≡ last_death deaths.now }
{
    let mut last = 0;
    for death in deaths {
        last = last.max(death.tick);
    }
    last
}

/// The whole picture where it has room, or some of it.
fn fitted(
    alloc: Global,
    paths: usize,
    deaths: &[Death],
    ticks: u64,
    from_a: &Stream,
    from_b: &Stream,
    whole: Vec<u8>,
) -> Result<Vec<u8>, AllocError>
    ensures value { IfOk result (λ text. text.items ≡ if_room whole.items (if_room
        (drawn_in_part paths deaths.now ticks (as_shown from_a.now) (as_shown from_b.now)) too_many)) }
    ensures size { IfOk result (λ text. length text.items ≤ 2 ^ 21) }
{
    if whole.len() <= 2_097_152 {
        return Ok(whole);
    }
    drawn_in_part(alloc, paths, deaths, ticks, from_a, from_b)
}

/// The picture of what a trace carries over so many paths, of which these died: a panel for each stream that has payload, a sentence for
/// another one. Below them stands a panel of the congestion windows of each side that sends payload, where two rows end: by what the ends of
/// all paths measured as each row of 100 ticks ended, one path after the other; of 1,000 rows at most. The picture has 2 MiB at most, and
/// shows each segment where that is enough; else every so many-th, by the least number of which 10,000 are more than the payloads of a
/// stream, and than its Data ACKs, and all that are lost; else it says that these are too many.
#[tactic(auto, unfolding(crate::specs::Pictures::picture_of))]
pub fn picture(
    alloc: Global,
    paths: usize,
    deaths: &[Death],
    measured: &[Rates],
    carried: &[Carried],
) -> Result<Vec<u8>, AllocError>
    ensures value { IfOk result (λ text. text.items ≡
        picture_of paths deaths.now measured.now carried.now) }
    ensures size { IfOk result (λ text. length text.items ≤ 2 ^ 21) }
{
    let ticks = last_tick(carried).max(last_death(deaths));
    let from_a = stream_of(alloc, Side::A, paths, ticks, measured, carried)?;
    let from_b = stream_of(alloc, Side::B, paths, ticks, measured, carried)?;
    let whole = drawn(alloc, paths, 1, deaths, ticks, &from_a, &from_b)?;
    fitted(alloc, paths, deaths, ticks, &from_a, &from_b, whole)
}
