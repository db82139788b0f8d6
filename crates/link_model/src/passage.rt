//! What a direction of a link does to every segment: random loss, a queue that empties at a rate, jitter.

ghost use Rattle.std.specs.Prelude.{◌≡◌, ◌-◌, ◌^◌, ◌<◌, ◌≤◌};
ghost use Rattle.link_model.specs.Passage.{with_impairment, shaped_by, shape_of, index_of, loss_stream, jitter_stream, is_drawn, ticks_drawn, left_at, octets_left, is_full, queued, ticks_queued};
ghost use Rattle.key_material.specs.Drawing.{drawn_word};
ghost use Rattle.link_model.specs.Bounds.{HasRate};

use key_material::drawn;
use link_script::{Impairment, ScriptLine};
use sides::Side;

/// How fast a direction hands octets on.
#[derive(Clone, Copy)]
pub struct Rate {
    /// Octets a tick: 10 to 1,000,000.
    pub octets: u32,
    /// Octets that wait at most: 1,500 to 1,000,000.
    pub queue: u32,
}

/// What a direction does to every segment.
#[derive(Clone, Copy)]
pub struct Shape {
    /// Without one each segment is handed on at once.
    pub rate: Option<Rate>,
    /// How many of a million segments are lost.
    pub loss: u32,
    /// How many ticks a segment waits at most beyond the queue.
    pub jitter: u32,
}

/// What waits before a direction with a rate.
#[derive(Clone, Copy)]
pub struct Waiting {
    /// Octets.
    pub left: u64,
    /// The tick at which they waited.
    pub at: u64,
}

fn with_impairment(impairment: Impairment, shape: Shape) -> Shape
    ensures { result ≡ with_impairment impairment shape }
{
    match impairment {
        Impairment::Rate { octets, queue } => Shape {
            rate: Some(Rate { octets, queue }),
            ..shape
        },
        Impairment::Loss(loss) => Shape { loss, ..shape },
        Impairment::Jitter(jitter) => Shape { jitter, ..shape },
    }
}

fn shaped_by(from: Side, shape: Shape, line: &ScriptLine) -> Shape
    ensures { result ≡ shaped_by from shape line.now }
{
    match *line {
        ScriptLine::OnDirection(direction, impairment) if direction.from == from => {
            with_impairment(impairment, shape)
        }
        _ => shape,
    }
}

/// What these lines make of the direction from a side.
pub fn shape_of(from: Side, lines: &[ScriptLine]) -> Shape
    ensures { result ≡ shape_of from lines.now }
{
    let mut shape = Shape {
        rate: None,
        loss: 0,
        jitter: 0,
    };
    for line in lines {
        shape = shaped_by(from, shape, line);
    }
    shape
}

fn index_of(from: Side) -> u64
    ensures { result ≡ index_of from }
{
    match from {
        Side::A => 0,
        Side::B => 1,
    }
}

/// The stream from which the losses of a direction are drawn.
fn loss_stream(path: u8, from: Side) -> u64
    ensures { result ≡ loss_stream path from }
{
    2000 + 4 * u64::from(path) + 2 * index_of(from)
}

/// The stream from which the jitter of a direction is drawn.
fn jitter_stream(path: u8, from: Side) -> u64
    ensures { result ≡ jitter_stream path from }
{
    2001 + 4 * u64::from(path) + 2 * index_of(from)
}

/// Whether the segment of this number, the first being 1, is lost, where so many of a million are.
pub fn is_drawn_lost(parts: u32, seed: u64, path: u8, from: Side, number: u64) -> bool
    requires { parts ≤ 1000000 }
    ensures { result ≡ is_drawn parts (drawn_word seed (loss_stream path from) (number - 1)) }
{
    if parts == 0 {
        return false;
    }
    let word = drawn(seed, loss_stream(path, from), number.saturating_sub(1));
    is_drawn(parts, word)
}

/// The ticks that are drawn for the segment of this number, the first being 1, of so many at most.
pub fn jitter_drawn(ticks: u32, seed: u64, path: u8, from: Side, number: u64) -> u64
    requires { ticks ≤ 100000 }
    ensures value { result ≡
        ticks_drawn ticks (drawn_word seed (jitter_stream path from) (number - 1)) }
    ensures most { result ≤ 100000 }
{
    if ticks == 0 {
        return 0;
    }
    let word = drawn(seed, jitter_stream(path, from), number.saturating_sub(1));
    ticks_drawn(ticks, word)
}

/// Whether a segment of this word is lost, where so many of a million are.
fn is_drawn(parts: u32, word: u32) -> bool
    requires { parts ≤ 1000000 }
    ensures { result ≡ is_drawn parts word }
{
    u64::from(word) * 1_000_000 < u64::from(parts) * (1 << 32)
}

/// The ticks of this word, of so many at most.
fn ticks_drawn(ticks: u32, word: u32) -> u64
    requires { ticks ≤ 100000 }
    ensures value { result ≡ ticks_drawn ticks word }
    ensures most { result ≤ ticks }
{
    u64::from(word) * (u64::from(ticks) + 1) / (1 << 32)
}

/// Octets that still wait at this tick.
fn left_at(rate: Rate, now: u64, waiting: Waiting) -> u64
    requires { waiting.left ≤ 1000000 }
    ensures value { result ≡ left_at rate now waiting }
    ensures most { result ≤ waiting.left }
{
    let passed = now.saturating_sub(waiting.at);
    waiting
        .left
        .saturating_sub(u64::from(rate.octets).saturating_mul(passed))
}

/// Octets that still wait at this tick before a direction that may have no rate.
pub fn octets_left(rate: Option<Rate>, now: u64, waiting: Waiting) -> u64
    requires { waiting.left ≤ 1000000 }
    ensures value { result ≡ octets_left rate now waiting }
    ensures most { result ≤ 1000000 }
{
    match rate {
        None => 0,
        Some(rate) => left_at(rate, now, waiting),
    }
}

/// Whether there is no room for so many octets more.
pub fn is_full(rate: Option<Rate>, now: u64, octets: u64, waiting: Waiting) -> bool
    requires left { waiting.left ≤ 1000000 }
    requires octets { octets < 2 ^ 64 - 2 ^ 20 }
    ensures { result ≡ is_full rate now octets waiting }
{
    match rate {
        None => false,
        Some(rate) => left_at(rate, now, waiting) + octets > u64::from(rate.queue),
    }
}

/// What waits once further octets wait behind the others.
pub fn queued(rate: Option<Rate>, now: u64, octets: u64, waiting: Waiting) -> Waiting
    requires left { waiting.left ≤ 1000000 }
    requires octets { octets < 2 ^ 64 - 2 ^ 20 }
    ensures { result ≡ queued rate now octets waiting }
{
    match rate {
        None => waiting,
        Some(rate) => Waiting {
            left: left_at(rate, now, waiting) + octets,
            at: now,
        },
    }
}

/// The ticks after which all that waits was handed on.
pub fn ticks_queued(rate: Option<Rate>, waiting: Waiting) -> u64
    requires left { waiting.left ≤ 1000000 }
    requires rate { HasRate rate }
    ensures value { result ≡ ticks_queued rate waiting }
    ensures most { result ≤ 100000 }
{
    match rate {
        None => 0,
        Some(rate) => waiting.left.div_ceil(u64::from(rate.octets)),
    }
}
