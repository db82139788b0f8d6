//! What the lines of a script say of one segment.

ghost use Rattle.std.specs.Prelude.{◌≡◌, ◌+◌, ◌-◌, ◌^◌, ◌<◌, ◌≤◌, Option};
ghost use Rattle.std.specs.List.{list_any};
ghost use Rattle.link_model.specs.Fate.{is_named, arrival_told, fate_told, fate_of, is_altered_by, is_altered, has_died_by, is_dead_at, lost_if, twice_unless, cut_short, ticks_of};
ghost use Rattle.link_model.specs.Lines.{strips_one, strips_all};

use link_script::{Happens, ScriptLine, Segment};
use sides::Side;

/// When a segment arrives, and how often. Ticks are milliseconds.
#[derive(Clone, Copy)]
pub enum Fate {
    /// Once, after the delay of the link.
    OnTime,
    /// The segment doesn't arrive.
    Lost,
    /// The segment doesn't arrive: the queue of its direction is full.
    Full,
    /// Once, so many ticks later.
    Late {
        /// The ticks beyond the delay.
        ticks: u32,
    },
    /// After the delay, and once more so many ticks after that.
    Twice {
        /// The ticks from the first arrival to the second.
        ticks: u32,
    },
}

/// What becomes of a segment that a link takes.
#[derive(Clone, Copy)]
pub struct SegmentFate {
    /// When it arrives, and how often.
    pub arrival: Fate,
    /// The ticks that it waits before it is on its way, where it arrives: in the queue of its direction, and those that are
    /// drawn. 0 to 200,000.
    pub waited: u32,
    /// The octets that wait before its direction once it was handed over, its own among them where it waits: 0 to 1,000,000, and 0
    /// where the direction has no rate.
    pub queued: u32,
    /// The segment arrives without its Multipath TCP options.
    pub stripped: bool,
    /// The segment arrives with the lowest bit of its first payload octet turned.
    pub altered: bool,
}

fn is_named(from: Side, number: u64, segment: Segment) -> bool
    ensures { result ≡ is_named from number segment }
{
    segment.from == from && u64::from(segment.number) == number
}

/// What this says of a segment's arrival.
fn arrival_told(happens: Happens) -> Option<Fate>
    ensures { result ≡ arrival_told happens }
{
    match happens {
        Happens::Lost => Some(Fate::Lost),
        Happens::Late(ticks) => Some(Fate::Late { ticks }),
        Happens::Again(ticks) => Some(Fate::Twice { ticks }),
        Happens::Stripped | Happens::Altered => None,
    }
}

/// What a line says of the arrival of the segment of this number from this side.
fn fate_told(line: &ScriptLine, from: Side, number: u64) -> Option<Fate>
    ensures { result ≡ fate_told from number line.now }
{
    match *line {
        ScriptLine::OnSegment(segment, happens) if is_named(from, number, segment) => {
            arrival_told(happens)
        }
        _ => None,
    }
}

/// When the segment of this number from this side arrives, by the first of these lines that says so.
pub fn fate_of(lines: &[ScriptLine], from: Side, number: u64) -> Fate
    ensures { result ≡ fate_of from number lines.now }
{
    for line in lines {
        if let Some(fate) = fate_told(line, from, number) {
            return fate;
        }
    }
    Fate::OnTime
}

fn strips_one(line: &ScriptLine, from: Side, number: u64) -> bool
    ensures { result ≡ strips_one from number line.now }
{
    match *line {
        ScriptLine::OnSegment(segment, Happens::Stripped) => is_named(from, number, segment),
        _ => false,
    }
}

/// Whether by one of these lines the segment of this number from this side alone loses its Multipath TCP options.
pub fn strips_segment(lines: &[ScriptLine], from: Side, number: u64) -> bool
    ensures { result ≡ list_any (strips_one from number) lines.now }
{
    lines.iter().any(|line| strips_one(line, from, number))
}

fn strips_all(line: &ScriptLine, from: Side, now: u64) -> bool
    ensures { result ≡ strips_all from now line.now }
{
    match *line {
        ScriptLine::StripAll {
            from: side,
            tick,
            ..
        } => side == from && tick <= now,
        _ => false,
    }
}

/// Whether by one of these lines every segment that this side hands over at this tick does.
pub fn strips_from(lines: &[ScriptLine], from: Side, now: u64) -> bool
    ensures { result ≡ list_any (strips_all from now) lines.now }
{
    lines.iter().any(|line| strips_all(line, from, now))
}

fn is_altered_by(line: &ScriptLine, from: Side, number: u64) -> bool
    ensures { result ≡ is_altered_by from number line.now }
{
    match *line {
        ScriptLine::OnSegment(segment, Happens::Altered) => is_named(from, number, segment),
        _ => false,
    }
}

/// Whether the segment of this number from this side arrives with another payload.
pub fn is_altered(lines: &[ScriptLine], from: Side, number: u64) -> bool
    ensures { result ≡ is_altered from number lines.now }
{
    lines.iter().any(|line| is_altered_by(line, from, number))
}

fn has_died_by(line: &ScriptLine, now: u64) -> bool
    ensures { result ≡ has_died_by now line.now }
{
    match *line {
        ScriptLine::Die { tick, .. } => tick <= now,
        _ => false,
    }
}

/// Whether the link of these lines is dead at this tick.
fn is_dead_at(lines: &[ScriptLine], now: u64) -> bool
    ensures { result ≡ is_dead_at lines.now now }
{
    lines.iter().any(|line| has_died_by(line, now))
}

/// Whether it is dead so many ticks later.
fn is_dead_after(lines: &[ScriptLine], on_time: u64, ticks: u32) -> bool
    requires on_time { on_time < 2 ^ 64 - 2 ^ 19 }
    requires ticks { ticks ≤ 100000 }
    ensures { result ≡ is_dead_at lines.now (on_time + ticks) }
{
    is_dead_at(lines, on_time + u64::from(ticks))
}

/// A copy that comes to a dead link doesn't arrive.
fn lost_if(dead: bool, fate: Fate) -> Fate
    ensures { result ≡ lost_if dead fate }
{
    if dead { Fate::Lost } else { fate }
}

/// Of two copies the death may cut off both, or the second one alone.
fn twice_unless(first_cut: bool, second_cut: bool, ticks: u32) -> Fate
    ensures { result ≡ twice_unless first_cut second_cut ticks }
{
    if second_cut {
        lost_if(first_cut, Fate::OnTime)
    } else {
        lost_if(first_cut, Fate::Twice { ticks })
    }
}

/// What comes of a fate where the link dies, for a segment that would arrive at the tick `on_time`: a copy that the death cuts off
/// doesn't arrive.
pub fn cut_short(lines: &[ScriptLine], on_time: u64, fate: Fate) -> Fate
    requires on_time { on_time < 2 ^ 64 - 2 ^ 19 }
    requires ticks { ticks_of fate ≤ 100000 }
    ensures { result ≡ cut_short lines.now on_time fate }
{
    match fate {
        Fate::Lost => Fate::Lost,
        Fate::Full => Fate::Full,
        Fate::OnTime => lost_if(is_dead_at(lines, on_time), Fate::OnTime),
        Fate::Late { ticks } => {
            lost_if(is_dead_after(lines, on_time, ticks), Fate::Late { ticks })
        }
        Fate::Twice { ticks } => twice_unless(
            is_dead_at(lines, on_time),
            is_dead_after(lines, on_time, ticks),
            ticks,
        ),
    }
}
