//! The lines that speak of one direction of a link.

ghost use Rattle.std.specs.Prelude.{◌≡◌, ◌∷◌, [], map};
ghost use Rattle.link_script.specs.Lines.{direction_of, rate_line, loss_line, jitter_line};

use crate::fault::ScriptKind;
use crate::limits::{JITTERS, LOSS_PARTS, PATH_NUMBERS, QUEUES, RATES};
use crate::line::Line;
use crate::number::read_number;
use crate::script::{Direction, Impairment, ScriptLine};
use crate::word::read_direction;

/// `I DIR`
#[tactic(auto, unfolding(crate::specs::Lines::direction_of))]
fn read_direction_of(path: &[u8], from: &[u8]) -> Result<Direction, ScriptKind>
    ensures { result ≡ direction_of path.now from.now }
{
    let from = read_direction(from)?;
    let path = read_number(path, PATH_NUMBERS)? as u8;
    Ok(Direction { path, from })
}

#[tactic(auto, unfolding(crate::specs::Lines::rate_line))]
fn rate(path: &[u8], from: &[u8], octets: &[u8], queue: &[u8]) -> Result<Line, ScriptKind>
    ensures { result ≡ rate_line (path.now ∷ from.now ∷ octets.now ∷ queue.now ∷ []) }
{
    let direction = read_direction_of(path, from)?;
    let octets = read_number(octets, RATES)? as u32;
    let queue = read_number(queue, QUEUES)? as u32;
    let impairment = Impairment::Rate { octets, queue };
    Ok(Line::Event(ScriptLine::OnDirection(direction, impairment)))
}

/// `rate I DIR N QUEUE`
#[tactic(auto, unfolding(crate::specs::Lines::rate_line))]
pub fn read_rate(words: &[&[u8]]) -> Result<Line, ScriptKind>
    ensures { result ≡ rate_line (map (λ word. word.now) words.now) }
{
    match words {
        [path, from, octets, queue] => rate(path, from, octets, queue),
        _ => Err(ScriptKind::Word),
    }
}

#[tactic(auto, unfolding(crate::specs::Lines::loss_line))]
fn loss(path: &[u8], from: &[u8], parts: &[u8]) -> Result<Line, ScriptKind>
    ensures { result ≡ loss_line (path.now ∷ from.now ∷ parts.now ∷ []) }
{
    let direction = read_direction_of(path, from)?;
    let impairment = Impairment::Loss(read_number(parts, LOSS_PARTS)? as u32);
    Ok(Line::Event(ScriptLine::OnDirection(direction, impairment)))
}

/// `loss I DIR PARTS`
#[tactic(auto, unfolding(crate::specs::Lines::loss_line))]
pub fn read_loss(words: &[&[u8]]) -> Result<Line, ScriptKind>
    ensures { result ≡ loss_line (map (λ word. word.now) words.now) }
{
    match words {
        [path, from, parts] => loss(path, from, parts),
        _ => Err(ScriptKind::Word),
    }
}

#[tactic(auto, unfolding(crate::specs::Lines::jitter_line))]
fn jitter(path: &[u8], from: &[u8], ticks: &[u8]) -> Result<Line, ScriptKind>
    ensures { result ≡ jitter_line (path.now ∷ from.now ∷ ticks.now ∷ []) }
{
    let direction = read_direction_of(path, from)?;
    let impairment = Impairment::Jitter(read_number(ticks, JITTERS)? as u32);
    Ok(Line::Event(ScriptLine::OnDirection(direction, impairment)))
}

/// `jitter I DIR TICKS`
#[tactic(auto, unfolding(crate::specs::Lines::jitter_line))]
pub fn read_jitter(words: &[&[u8]]) -> Result<Line, ScriptKind>
    ensures { result ≡ jitter_line (map (λ word. word.now) words.now) }
{
    match words {
        [path, from, ticks] => jitter(path, from, ticks),
        _ => Err(ScriptKind::Word),
    }
}
