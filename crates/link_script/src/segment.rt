//! The lines that speak of one segment of a link.

ghost use Rattle.std.specs.Prelude.{◌≡◌, ◌∷◌, map};
ghost use Rattle.link_script.specs.Lines.{ticks_word, with_ticks, segment, on_segment_line};
ghost use Rattle.link_script.specs.Steps.{Shows};

use crate::fault::ScriptKind;
use crate::limits::{LATENESSES, PATH_NUMBERS, SEGMENT_NUMBERS};
use crate::line::Line;
use crate::number::read_number;
use crate::script::{Happens, ScriptLine, Segment};
use crate::word::read_direction;
use sides::Side;

/// The word of the ticks, which are told where a segment comes late or again; else they are 0.
#[tactic(auto, unfolding(crate::specs::Lines::ticks_word))]
fn ticks_word<'a>(happens: Happens, words: &[&'a [u8]]) -> Result<&'a [u8], ScriptKind>
    ensures { Shows (λ x. x.now) result (ticks_word happens (map (λ word. word.now) words.now)) }
{
    match (happens, words) {
        (Happens::Late(_) | Happens::Again(_), [ticks]) => Ok(ticks),
        (Happens::Lost | Happens::Stripped | Happens::Altered, []) => Ok(b"0"),
        _ => Err(ScriptKind::Word),
    }
}

fn with_ticks(ticks: u32, happens: Happens) -> Happens
    ensures { result ≡ with_ticks ticks happens }
{
    match happens {
        Happens::Late(_) => Happens::Late(ticks),
        Happens::Again(_) => Happens::Again(ticks),
        Happens::Lost | Happens::Stripped | Happens::Altered => happens,
    }
}

/// `I N` of a segment from this side.
#[tactic(auto, unfolding(crate::specs::Lines::segment))]
fn read_segment(path: &[u8], from: Side, number: &[u8]) -> Result<Segment, ScriptKind>
    ensures { result ≡ segment path.now from number.now }
{
    let path = read_number(path, PATH_NUMBERS)? as u8;
    let number = read_number(number, SEGMENT_NUMBERS)? as u32;
    Ok(Segment { path, from, number })
}

#[tactic(auto, unfolding(crate::specs::Lines::on_segment_line))]
fn on_segment(
    happens: Happens,
    path: &[u8],
    from: &[u8],
    number: &[u8],
    more: &[&[u8]],
) -> Result<Line, ScriptKind>
    ensures { result ≡ on_segment_line happens
        (path.now ∷ from.now ∷ number.now ∷ map (λ word. word.now) more.now) }
{
    let from = read_direction(from)?;
    let ticks = ticks_word(happens, more)?;
    let segment = read_segment(path, from, number)?;
    let ticks = read_number(ticks, LATENESSES)? as u32;
    let happens = with_ticks(ticks, happens);
    Ok(Line::Event(ScriptLine::OnSegment(segment, happens)))
}

/// `I DIR N` of a segment to which this happens, and `TICKS` in the place of its own where it comes late or again.
#[tactic(auto, unfolding(crate::specs::Lines::on_segment_line))]
pub fn read_on_segment(happens: Happens, words: &[&[u8]]) -> Result<Line, ScriptKind>
    ensures { result ≡ on_segment_line happens (map (λ word. word.now) words.now) }
{
    match words {
        [path, from, number, more @ ..] => on_segment(happens, path, from, number, more),
        _ => Err(ScriptKind::Word),
    }
}
