//! The lines that speak of a tick of the run.

ghost use Rattle.std.specs.Prelude.{◌≡◌, ◌∷◌, [], map};
ghost use Rattle.link_script.specs.Lines.{strip_all_line, die_line, prio_line, add_line, remove_line, fast_close_line};

use crate::fault::ScriptKind;
use crate::limits::{ADDRESS_IDS, PATH_NUMBERS, RUN_TICKS};
use crate::line::Line;
use crate::number::read_number;
use crate::script::ScriptLine;
use crate::word::{expect_word, read_direction, read_side, read_switch};

#[tactic(auto, unfolding(crate::specs::Lines::strip_all_line))]
fn strip_all(path: &[u8], from: &[u8], tick: &[u8]) -> Result<Line, ScriptKind>
    ensures { result ≡ strip_all_line (path.now ∷ from.now ∷ tick.now ∷ []) }
{
    let from = read_direction(from)?;
    let path = read_number(path, PATH_NUMBERS)? as u8;
    let tick = read_number(tick, RUN_TICKS)?;
    Ok(Line::Event(ScriptLine::StripAll { path, from, tick }))
}

/// `strip-all I DIR TICK`
#[tactic(auto, unfolding(crate::specs::Lines::strip_all_line))]
pub fn read_strip_all(words: &[&[u8]]) -> Result<Line, ScriptKind>
    ensures { result ≡ strip_all_line (map (λ word. word.now) words.now) }
{
    match words {
        [path, from, tick] => strip_all(path, from, tick),
        _ => Err(ScriptKind::Word),
    }
}

#[tactic(auto, unfolding(crate::specs::Lines::die_line))]
fn die(path: &[u8], tick: &[u8]) -> Result<Line, ScriptKind>
    ensures { result ≡ die_line (path.now ∷ tick.now ∷ []) }
{
    let path = read_number(path, PATH_NUMBERS)? as u8;
    let tick = read_number(tick, RUN_TICKS)?;
    Ok(Line::Event(ScriptLine::Die { path, tick }))
}

/// `die I TICK`
#[tactic(auto, unfolding(crate::specs::Lines::die_line))]
pub fn read_die(words: &[&[u8]]) -> Result<Line, ScriptKind>
    ensures { result ≡ die_line (map (λ word. word.now) words.now) }
{
    match words {
        [path, tick] => die(path, tick),
        _ => Err(ScriptKind::Word),
    }
}

#[tactic(auto, unfolding(crate::specs::Lines::prio_line))]
fn prio(path: &[u8], side: &[u8], tick: &[u8], on: &[u8]) -> Result<Line, ScriptKind>
    ensures { result ≡ prio_line (path.now ∷ side.now ∷ tick.now ∷ on.now ∷ []) }
{
    let side = read_side(side)?;
    let on = read_switch(on)?;
    let path = read_number(path, PATH_NUMBERS)? as u8;
    let tick = read_number(tick, RUN_TICKS)?;
    Ok(Line::Event(ScriptLine::Prio {
        path,
        side,
        tick,
        on,
    }))
}

/// `prio I SIDE TICK on` or `off`
#[tactic(auto, unfolding(crate::specs::Lines::prio_line))]
pub fn read_prio(words: &[&[u8]]) -> Result<Line, ScriptKind>
    ensures { result ≡ prio_line (map (λ word. word.now) words.now) }
{
    match words {
        [path, side, tick, on] => prio(path, side, tick, on),
        _ => Err(ScriptKind::Word),
    }
}

#[tactic(auto, unfolding(crate::specs::Lines::add_line))]
fn add(side: &[u8], id: &[u8], tick: &[u8]) -> Result<Line, ScriptKind>
    ensures { result ≡ add_line (side.now ∷ id.now ∷ tick.now ∷ []) }
{
    expect_word(side, b"b")?;
    let id = read_number(id, ADDRESS_IDS)? as u8;
    let tick = read_number(tick, RUN_TICKS)?;
    Ok(Line::Event(ScriptLine::Add { id, tick }))
}

/// `add b ID TICK`
#[tactic(auto, unfolding(crate::specs::Lines::add_line))]
pub fn read_add(words: &[&[u8]]) -> Result<Line, ScriptKind>
    ensures { result ≡ add_line (map (λ word. word.now) words.now) }
{
    match words {
        [side, id, tick] => add(side, id, tick),
        _ => Err(ScriptKind::Word),
    }
}

#[tactic(auto, unfolding(crate::specs::Lines::remove_line))]
fn remove(side: &[u8], id: &[u8], tick: &[u8]) -> Result<Line, ScriptKind>
    ensures { result ≡ remove_line (side.now ∷ id.now ∷ tick.now ∷ []) }
{
    let side = read_side(side)?;
    let id = read_number(id, ADDRESS_IDS)? as u8;
    let tick = read_number(tick, RUN_TICKS)?;
    Ok(Line::Event(ScriptLine::Remove { side, id, tick }))
}

/// `remove SIDE ID TICK`
#[tactic(auto, unfolding(crate::specs::Lines::remove_line))]
pub fn read_remove(words: &[&[u8]]) -> Result<Line, ScriptKind>
    ensures { result ≡ remove_line (map (λ word. word.now) words.now) }
{
    match words {
        [side, id, tick] => remove(side, id, tick),
        _ => Err(ScriptKind::Word),
    }
}

/// `fastclose SIDE TICK`
#[tactic(auto, unfolding(crate::specs::Lines::fast_close_line))]
pub fn read_fast_close(words: &[&[u8]]) -> Result<Line, ScriptKind>
    ensures { result ≡ fast_close_line (map (λ word. word.now) words.now) }
{
    let [side, tick] = words else {
        return Err(ScriptKind::Word);
    };
    let side = read_side(side)?;
    let tick = read_number(tick, RUN_TICKS)?;
    Ok(Line::Event(ScriptLine::FastClose { side, tick }))
}
