//! One line of a script.

ghost use Rattle.std.specs.Prelude.{◌≡◌, map};
ghost use Rattle.link_script.specs.Lines.{seed_line, checksum_line, short_line, buffer_line, end_line, line_after, line_of};

use crate::direction::{read_jitter, read_loss, read_rate};
use crate::fault::ScriptKind;
use crate::limits::{BUFFERS, SEEDS};
use crate::number::read_number;
use crate::path::read_path;
use crate::script::{Happens, PathLine, ScriptLine};
use crate::segment::read_on_segment;
use crate::tick::{read_add, read_die, read_fast_close, read_prio, read_remove, read_strip_all};
use crate::version::Version;
use crate::word::{Keyword, read_switch};

/// What a line says.
#[derive(Clone, Copy)]
pub enum Line {
    Header(Version),
    Seed(u64),
    Checksum(bool),
    Short(bool),
    Buffer(u64),
    Path { index: u64, line: PathLine },
    Event(ScriptLine),
    End,
}

/// `seed N`
#[tactic(auto, unfolding(crate::specs::Lines::seed_line))]
fn read_seed(words: &[&[u8]]) -> Result<Line, ScriptKind>
    ensures { result ≡ seed_line (map (λ word. word.now) words.now) }
{
    let [seed] = words else {
        return Err(ScriptKind::Word);
    };
    Ok(Line::Seed(read_number(seed, SEEDS)?))
}

/// `checksum on` or `off`
#[tactic(auto, unfolding(crate::specs::Lines::checksum_line))]
fn read_checksum(words: &[&[u8]]) -> Result<Line, ScriptKind>
    ensures { result ≡ checksum_line (map (λ word. word.now) words.now) }
{
    let [on] = words else {
        return Err(ScriptKind::Word);
    };
    Ok(Line::Checksum(read_switch(on)?))
}

/// `short on` or `off`
#[tactic(auto, unfolding(crate::specs::Lines::short_line))]
fn read_short(words: &[&[u8]]) -> Result<Line, ScriptKind>
    ensures { result ≡ short_line (map (λ word. word.now) words.now) }
{
    let [on] = words else {
        return Err(ScriptKind::Word);
    };
    Ok(Line::Short(read_switch(on)?))
}

/// `buffer N`
#[tactic(auto, unfolding(crate::specs::Lines::buffer_line))]
fn read_buffer(words: &[&[u8]]) -> Result<Line, ScriptKind>
    ensures { result ≡ buffer_line (map (λ word. word.now) words.now) }
{
    let [octets] = words else {
        return Err(ScriptKind::Word);
    };
    Ok(Line::Buffer(read_number(octets, BUFFERS)?))
}

/// `end`
#[tactic(auto, unfolding(crate::specs::Lines::end_line))]
fn read_end(words: &[&[u8]]) -> Result<Line, ScriptKind>
    ensures { result ≡ end_line (map (λ word. word.now) words.now) }
{
    match words {
        [] => Ok(Line::End),
        _ => Err(ScriptKind::Word),
    }
}

/// Reads what stands behind the first word.
fn read_after(keyword: Keyword, rest: &[&[u8]]) -> Result<Line, ScriptKind>
    ensures { result ≡ line_after keyword (map (λ word. word.now) rest.now) }
{
    match keyword {
        Keyword::Seed => read_seed(rest),
        Keyword::Checksum => read_checksum(rest),
        Keyword::Short => read_short(rest),
        Keyword::Buffer => read_buffer(rest),
        Keyword::Path => read_path(rest),
        Keyword::Drop => read_on_segment(Happens::Lost, rest),
        Keyword::Strip => read_on_segment(Happens::Stripped, rest),
        Keyword::Alter => read_on_segment(Happens::Altered, rest),
        Keyword::Dup => read_on_segment(Happens::Again(0), rest),
        Keyword::Late => read_on_segment(Happens::Late(0), rest),
        Keyword::StripAll => read_strip_all(rest),
        Keyword::Die => read_die(rest),
        Keyword::Prio => read_prio(rest),
        Keyword::Add => read_add(rest),
        Keyword::Remove => read_remove(rest),
        Keyword::FastClose => read_fast_close(rest),
        Keyword::Rate => read_rate(rest),
        Keyword::Loss => read_loss(rest),
        Keyword::Jitter => read_jitter(rest),
        Keyword::End => read_end(rest),
    }
}

/// Reads any line but the first of a script of this version.
#[tactic(auto, unfolding(crate::specs::Lines::line_of))]
pub fn read_line(version: Version, words: &[&[u8]]) -> Result<Line, ScriptKind>
    ensures { result ≡ line_of version (map (λ word. word.now) words.now) }
{
    let [first, rest @ ..] = words else {
        return Err(ScriptKind::Word);
    };
    let keyword = Keyword::read(first)?;
    if !version.knows(keyword) {
        return Err(ScriptKind::Word);
    }
    read_after(keyword, rest)
}
