//! The lines of the paths.

ghost use Rattle.std.specs.Prelude.{◌≡◌, ◌∷◌, map};
ghost use Rattle.link_script.specs.Lines.{may_have, path_options, path_of, path_line};
ghost use Rattle.link_script.specs.Steps.{Shows};

use crate::fault::ScriptKind;
use crate::limits::{DELAYS, FIRST_PATH_NUMBER, PATH_NUMBERS, RUN_TICKS, SEGMENT_SIZES};
use crate::line::Line;
use crate::number::read_number;
use crate::script::PathLine;
use crate::word::expect_word;

/// Whether a path may have these options: path 0 has none.
fn may_have(path: &[u8], options: &[&[u8]]) -> bool
    ensures { result ≡ may_have path.now (map (λ word. word.now) options.now) }
{
    options.is_empty() || read_number(path, FIRST_PATH_NUMBER).is_err()
}

/// `[join TICK] [backup]`: the word of the tick, and whether the path is a backup.
#[tactic(auto, unfolding(crate::specs::Lines::path_options))]
fn read_options<'a>(options: &[&'a [u8]]) -> Result<(&'a [u8], bool), ScriptKind>
    ensures { Shows (λ x. (x.0.now, x.1)) result
        (path_options (map (λ word. word.now) options.now)) }
{
    match options {
        [] => Ok((b"0", false)),
        [backup] => {
            expect_word(backup, b"backup")?;
            Ok((b"0", true))
        }
        [join, tick] => {
            expect_word(join, b"join")?;
            Ok((tick, false))
        }
        [join, tick, backup] => {
            expect_word(join, b"join")?;
            expect_word(backup, b"backup")?;
            Ok((tick, true))
        }
        _ => Err(ScriptKind::Word),
    }
}

/// The numbers of a path.
#[tactic(auto, unfolding(crate::specs::Lines::path_of))]
fn read_numbers(
    path: &[u8],
    mss: &[u8],
    delay: &[u8],
    join: &[u8],
    backup: bool,
) -> Result<Line, ScriptKind>
    ensures { result ≡ path_of path.now mss.now delay.now join.now backup }
{
    let index = read_number(path, PATH_NUMBERS)?;
    let mss = read_number(mss, SEGMENT_SIZES)? as u16;
    let delay = read_number(delay, DELAYS)? as u32;
    let join = read_number(join, RUN_TICKS)?;
    let line = PathLine {
        mss,
        delay,
        join,
        backup,
    };
    Ok(Line::Path { index, line })
}

/// A path with the words behind its number.
#[tactic(auto, unfolding(crate::specs::Lines::path_line))]
fn path_with(
    path: &[u8],
    a: &[u8],
    mss: &[u8],
    b: &[u8],
    delay: &[u8],
    options: &[&[u8]],
) -> Result<Line, ScriptKind>
    ensures { result ≡ path_line
        (path.now ∷ a.now ∷ mss.now ∷ b.now ∷ delay.now ∷ map (λ word. word.now) options.now) }
{
    expect_word(a, b"mss")?;
    expect_word(b, b"delay")?;
    let (join, backup) = read_options(options)?;
    if !may_have(path, options) {
        return Err(ScriptKind::Word);
    }
    read_numbers(path, mss, delay, join, backup)
}

/// `path I mss N delay N [join TICK] [backup]`
#[tactic(auto, unfolding(crate::specs::Lines::path_line))]
pub fn read_path(words: &[&[u8]]) -> Result<Line, ScriptKind>
    ensures { result ≡ path_line (map (λ word. word.now) words.now) }
{
    match words {
        [path, a, mss, b, delay, options @ ..] => path_with(path, a, mss, b, delay, options),
        _ => Err(ScriptKind::Word),
    }
}
