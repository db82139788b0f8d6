//! The text that the end of a round puts to a log.

ghost use Rattle.std.specs.Prelude.{◌≡◌, ◌++◌, map, IfOk, OnOk};
ghost use Rattle.std.specs.List.{AllByRecursion};
ghost use Rattle.run_log.specs.Fitting.{NoteFits};
ghost use Rattle.run_outside.specs.LogText.{logged_text};

use actor_desk::Note;
use octet_text::Text;
use run_log::round_lines;
use std::alloc::{AllocError, Global};

/// A text with another one behind it.
fn followed(first: &Text, second: &Text) -> Result<Text, AllocError>
    ensures { IfOk result (λ text. text ≡ first.now ++ second.now) }
{
    let mut text = first.copy()?;
    text.append(second.as_bytes())?;
    Ok(text)
}

/// The text that the end of a round puts to a log.
pub fn logged_text(
    alloc: Global,
    opening: &Text,
    number: u64,
    steps: &[&Note],
) -> Result<Text, AllocError>
    ensures text { IfOk result
        (λ text. text ≡ logged_text opening.now number (map (λ note. note.now) steps.now)) }
    ensures fits { OnOk result (AllByRecursion NoteFits (map (λ note. note.now) steps.now)) }
{
    let lines = round_lines(alloc, number, steps)?;
    match number {
        0 => followed(opening, &lines),
        _ => Ok(lines),
    }
}
