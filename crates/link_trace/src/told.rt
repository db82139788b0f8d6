//! The words of each segment, as its line has them.

ghost use Rattle.std.specs.Prelude.{◌≡◌, ◌++◌, ◌∷◌, [], map, IfOk, OnOk, string_bytes};
ghost use Rattle.link_trace.specs.Told.{all_told, told_of};

use crate::sent::Sent;
use crate::text::{InitialData, put_note, put_place, put_words};
use std::alloc::{AllocError, Global};

/// The line of a segment, without its end.
fn told_of(
    alloc: Global,
    checksums: bool,
    initials: Option<InitialData>,
    trace: &[Sent],
    sent: &Sent,
) -> Result<String, AllocError>
    ensures { IfOk result (λ text. string_bytes text ≡
        told_of checksums initials trace.now sent.now) }
{
    let mut text = String::new(alloc);
    put_place(&mut text, sent)?;
    put_words(alloc, &mut text, checksums, initials, trace, sent)?;
    put_note(&mut text, &sent.fate)?;
    Ok(text)
}

/// Keeps one line more.
fn keep(told: &mut Vec<String>, line: String) -> Result<(), AllocError>
    ensures { OnOk result (map string_bytes told.new.items ≡
        map string_bytes told.old.items ++ string_bytes line ∷ []) }
{
    told.push(line)?;
    Ok(())
}

/// The line of each segment of a trace, without its end, over checksums of data or without them, data numbers as
/// in [`lines`](crate::lines).
pub fn all_told(
    alloc: Global,
    checksums: bool,
    initials: Option<InitialData>,
    trace: &[Sent],
) -> Result<Vec<String>, AllocError>
    ensures { IfOk result
        (λ told. map string_bytes told.items ≡ all_told checksums initials trace.now trace.now) }
{
    let mut told = Vec::new(alloc);
    for sent in trace {
        let line = told_of(alloc, checksums, initials, trace, sent)?;
        keep(&mut told, line)?;
    }
    Ok(told)
}
