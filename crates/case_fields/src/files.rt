//! The contents of files, and lines, as fields tell them.

use crate::fields::{CaseFault, octets_of};
use std::alloc::{AllocError, Global};

/// The octets of a file: `-` for none, `text` and the text itself, `hex` and the octets in hexadecimal digits, `made` and
/// how many there are (the one at place k is k modulo 251), or `lines`, how many there are, and how many `x` each has before its LF.
pub fn content(alloc: Global, field: &str) -> Result<Vec<u8>, CaseFault> {
    match field.split_once(" ") {
        Some(("text", text)) => Ok(Vec::from_slice(alloc, text.as_bytes())?),
        Some(("hex", digits)) => octets_of(alloc, digits),
        Some(("made", count)) => Ok(made(alloc, number_in(count)?)?),
        Some(("lines", numbers)) => lines(alloc, numbers),
        None if field == "-" => Ok(Vec::new(alloc)),
        _ => Err(CaseFault::Form),
    }
}

/// A number.
fn number_in(word: &str) -> Result<u32, CaseFault> {
    match word.parse() {
        Ok(number) => Ok(number),
        Err(_) => Err(CaseFault::Form),
    }
}

/// A line of so many `x`.
fn put_line(octets: &mut Vec<u8>, length: u32) -> Result<(), AllocError> {
    for _ in 0..length {
        octets.push(b'x')?;
    }
    Ok(octets.push(b'\n')?)
}

/// Lines: how many, and how long each is without its LF.
fn lines(alloc: Global, numbers: &str) -> Result<Vec<u8>, CaseFault> {
    let (count, length) = match numbers.split_once(" ") {
        Some((count, length)) => (number_in(count)?, number_in(length)?),
        None => return Err(CaseFault::Form),
    };
    let mut octets = Vec::new(alloc);
    for _ in 0..count {
        put_line(&mut octets, length)?;
    }
    Ok(octets)
}

/// The octet that is made for a place.
fn made_at(place: u32) -> u8 {
    (place % 251) as u8
}

/// Made octets, so many.
fn made(alloc: Global, count: u32) -> Result<Vec<u8>, AllocError> {
    (0..count).map(made_at).collect(alloc)
}

/// A text with LF for each `;`.
pub fn with_line_ends(alloc: Global, field: &str) -> Result<String, AllocError> {
    field.replace(alloc, ";", "\n")
}

/// Lines that stand between `;`, each with LF behind it.
pub fn lines_in(alloc: Global, field: &str) -> Result<String, AllocError> {
    let mut text = with_line_ends(alloc, field)?;
    text.push('\n')?;
    Ok(text)
}
