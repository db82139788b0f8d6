//! A log whose steps are to be made again: that of an earlier case, with some of its lines changed.

use std::alloc::{AllocError, Global};

/// What becomes of the line of this number by an edit, `N TEXT` or `N`, if it is that one's.
fn changed<'a>(edit: &'a str, number: u64) -> Option<&'a str> {
    let (at, text) = edit.split_once(" ").unwrap_or((edit, ""));
    match at.parse::<u64>() {
        Ok(at) if at == number => Some(text),
        _ => None,
    }
}

/// Puts the line of this number, or what the first edit of it puts in its place. An empty one isn't there.
fn put_line(text: &mut String, line: &str, edits: &str, number: u64) -> Result<(), AllocError> {
    let told = edits.split(';').find_map(|edit| changed(edit, number));
    let line = told.unwrap_or(line);
    if line.is_empty() {
        return Ok(());
    }
    text.push_str(line)?;
    text.push('\n')
}

/// The log with edits, which stand between `;`: `N TEXT` puts the text in the place of line N, counted from 1, and `N` leaves
/// that line out.
pub fn edited(alloc: Global, log: &[u8], edits: &str) -> Result<Vec<u8>, AllocError> {
    let told = String::from_utf8_lossy(alloc, log)?;
    let mut text = String::new(alloc);
    let mut number: u64 = 0;
    for line in told.split('\n') {
        number = number.saturating_add(1);
        put_line(&mut text, line, edits, number)?;
    }
    Ok(text.into_bytes())
}
