//! The words of a command line, and the files of a list of connections: `NAME CONTENT | ..`.
//!
//! `CONTENT` is `-` for none, `text` and the text itself, `lines` and a text in which `;` stands for LF, or `times`, a number and a line that
//! stands so often.

use crate::case::Case;
use crate::files::with_line_ends;
use outside_kit::NamedFile;
use std::alloc::{AllocError, Global};

/// The words of a command line, which `-` has none of.
pub fn words_of(alloc: Global, field: &str) -> Result<Vec<String>, AllocError> {
    let mut words = Vec::new(alloc);
    if field == "-" {
        return Ok(words);
    }
    for word in field.split(' ') {
        words.push(String::from_str(alloc, word)?)?;
    }
    Ok(words)
}

/// A line that stands so often.
fn repeated(alloc: Global, count: u8, line: &str) -> Result<Vec<u8>, AllocError> {
    let mut text = String::new(alloc);
    for _ in 0..count {
        text.push_str(line)?;
        text.push('\n')?;
    }
    Ok(text.into_bytes())
}

/// The octets that a content tells.
fn content(alloc: Global, field: &str) -> Result<Vec<u8>, AllocError> {
    match field.split_once(" ") {
        Some(("text", text)) => Vec::from_slice(alloc, text.as_bytes()),
        Some(("lines", text)) => Ok(with_line_ends(alloc, text)?.into_bytes()),
        Some((_, told)) => {
            let (count, line) = told.split_once(" ").unwrap_or(("0", ""));
            repeated(alloc, count.parse().unwrap_or(0), line)
        }
        None => Ok(Vec::new(alloc)),
    }
}

/// The file that a field tells.
fn file_of(alloc: Global, field: &str) -> Result<NamedFile, AllocError> {
    let (name, told) = field.split_once(" ").unwrap_or((field, "-"));
    let content = content(alloc, told)?;
    let name = String::from_str(alloc, name)?;
    Ok(NamedFile { name, content })
}

/// The files that the fields tell which are still to be read.
pub fn files_of(case: &mut Case) -> Result<Vec<NamedFile>, AllocError> {
    let mut files = Vec::new(case.alloc);
    for field in case.rest().split(" | ") {
        files.push(file_of(case.alloc, field)?)?;
    }
    Ok(files)
}
