//! What helps where a list of connections is refused.

use connection_table::Many;
use fault_help::{line_at, put_found, put_script_help};
use file_outside::FileOutside;
use link_script::ScriptKind;
use outside_kit::Outside;
use run_outside::split_at_first;
use std::alloc::AllocError;

/// What a line of a list names.
const NAMES: [&str; 3] = ["script", "file-a", "file-b"];

/// Whether a word can be a name.
fn is_name(word: &[u8]) -> bool {
    !word.is_empty() && word.iter().all(u8::is_ascii_graphic)
}

/// Puts where a line leaves the form of three names, and what stands there.
fn put_form(text: &mut String, line: &[u8]) -> Result<(), AllocError> {
    let (mut rest, mut column) = (line, 1_usize);
    for name in NAMES.as_slice() {
        let (found, behind) = split_at_first(rest, b' ');
        if !is_name(found) {
            write!(text, "column {column}: {name} is octets from ! to ~, not ")?;
            return put_found(text, found);
        }
        column = column.saturating_add(found.len()).saturating_add(1);
        rest = behind;
    }
    if rest.is_empty() {
        return write!(text, "column {}: nothing, not a space", line.len());
    }
    write!(text, "column {column}: nothing, not ")?;
    put_found(text, rest)
}

/// Puts what is wrong in this line of a list.
fn put_list(text: &mut String, list: &[u8], line: u64) -> Result<(), AllocError> {
    if line > 64 {
        return text.push_str(": a list has 64 lines at most");
    }
    if list.is_empty() {
        return text.push_str(": a list has a line at least");
    }
    text.push_str(": ")?;
    put_form(text, line_at(list, line))
}

/// The script that a line of a list names.
fn script_at(list: &[u8], line: u64) -> &[u8] {
    let (script, _) = split_at_first(line_at(list, line), b' ');
    script
}

/// Puts what is wrong in a line of the script of a connection.
fn put_script(
    text: &mut String,
    rt: &HostRuntime,
    name: &[u8],
    line: u64,
    kind: ScriptKind,
) -> Result<(), AllocError> {
    write!(text, ": script line {line}: {}", kind.word())?;
    let Ok(name) = str::from_utf8(name) else {
        return Ok(());
    };
    let mut help = String::new(rt.alloc());
    let mut outside = FileOutside::new(rt, false);
    put_script_help(&mut help, rt.alloc(), &mut outside, name, line, kind)?;
    if help.is_empty() {
        return Ok(());
    }
    write!(text, ": {help}")
}

/// Puts which line of the list it is; line 0 is the list itself.
fn put_line(text: &mut String, line: u64) -> Result<(), AllocError> {
    if line == 0 {
        text.push_str("list")
    } else {
        write!(text, "list line {line}")
    }
}

/// Puts what helps with this list.
fn put_help_of_list(
    text: &mut String,
    rt: &HostRuntime,
    list: &[u8],
    many: &Many,
) -> Result<(), AllocError> {
    match *many {
        Many::List { line } => {
            put_line(text, line)?;
            put_list(text, list, line)
        }
        Many::Script { entry, line, kind } => {
            let at = u64::from(entry).saturating_add(1);
            put_line(text, at)?;
            put_script(text, rt, script_at(list, at), line, kind)
        }
        Many::Load { line } | Many::TooLong { line } => put_line(text, line),
        Many::SameToken { line, holder } => {
            put_line(text, line)?;
            write!(text, ": the seed gives the token of connection {holder}")
        }
        _ => Ok(()),
    }
}

/// Puts what helps where a run of the connections of a list has ended so: which line of the list it is, and what is wrong there. Of a
/// list that can't be read again nothing is known but the line.
pub fn put_help_of_many(
    text: &mut String,
    rt: &HostRuntime,
    words: &[String],
    many: &Many,
) -> Result<(), AllocError> {
    let Some(name) = words.first() else {
        return Ok(());
    };
    match FileOutside::new(rt, false).load(rt.alloc(), name.as_str(), 65_536) {
        Ok(list) => put_help_of_list(text, rt, &list, many),
        Err(_) => match many {
            Many::Load { .. } | Many::TooLong { .. } => put_help_of_list(text, rt, b"", many),
            _ => Ok(()),
        },
    }
}
