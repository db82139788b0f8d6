//! The lines of a list.

ghost use Rattle.std.specs.Prelude.{◌≡◌, ◌<◌, ◌≤◌, ◌∷◌, ◌==◌, [], IfOk, IsTrue, OnOk, length, map, option_map};
ghost use Rattle.std.specs.List.{list_all, slice_split};
ghost use Rattle.octet_text.specs.Lines.{text_lines};
ghost use Rattle.connection_table.specs.Lists.{IsReading, as_names, is_name, is_name_octet, line_reading, list_reading, names_by, names_in, read_on};
ghost use Rattle.connection_table.specs.declared.list.ListFault.TheVariants.{Memory};

use octet_text::split_line;
use std::alloc::{AllocError, AllocFailed, Global};
use std::str;

/// How many connections share a listener at most.
pub(crate) const MOST_CONNECTIONS: usize = 64;

/// A connection of a list: the names of its script and of both files.
#[derive(Clone, Copy)]
pub(crate) struct Listed<'a> {
    /// The name of the script.
    pub script: &'a str,
    /// The name of what A sends.
    pub file_a: &'a str,
    /// The name of what B sends.
    pub file_b: &'a str,
}

/// Why a list wasn't read.
#[derive(Clone, Copy)]
pub(crate) enum ListFault {
    /// The first line that is out of form, counted from 1: line 65, however it is, and line 1 of an empty list.
    Line { line: u64 },
    /// Out of memory.
    Memory,
}

impl From<AllocError> for ListFault {
    ghost from_gives = { λ _ fault. fault ≡ Memory };

    fn from(_: AllocError) -> Self {
        ListFault::Memory
    }
}

impl<T: Drop> From<AllocFailed<T>> for ListFault {
    ghost from_gives = { λ _ fault. fault ≡ Memory };

    fn from(_: AllocFailed<T>) -> Self {
        ListFault::Memory
    }
}

fn is_name_octet(octet: u8) -> bool
    ensures { result ≡ is_name_octet octet }
{
    (0x21..=0x7E).contains(&octet)
}

fn are_name_octets(word: &[u8]) -> bool
    ensures { result ≡ list_all is_name_octet word.now }
{
    word.iter().all(|octet| is_name_octet(*octet))
}

fn is_name(word: &[u8]) -> bool
    ensures { result ≡ is_name word.now }
{
    !word.is_empty() && are_name_octets(word)
}

/// A name as text.
fn text_of(name: &[u8]) -> &str
    requires { IsTrue (is_name name.now) }
    ensures { result.now ≡ name.entry.now }
{
    match str::from_utf8(name) {
        Ok(text) => text,
        Err(_) => unreachable!(),
    }
}

/// The words of a line: its parts between spaces.
fn words_of(alloc: Global, line: &[u8]) -> Result<Vec<&[u8]>, AllocError>
    ensures { IfOk result (λ words. map (λ w. w.now) words.items ≡
        slice_split (λ octet. octet == 32) line.entry.now) }
{
    line.split(|octet| *octet == b' ').collect(alloc)
}

/// A connection by three words, where they are names.
fn connection_of<'a>(script: &'a [u8], file_a: &'a [u8], file_b: &'a [u8]) -> Option<Listed<'a>>
    ensures { option_map as_names result ≡
        names_by (script.entry.now ∷ file_a.entry.now ∷ file_b.entry.now ∷ []) }
{
    if !(is_name(script) && is_name(file_a) && is_name(file_b)) {
        return None;
    }
    Some(Listed {
        script: text_of(script),
        file_a: text_of(file_a),
        file_b: text_of(file_b),
    })
}

/// The connection that these words tell; none where they aren't three names.
fn listed_by<'a>(words: &[&'a [u8]]) -> Option<Listed<'a>>
    ensures { option_map as_names result ≡ names_by (map (λ w. w.now) words.now) }
{
    match words {
        [script, file_a, file_b] => connection_of(script, file_a, file_b),
        _ => None,
    }
}

/// The connection that a line tells; none where it is out of form.
fn read_line(alloc: Global, line: &[u8]) -> Result<Option<Listed<'_>>, AllocError>
    ensures { IfOk result (λ read. option_map as_names read ≡ names_in line.entry.now) }
{
    let words = words_of(alloc, line)?;
    Ok(listed_by(&words))
}

/// The connection of the line with this number, counted from 1.
fn listed_at(alloc: Global, line: &[u8], number: u64) -> Result<Listed<'_>, ListFault>
    ensures exact { IsReading as_names result (line_reading number line.entry.now) }
    ensures few { OnOk result (number ≤ 64) }
{
    if number > MOST_CONNECTIONS as u64 {
        return Err(ListFault::Line { line: number });
    }
    match read_line(alloc, line)? {
        Some(connection) => Ok(connection),
        None => Err(ListFault::Line { line: number }),
    }
}

/// The connections of the lines of a list that isn't empty.
fn read_lines(alloc: Global, list: &[u8]) -> Result<Vec<Listed<'_>>, ListFault>
    ensures exact { IsReading (λ connections. map as_names connections.items) result
        (read_on 1 [] (text_lines list.entry.now)) }
    ensures few { IfOk result (λ connections. length connections.items ≤ 64) }
{
    let mut connections = Vec::new(alloc);
    let mut rest = list;
    let mut number = 1;
    while !rest.is_empty() {
        let (line, behind) = split_line(rest);
        connections.push(listed_at(alloc, line, number)?)?;
        rest = behind;
        number += 1;
    }
    Ok(connections)
}

/// The connections that a list tells, line by line: 1 to 64.
///
/// # Errors
///
/// `Line` exactly where a line is out of form, or there are none or more than 64, with the first such line. Else only
/// `Memory`.
pub(crate) fn read_list(alloc: Global, list: &[u8]) -> Result<Vec<Listed<'_>>, ListFault>
    ensures exact { IsReading (λ connections. map as_names connections.items) result
        (list_reading list.entry.now) }
    ensures few { IfOk result (λ connections. length connections.items ≤ 64) }
{
    if list.is_empty() {
        return Err(ListFault::Line { line: 1 });
    }
    read_lines(alloc, list)
}
