//! Reads a script.

ghost use Rattle.std.specs.Prelude.{◌≡◌, ◌≤◌, [], map, OnOk, IfOk};
ghost use Rattle.octet_text.specs.Lines.{text_lines};
ghost use Rattle.link_script.specs.Ranges.{most_lines};
ghost use Rattle.link_script.specs.Scripts.{HasRanges};
ghost use Rattle.link_script.specs.Reading.{Gives, first_line, in_place, version_told, later_line, next_line, at_line, seen_after, read_on, blank, with_line, script_of, reading};

use crate::fault::{ScriptFault, ScriptKind};
use crate::limits::{DEFAULT_BUFFER, DEFAULT_SEED, MOST_LINES};
use crate::line::{Line, read_line};
use crate::lists::{PathLines, ScriptLines};
use crate::script::Script;
use crate::seen::Seen;
use crate::version::Version;
use crate::word::{is_passed_over, split_words};
use octet_text::split_line;
use std::alloc::{AllocError, Global};

/// The first line, neither empty nor a comment, of a script of the first version.
const FIRST_HEADER: &[u8] = b"mptcp-script 1";

/// That of a script of the second version.
const SECOND_HEADER: &[u8] = b"mptcp-script 2";

fn read_first(text: &[u8]) -> Result<Line, ScriptKind>
    ensures { result ≡ first_line text.now }
{
    if text == FIRST_HEADER {
        Ok(Line::Header(Version::First))
    } else if text == SECOND_HEADER {
        Ok(Line::Header(Version::Second))
    } else {
        Err(ScriptKind::Header)
    }
}

/// Whether a line may stand after these lines.
fn place(seen: &Seen, line: Line) -> Result<Line, ScriptKind>
    ensures { result ≡ in_place seen.now line }
{
    if seen.is_out_of_order(&line) {
        return Err(ScriptKind::Order);
    }
    if seen.is_repeated(&line) {
        return Err(ScriptKind::Repeated);
    }
    Ok(line)
}

/// The version that the first line tells.
fn version_told(seen: &[Line]) -> Version
    ensures { result ≡ version_told seen.now }
{
    match seen {
        [Line::Header(version), ..] => *version,
        _ => Version::First,
    }
}

#[tactic(auto, unfolding(crate::specs::Reading::later_line))]
fn read_later(seen: &Seen, words: &[&[u8]]) -> Result<Line, ScriptKind>
    ensures { result ≡ later_line seen.now (map (λ word. word.now) words.now) }
{
    place(seen, read_line(version_told(seen.as_slice()), words)?)
}

/// The line with this number, after these lines.
fn read_numbered(alloc: Global, number: u64, seen: &Seen, text: &[u8]) -> Result<Line, ScriptFault>
    ensures { Gives (λ line. line) result (at_line number (next_line seen.now text.now)) }
{
    let outcome = match seen.as_slice() {
        [] => read_first(text),
        _ => read_later(seen, &split_words(alloc, text)?),
    };
    match outcome {
        Ok(line) => Ok(line),
        Err(kind) => Err(ScriptFault::Line { line: number, kind }),
    }
}

/// Adds the line with this number to the lines before it, unless it is passed over.
#[tactic(auto, unfolding(crate::specs::Reading::seen_after))]
fn take_line(alloc: Global, number: u64, seen: &mut Seen, text: &[u8]) -> Result<(), ScriptFault>
    ensures exact { Gives (λ _. seen.new) result (seen_after number seen.old text.now) }
    ensures few { OnOk result (number ≤ most_lines) }
{
    if number > MOST_LINES {
        let kind = ScriptKind::TooMany;
        return Err(ScriptFault::Line { line: number, kind });
    }
    if !is_passed_over(text) {
        let line = read_numbered(alloc, number, seen, text)?;
        seen.push(line)?;
    }
    Ok(())
}

/// Reads all lines.
fn read_lines(alloc: Global, text: &[u8]) -> Result<Seen, ScriptFault>
    ensures { Gives (λ seen. seen) result (read_on 1 [] (text_lines text.now)) }
{
    let mut seen = Seen::new(alloc);
    let mut number = 1;
    let mut rest = text;
    while !rest.is_empty() {
        let (line, after) = split_line(rest);
        take_line(alloc, number, &mut seen, line)?;
        number += 1;
        rest = after;
    }
    if !seen.has_ended() {
        let kind = ScriptKind::Missing;
        return Err(ScriptFault::Line { line: number, kind });
    }
    Ok(seen)
}

fn blank(alloc: Global) -> Script
    ensures { result ≡ blank }
{
    Script {
        seed: DEFAULT_SEED,
        checksum: false,
        short: false,
        buffer: DEFAULT_BUFFER,
        paths: PathLines::from(Vec::new(alloc)),
        lines: ScriptLines::from(Vec::new(alloc)),
    }
}

/// Adds what a line says.
fn add(script: &mut Script, line: &Line) -> Result<(), AllocError>
    ensures { OnOk result (script.new ≡ with_line script.old line.now) }
{
    match *line {
        Line::Header(_) | Line::End => {}
        Line::Seed(seed) => script.seed = seed,
        Line::Checksum(on) => script.checksum = on,
        Line::Short(on) => script.short = on,
        Line::Buffer(octets) => script.buffer = octets,
        Line::Path { line, .. } => script.paths.push(line)?,
        Line::Event(event) => script.lines.push(event)?,
    }
    Ok(())
}

/// What the lines say together.
fn assemble(alloc: Global, lines: &[Line]) -> Result<Script, AllocError>
    ensures { IfOk result (λ script. script ≡ script_of lines.now) }
{
    let mut script = blank(alloc);
    for line in lines {
        add(&mut script, line)?;
    }
    Ok(script)
}

#[tactic(auto, unfolding(crate::specs::Reading::reading))]
fn read_script(alloc: Global, bytes: &[u8]) -> Result<Script, ScriptFault>
    ensures { Gives (λ script. script) result (reading bytes.now) }
{
    let lines = read_lines(alloc, bytes)?;
    Ok(assemble(alloc, lines.as_slice())?)
}

/// Reads a script, or says which line is refused first, and why.
///
/// Lines end with LF, and a last line may lack it. Empty lines and lines that begin with `#` are passed over, and are
/// counted like the others. Every octet is allowed, and every text is answered.
pub fn parse(alloc: Global, bytes: &[u8]) -> Result<Script, ScriptFault>
    // The script that the text says or its first fault, unless memory ran out.
    ensures exact { Gives (λ script. script) result (reading bytes.now) }
    ensures ranges { IfOk result HasRanges }
{
    read_script(alloc, bytes)
}
