//! Writes a script.

ghost use Rattle.std.specs.Prelude.{◌≡◌, ◌∷◌, [], ◌++◌, map, Ok, OnOk, IfOk, string_bytes};
ghost use Rattle.std.specs.List.{flat_map};
ghost use Rattle.link_script.specs.Reading.{reading};
ghost use Rattle.link_script.specs.Scripts.{IsScript};
ghost use Rattle.link_script.specs.Words.{direction_word, switch_word};
ghost use Rattle.link_script.specs.declared.line.Line.TheVariants.{Header, Path, Event};
ghost use Rattle.link_script.specs.declared.script.ScriptLine.TheVariants.{OnSegment, OnDirection, StripAll, Prio};
ghost use Rattle.link_script.specs.Writing.{spaced, shown, behind, version_word, ended, seed_lines, checksum_lines, short_lines, buffer_lines, path_lines, event_lines, text_of};

use crate::limits::{DEFAULT_BUFFER, DEFAULT_SEED};
use crate::line::Line;
use crate::script::{Direction, Happens, Impairment, PathLine, Script, ScriptLine, Segment};
use crate::version::Version;
use sides::Side;
use std::alloc::{AllocError, Global};

fn direction_text(from: Side) -> &'static str
    ensures { result.now ≡ direction_word from }
{
    match from {
        Side::A => "ab",
        Side::B => "ba",
    }
}

fn version_text(version: Version) -> &'static str
    ensures { result.now ≡ version_word version }
{
    match version {
        Version::First => "1",
        Version::Second => "2",
    }
}

fn switch_text(on: bool) -> &'static str
    ensures { result.now ≡ switch_word on }
{
    if on { "on" } else { "off" }
}

/// A word of a line.
#[derive(Clone, Copy)]
pub enum Word {
    Text(&'static str),
    Number(u64),
}

fn put_word(text: &mut String, word: Word) -> Result<(), AllocError>
    ensures { OnOk result (string_bytes text.new ≡ string_bytes text.old ++ shown word) }
{
    match word {
        Word::Text(word) => text.push_str(word),
        Word::Number(number) => write!(text, "{number}"),
    }
}

/// Puts each word behind a space.
fn put_words(text: &mut String, words: &[Word]) -> Result<(), AllocError>
    ensures { OnOk result (string_bytes text.new ≡ string_bytes text.old ++ behind words.now) }
{
    for word in words {
        text.push_str(" ")?;
        put_word(text, *word)?;
    }
    Ok(())
}

/// Writes a line: its keyword, and the other words each behind a space.
#[tactic(auto, using(crate::proofs::Words::spaced_behind))]
fn put_spaced(text: &mut String, keyword: &str, words: &[Word]) -> Result<(), AllocError>
    ensures { OnOk result (string_bytes text.new ≡
        string_bytes text.old ++ (spaced (keyword.now ∷ map shown words.now) ++ 10 ∷ [])) }
{
    text.push_str(keyword)?;
    put_words(text, words)?;
    text.push_str("\n")
}

fn put_on_segment(text: &mut String, segment: Segment, happens: Happens) -> Result<(), AllocError>
    ensures { OnOk result (string_bytes text.new ≡
        string_bytes text.old ++ ended (Event (OnSegment segment happens))) }
{
    let path = Word::Number(u64::from(segment.path));
    let from = Word::Text(direction_text(segment.from));
    let number = Word::Number(u64::from(segment.number));
    match happens {
        Happens::Lost => put_spaced(text, "drop", &[path, from, number]),
        Happens::Late(ticks) => {
            let ticks = Word::Number(u64::from(ticks));
            put_spaced(text, "late", &[path, from, number, ticks])
        }
        Happens::Again(ticks) => {
            let ticks = Word::Number(u64::from(ticks));
            put_spaced(text, "dup", &[path, from, number, ticks])
        }
        Happens::Stripped => put_spaced(text, "strip", &[path, from, number]),
        Happens::Altered => put_spaced(text, "alter", &[path, from, number]),
    }
}

fn put_on_direction(
    text: &mut String,
    direction: Direction,
    impairment: Impairment,
) -> Result<(), AllocError>
    ensures { OnOk result (string_bytes text.new ≡
        string_bytes text.old ++ ended (Event (OnDirection direction impairment))) }
{
    let path = Word::Number(u64::from(direction.path));
    let from = Word::Text(direction_text(direction.from));
    match impairment {
        Impairment::Rate { octets, queue } => {
            let octets = Word::Number(u64::from(octets));
            let queue = Word::Number(u64::from(queue));
            put_spaced(text, "rate", &[path, from, octets, queue])
        }
        Impairment::Loss(parts) => {
            let parts = Word::Number(u64::from(parts));
            put_spaced(text, "loss", &[path, from, parts])
        }
        Impairment::Jitter(ticks) => {
            let ticks = Word::Number(u64::from(ticks));
            put_spaced(text, "jitter", &[path, from, ticks])
        }
    }
}

fn put_strip_all(text: &mut String, path: u8, from: Side, tick: u64) -> Result<(), AllocError>
    ensures { OnOk result (string_bytes text.new ≡
        string_bytes text.old ++ ended (Event (StripAll path from tick))) }
{
    let path = Word::Number(u64::from(path));
    let from = Word::Text(direction_text(from));
    put_spaced(text, "strip-all", &[path, from, Word::Number(tick)])
}

fn put_prio(text: &mut String, path: u8, side: Side, tick: u64, on: bool) -> Result<(), AllocError>
    ensures { OnOk result (string_bytes text.new ≡
        string_bytes text.old ++ ended (Event (Prio path side tick on))) }
{
    let path = Word::Number(u64::from(path));
    let side = Word::Text(side.word());
    let on = Word::Text(switch_text(on));
    put_spaced(text, "prio", &[path, side, Word::Number(tick), on])
}

fn put_event(text: &mut String, event: ScriptLine) -> Result<(), AllocError>
    ensures { OnOk result (string_bytes text.new ≡ string_bytes text.old ++ ended (Event event)) }
{
    match event {
        ScriptLine::OnSegment(segment, happens) => put_on_segment(text, segment, happens),
        ScriptLine::OnDirection(direction, impairment) => {
            put_on_direction(text, direction, impairment)
        }
        ScriptLine::StripAll { path, from, tick } => put_strip_all(text, path, from, tick),
        ScriptLine::Die { path, tick } => {
            let path = Word::Number(u64::from(path));
            put_spaced(text, "die", &[path, Word::Number(tick)])
        }
        ScriptLine::Prio {
            path,
            side,
            tick,
            on,
        } => put_prio(text, path, side, tick, on),
        ScriptLine::Add { id, tick } => {
            let id = Word::Number(u64::from(id));
            put_spaced(text, "add", &[Word::Text("b"), id, Word::Number(tick)])
        }
        ScriptLine::Remove { side, id, tick } => {
            let id = Word::Number(u64::from(id));
            let side = Word::Text(side.word());
            put_spaced(text, "remove", &[side, id, Word::Number(tick)])
        }
        ScriptLine::FastClose { side, tick } => {
            let side = Word::Text(side.word());
            put_spaced(text, "fastclose", &[side, Word::Number(tick)])
        }
    }
}

fn put_path(text: &mut String, index: u64, path: PathLine) -> Result<(), AllocError>
    ensures { OnOk result (string_bytes text.new ≡
        string_bytes text.old ++ ended (Path index path)) }
{
    let index = Word::Number(index);
    let (a, mss) = (Word::Text("mss"), Word::Number(u64::from(path.mss)));
    let (b, delay) = (Word::Text("delay"), Word::Number(u64::from(path.delay)));
    let (c, join) = (Word::Text("join"), Word::Number(path.join));
    let d = Word::Text("backup");
    match (path.join, path.backup) {
        (0, false) => put_spaced(text, "path", &[index, a, mss, b, delay]),
        (0, true) => put_spaced(text, "path", &[index, a, mss, b, delay, d]),
        (_, false) => put_spaced(text, "path", &[index, a, mss, b, delay, c, join]),
        (_, true) => put_spaced(text, "path", &[index, a, mss, b, delay, c, join, d]),
    }
}

fn put_header(text: &mut String, version: Version) -> Result<(), AllocError>
    ensures { OnOk result (string_bytes text.new ≡
        string_bytes text.old ++ ended (Header version)) }
{
    let version = Word::Text(version_text(version));
    put_spaced(text, "mptcp-script", &[version])
}

/// Writes a line, with its LF.
fn put(text: &mut String, line: &Line) -> Result<(), AllocError>
    ensures { OnOk result (string_bytes text.new ≡ string_bytes text.old ++ ended line.now) }
{
    match *line {
        Line::Header(version) => put_header(text, version),
        Line::Seed(seed) => put_spaced(text, "seed", &[Word::Number(seed)]),
        Line::Checksum(on) => put_spaced(text, "checksum", &[Word::Text(switch_text(on))]),
        Line::Short(on) => put_spaced(text, "short", &[Word::Text(switch_text(on))]),
        Line::Buffer(octets) => put_spaced(text, "buffer", &[Word::Number(octets)]),
        Line::Path { index, line } => put_path(text, index, line),
        Line::Event(event) => put_event(text, event),
        Line::End => put_spaced(text, "end", &[]),
    }
}

fn put_seed(text: &mut String, seed: u64) -> Result<(), AllocError>
    ensures { OnOk result (string_bytes text.new ≡
        string_bytes text.old ++ flat_map ended (seed_lines seed)) }
{
    if seed == DEFAULT_SEED {
        return Ok(());
    }
    put(text, &Line::Seed(seed))
}

fn put_checksum(text: &mut String, checksum: bool) -> Result<(), AllocError>
    ensures { OnOk result (string_bytes text.new ≡
        string_bytes text.old ++ flat_map ended (checksum_lines checksum)) }
{
    if !checksum {
        return Ok(());
    }
    put(text, &Line::Checksum(true))
}

fn put_short(text: &mut String, short: bool) -> Result<(), AllocError>
    ensures { OnOk result (string_bytes text.new ≡
        string_bytes text.old ++ flat_map ended (short_lines short)) }
{
    if !short {
        return Ok(());
    }
    put(text, &Line::Short(true))
}

fn put_buffer(text: &mut String, buffer: u64) -> Result<(), AllocError>
    ensures { OnOk result (string_bytes text.new ≡
        string_bytes text.old ++ flat_map ended (buffer_lines buffer)) }
{
    if buffer == DEFAULT_BUFFER {
        return Ok(());
    }
    put(text, &Line::Buffer(buffer))
}

fn put_paths(text: &mut String, paths: &[PathLine]) -> Result<(), AllocError>
    ensures { OnOk result (string_bytes text.new ≡
        string_bytes text.old ++ flat_map ended (path_lines 0 paths.now)) }
{
    for (i, path) in paths.iter().enumerate() {
        let line = *path;
        let index = i as u64;
        put(text, &Line::Path { index, line })?;
    }
    Ok(())
}

fn put_events(text: &mut String, events: &[ScriptLine]) -> Result<(), AllocError>
    ensures { OnOk result (string_bytes text.new ≡
        string_bytes text.old ++ flat_map ended (event_lines events.now)) }
{
    for event in events {
        put(text, &Line::Event(*event))?;
    }
    Ok(())
}

fn write_script(alloc: Global, script: &Script) -> Result<Vec<u8>, AllocError>
    ensures { IfOk result (λ text. text.items ≡ text_of script.now) }
{
    let mut text = String::new(alloc);
    let version = Version::of(script.lines.as_slice());
    put(&mut text, &Line::Header(version))?;
    put_seed(&mut text, script.seed)?;
    put_checksum(&mut text, script.checksum)?;
    put_short(&mut text, script.short)?;
    put_buffer(&mut text, script.buffer)?;
    put_paths(&mut text, script.paths.as_slice())?;
    put_events(&mut text, script.lines.as_slice())?;
    put(&mut text, &Line::End)?;
    Ok(text.into_bytes())
}

/// Writes the one text of a script: each line ends with LF, numbers have no leading zeros, and what is so by default
/// is left out.
pub fn text(alloc: Global, script: &Script) -> Result<Vec<u8>, AllocError>
    ensures exact { IfOk result (λ text. text.items ≡ text_of script.now) }
    // Where some text says the script, this one does.
    ensures again { IsScript script.now → IfOk result (λ text. reading text.items ≡ Ok script.now) }
{
    write_script(alloc, script)
}
