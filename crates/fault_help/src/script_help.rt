//! Where a refused line of a script leaves its form, and what stands there.

ghost use Rattle.run_outside.specs.Ports.{IsUntouched};

use crate::words::{line_at, number_of, put_found, put_word};
use link_script::ScriptKind;
use outside_kit::Outside;
use run_outside::split_at_first;
use std::alloc::{AllocError, Global};

/// A number that stands in a line, and its range.
#[derive(Clone, Copy)]
struct Slot {
    name: &'static str,
    least: u64,
    most: u64,
}

/// Where a line leaves its form.
#[derive(Clone, Copy)]
struct Fault<'a> {
    /// The first octet of the line is in column 1.
    column: usize,
    /// The word of the form that stands there, empty behind its last one.
    wanted: &'static [u8],
    /// The word of the line, empty behind its last one.
    found: &'a [u8],
}

/// The forms of lines by their first word: words that stand as they are, with `/` between two choices, and names of numbers.
fn form_of(keyword: &[u8], is_joined: bool) -> Option<&'static [u8]> {
    match keyword {
        b"mptcp-script" => Some(b"mptcp-script 1/2"),
        b"seed" => Some(b"seed SEED"),
        b"checksum" => Some(b"checksum on/off"),
        b"short" => Some(b"short on/off"),
        b"buffer" => Some(b"buffer OCTETS"),
        b"path" => Some(if is_joined {
            b"path I mss MSS delay DELAY join TICK backup/"
        } else {
            b"path I mss MSS delay DELAY backup/"
        }),
        b"prio" => Some(b"prio I a/b TICK on/off"),
        b"add" => Some(b"add b ID TICK"),
        b"remove" => Some(b"remove a/b ID TICK"),
        b"fastclose" => Some(b"fastclose a/b TICK"),
        b"die" => Some(b"die I TICK"),
        b"end" => Some(b"end"),
        _ => segment_form_of(keyword),
    }
}

/// The forms of lines that scripts of version 2 alone have.
fn second_form_of(keyword: &[u8]) -> Option<&'static [u8]> {
    match keyword {
        b"rate" => Some(b"rate I ab/ba RATE QUEUE"),
        b"loss" => Some(b"loss I ab/ba PARTS"),
        b"jitter" => Some(b"jitter I ab/ba TICKS"),
        _ => None,
    }
}

/// Why a line is refused that has its form.
fn place_of(keyword: &[u8]) -> &'static str {
    match keyword {
        b"mptcp-script" => "column 1: the first line alone begins with mptcp-script",
        b"rate" | b"loss" | b"jitter" => "column 1: mptcp-script 2 alone has such lines",
        b"alter" => "column 1: a script of a list has no such lines",
        _ => "",
    }
}

/// The forms of lines on segments.
fn segment_form_of(keyword: &[u8]) -> Option<&'static [u8]> {
    match keyword {
        b"drop" => Some(b"drop I ab/ba N"),
        b"strip" => Some(b"strip I ab/ba N"),
        b"alter" => Some(b"alter I ab/ba N"),
        b"late" => Some(b"late I ab/ba N TICKS"),
        b"dup" => Some(b"dup I ab/ba N TICKS"),
        b"strip-all" => Some(b"strip-all I ab/ba TICK"),
        _ => second_form_of(keyword),
    }
}

/// The number of this name.
fn slot_of(name: &[u8]) -> Option<Slot> {
    let (name, least, most) = match name {
        b"SEED" => ("seed", 0, u64::MAX),
        b"OCTETS" => ("buffer", 4_096, 1_048_576),
        b"I" => ("path", 0, 15),
        b"MSS" => ("mss", 200, 1_460),
        b"DELAY" => ("delay", 1, 200),
        b"N" => ("segment", 1, 1_000_000),
        b"TICK" => ("tick", 0, 6_553_599),
        b"TICKS" => ("ticks", 0, 100_000),
        b"ID" => ("identifier", 0, 255),
        b"RATE" => ("rate", 10, 1_000_000),
        b"QUEUE" => ("queue", 1_500, 1_000_000),
        b"PARTS" => ("parts of a million", 0, 1_000_000),
        _ => return None,
    };
    Some(Slot { name, least, most })
}

/// Whether a word is one of two that stand with `/` between them.
fn is_choice(word: &[u8], choices: &[u8]) -> bool {
    let (first, others) = split_at_first(choices, b'/');
    let (second, _) = split_at_first(others, b'/');
    word == first || word == second
}

/// Whether a word can stand where this word of a form does.
fn has_form(word: &[u8], wanted: &[u8]) -> bool {
    let Some(slot) = slot_of(wanted) else {
        return is_choice(word, wanted);
    };
    match number_of(word) {
        Some(number) => word.len() <= 20 && slot.least <= number && number <= slot.most,
        None => false,
    }
}

/// The first word of a line that isn't as its form has it.
fn fault_in<'a>(line: &'a [u8], form: &'static [u8]) -> Option<Fault<'a>> {
    let (mut rest, mut left, mut column) = (line, form, 1_usize);
    // No form has more than nine words.
    for _ in 0..9 {
        let (found, behind) = split_at_first(rest, b' ');
        let (wanted, others) = split_at_first(left, b' ');
        if !has_form(found, wanted) {
            return Some(Fault {
                column,
                wanted,
                found,
            });
        }
        column = column.saturating_add(found.len()).saturating_add(1);
        rest = behind;
        left = others;
    }
    None
}

/// What stands in a fault's place, and what is there.
fn put_fault(text: &mut String, fault: &Fault<'_>) -> Result<(), AllocError> {
    write!(text, "column {}: ", fault.column)?;
    match slot_of(fault.wanted) {
        Some(slot) => write!(text, "{} is {} to {}", slot.name, slot.least, slot.most)?,
        None => {
            if fault.wanted.is_empty() {
                text.push_str("nothing")?;
            } else {
                put_word(text, fault.wanted)?;
            }
        }
    }
    text.push_str(", not ")?;
    put_found(text, fault.found)
}

/// Of a line that begins with this word.
fn put_keyword(text: &mut String, keyword: &[u8]) -> Result<(), AllocError> {
    text.push_str("column 1: no line begins with ")?;
    if keyword.is_empty() {
        return text.push_str("a space");
    }
    put_word(text, keyword)
}

/// Of a line whose words or numbers are refused.
fn put_form(text: &mut String, line: &[u8]) -> Result<(), AllocError> {
    let (keyword, behind) = split_at_first(line, b' ');
    let is_joined = line.windows(6).any(|part| part == b" join ".as_slice());
    let Some(form) = form_of(keyword, is_joined) else {
        return put_keyword(text, keyword);
    };
    match fault_in(line, form) {
        Some(fault) => put_fault(text, &fault),
        None if line.ends_with(b" ") => write!(text, "column {}: nothing, not a space", line.len()),
        None => text.push_str(place_of(keyword)),
    }
}

/// Puts what helps with the text of a script that is refused at this line.
fn put_help(
    text: &mut String,
    script: &[u8],
    line: u64,
    kind: ScriptKind,
) -> Result<(), AllocError> {
    match kind {
        ScriptKind::TooMany => text.push_str("a script has 4,096 lines at most"),
        ScriptKind::Header => text.push_str("the first line is mptcp-script 1 or mptcp-script 2"),
        ScriptKind::Order => text.push_str(
            "settings, then paths in order from 0, then lines on these paths, then end",
        ),
        ScriptKind::Repeated => text.push_str("a line before it settles the same"),
        ScriptKind::Missing => text.push_str("the last line is end"),
        ScriptKind::Word | ScriptKind::Number => put_form(text, line_at(script, line)),
    }
}

/// Puts what helps with the script of this name, which is refused at this line: where the line leaves its form and what stands there, or
/// what the kind means. Nothing is put where the script can't be read again. No port is
/// touched.
pub fn put_script_help<O: Outside>(
    text: &mut String,
    alloc: Global,
    outside: &mut O,
    name: &str,
    line: u64,
    kind: ScriptKind,
) -> Result<(), AllocError>
    ensures { IsUntouched (O.told outside.old) (O.told outside.new) }
{
    match outside.load(alloc, name, 65_536) {
        Ok(script) => put_help(text, &script, line, kind),
        Err(_) => Ok(()),
    }
}
