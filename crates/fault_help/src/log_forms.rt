//! Where a refused line of a log leaves its form, and what stands there.

use crate::words::{number_of, put_found};
use link_script::{Script, is_numeral};
use octet_text::{are_digits, split_line};
use run_outside::{split_at_first, width_of};
use std::alloc::AllocError;

/// What may stand next in a log.
#[derive(Clone, Copy)]
enum Place {
    Format,
    Width,
    Keys,
    /// A step, the end of the round with this number or, directly behind the end of a round, the outcome.
    Turns { round: u64, may_end: bool },
    Nothing,
}

/// A word of a line's form.
#[derive(Clone, Copy)]
enum Wanted {
    Fixed(&'static str),
    Format,
    Width(u64),
    Key,
    /// That of a step; beside it a line may be a round's end, or the outcome.
    Stamp { may_end: bool },
    /// The number of an actor, this one at most.
    Actor(u64),
    Object,
    /// What is asked and answered.
    Words,
    Round(u64),
    Outcome,
}

/// Where a line leaves its form.
#[derive(Clone, Copy)]
struct Fault<'a> {
    /// The first octet of the line is in column 1.
    column: usize,
    wanted: Wanted,
    /// What stands there, empty behind the line.
    found: &'a [u8],
}

/// What may stand behind a line that has its form.
fn place_behind(place: Place, line: &[u8]) -> Place {
    match place {
        Place::Format => {
            if line == b"mptcp-log 1".as_slice() {
                Place::Keys
            } else {
                Place::Width
            }
        }
        Place::Width => Place::Keys,
        Place::Keys => Place::Turns {
            round: 0,
            may_end: false,
        },
        Place::Turns { round, .. } => place_behind_turn(round, line),
        Place::Nothing => Place::Nothing,
    }
}

/// What may stand behind a line of this round.
fn place_behind_turn(round: u64, line: &[u8]) -> Place {
    let (first, _) = split_at_first(line, b' ');
    match first {
        b"round" => Place::Turns {
            round: round.saturating_add(1),
            may_end: true,
        },
        b"outcome" => Place::Nothing,
        _ => Place::Turns {
            round,
            may_end: false,
        },
    }
}

/// What may stand at the line of this number, the first being 1, and the text from there on.
fn place_at(log: &[u8], line: u64) -> (Place, &[u8]) {
    let (mut place, mut rest) = (Place::Format, log);
    for _ in 1..line {
        if rest.is_empty() {
            return (place, rest);
        }
        let (told, behind) = split_line(rest);
        place = place_behind(place, told);
        rest = behind;
    }
    (place, rest)
}

/// A number without leading zeros.
fn is_plain(word: &[u8], number: u64) -> bool {
    let is_short = word.len() == 1 || !word.starts_with(b"0");
    is_short && number_of(word) == Some(number)
}

/// A number of digits, this one at most.
fn is_up_to(word: &[u8], most: u64) -> bool {
    if !are_digits(word) {
        return false;
    }
    match number_of(word) {
        Some(number) => number <= most,
        None => false,
    }
}

fn is_object(word: &[u8]) -> bool {
    matches!(word, b"sa" | b"sb" | b"ra" | b"rb" | b"ca" | b"cb" | b"me")
}

fn is_outcome(word: &[u8]) -> bool {
    matches!(word, b"delivered" | b"rounds" | b"no-path" | b"aborted")
}

fn is_printable(octet: u8) -> bool {
    matches!(octet, b' '..=b'~')
}

fn is_key(word: &[u8]) -> bool {
    word.len() == 16
        && word
            .iter()
            .all(|octet| matches!(octet, b'0'..=b'9' | b'a'..=b'f'))
}

fn are_words(words: &[u8]) -> bool {
    !words.is_empty() && words.len() <= 400 && words.iter().all(|octet| is_printable(*octet))
}

/// Whether a word can stand where this word of a form does.
fn has_form(word: &[u8], wanted: Wanted) -> bool {
    match wanted {
        Wanted::Fixed(fixed) => word == fixed.as_bytes(),
        Wanted::Format => matches!(word, b"1" | b"2"),
        Wanted::Width(number) | Wanted::Round(number) => is_plain(word, number),
        Wanted::Key => is_key(word),
        Wanted::Stamp { .. } => is_numeral(word),
        Wanted::Actor(most) => is_up_to(word, most),
        Wanted::Object => is_object(word),
        Wanted::Words => are_words(word),
        Wanted::Outcome => is_outcome(word),
    }
}

/// The first word of a text, or where the form's last word stands, all of it; and what stands behind it.
fn word_of(text: &[u8], is_last: bool) -> (&[u8], &[u8]) {
    if is_last {
        (text, &[])
    } else {
        split_at_first(text, b' ')
    }
}

/// The first word of a line that isn't as its form has it.
fn fault_in<'a>(line: &'a [u8], form: &[Wanted]) -> Option<Fault<'a>> {
    let (mut rest, mut left, mut column) = (line, form.len(), 1_usize);
    for wanted in form {
        left = left.saturating_sub(1);
        let (found, behind) = word_of(rest, left == 0);
        if !has_form(found, *wanted) {
            return Some(Fault {
                column,
                wanted: *wanted,
                found,
            });
        }
        column = column.saturating_add(found.len()).saturating_add(1);
        rest = behind;
    }
    None
}

/// How many octets stand before the first that is none of a step's words.
fn count_of_words(words: &[u8]) -> usize {
    let mut count = 0_usize;
    for octet in words.iter().take(400) {
        if !is_printable(*octet) {
            return count;
        }
        count = count.saturating_add(1);
    }
    count
}

/// Of a step's words the octet that can't stand there.
fn narrowed(fault: Fault<'_>) -> Fault<'_> {
    let Wanted::Words = fault.wanted else {
        return fault;
    };
    let at = count_of_words(fault.found).min(fault.found.len());
    Fault {
        column: fault.column.saturating_add(at),
        wanted: fault.wanted,
        found: &fault.found[at..],
    }
}

fn put_wanted(text: &mut String, wanted: Wanted) -> Result<(), AllocError> {
    match wanted {
        Wanted::Fixed(fixed) => text.push_str(fixed),
        Wanted::Format => text.push_str("format is 1/2"),
        Wanted::Width(width) => write!(text, "width is {width}"),
        Wanted::Key => text.push_str("key is 16 of 0 to 9 and a to f"),
        Wanted::Stamp { may_end: false } => text.push_str("stamp of 1 to 20 digits or round"),
        Wanted::Stamp { may_end: true } => {
            text.push_str("stamp of 1 to 20 digits, round or outcome")
        }
        Wanted::Actor(most) => write!(text, "actor is 0 to {most}"),
        Wanted::Object => text.push_str("object is sa/sb/ra/rb/ca/cb/me"),
        Wanted::Words => text.push_str("words are 1 to 400 octets from space to ~"),
        Wanted::Round(round) => write!(text, "round is {round}"),
        Wanted::Outcome => text.push_str("outcome is delivered/rounds/no-path/aborted"),
    }
}

/// Where a line leaves this form, what stands in the fault's place, and what is there.
fn put_fault(text: &mut String, line: &[u8], form: &[Wanted]) -> Result<(), AllocError> {
    let Some(fault) = fault_in(line, form) else {
        return Ok(());
    };
    let fault = narrowed(fault);
    write!(text, "column {}: ", fault.column)?;
    put_wanted(text, fault.wanted)?;
    text.push_str(", not ")?;
    put_found(text, fault.found)
}

/// Of a line that is no turn of this round.
fn put_turn_fault(
    text: &mut String,
    line: &[u8],
    most: u64,
    round: u64,
    may_end: bool,
) -> Result<(), AllocError> {
    let (first, _) = split_at_first(line, b' ');
    if first == b"round".as_slice() {
        return put_fault(text, line, &[Wanted::Fixed("round"), Wanted::Round(round)]);
    }
    if may_end && first == b"outcome".as_slice() {
        return put_fault(text, line, &[Wanted::Fixed("outcome"), Wanted::Outcome]);
    }
    let form = [
        Wanted::Stamp { may_end },
        Wanted::Actor(most),
        Wanted::Object,
        Wanted::Words,
    ];
    put_fault(text, line, &form)
}

/// Of a line that can't stand at this place.
fn put_place_fault(
    text: &mut String,
    script: &Script,
    place: Place,
    line: &[u8],
) -> Result<(), AllocError> {
    match place {
        Place::Format => put_fault(text, line, &[Wanted::Fixed("mptcp-log"), Wanted::Format]),
        Place::Width => {
            let width = Wanted::Width(u64::from(width_of(script)));
            put_fault(text, line, &[Wanted::Fixed("width"), width])
        }
        Place::Keys => put_fault(
            text,
            line,
            &[Wanted::Fixed("keys"), Wanted::Key, Wanted::Key],
        ),
        Place::Turns { round, may_end } => {
            let most = script.paths.as_slice().len() as u64;
            put_turn_fault(text, line, most.saturating_add(1), round, may_end)
        }
        Place::Nothing => text.push_str("nothing stands behind the outcome"),
    }
}

/// Of a log that ends where something has to stand.
fn put_end_fault(text: &mut String, script: &Script, place: Place) -> Result<(), AllocError> {
    match place {
        Place::Turns { .. } => text.push_str("the last line is outcome"),
        _ => put_place_fault(text, script, place, b""),
    }
}

/// Puts where the first line of a log that is refused leaves its form, and what stands there.
pub fn put_form_fault(
    text: &mut String,
    script: &Script,
    log: &[u8],
    line: u64,
) -> Result<(), AllocError> {
    let (place, rest) = place_at(log, line);
    if rest.is_empty() {
        return put_end_fault(text, script, place);
    }
    let (refused, _) = split_line(rest);
    put_place_fault(text, script, place, refused)
}
