//! Lines and words of a text, and how a word is shown.

ghost use Rattle.std.specs.Prelude.{◌≡◌, ◌++◌, OnOk, drop, map, string_bytes, take};
ghost use Rattle.octet_text.specs.Lines.{text_lines};
ghost use Rattle.fault_help.specs.Words.{first_of, found_words, line_at, shown, shown_octet};

use octet_text::split_line;
use std::alloc::AllocError;

/// The text behind its first line.
pub(crate) fn behind_line(text: &[u8]) -> &[u8]
    ensures { text_lines result.now ≡ drop 1 (text_lines text.now) }
{
    if text.is_empty() {
        return text;
    }
    let (_, behind) = split_line(text);
    behind
}

/// The text behind so many lines.
pub(crate) fn behind_lines(text: &[u8], count: u64) -> &[u8]
    ensures { text_lines result.now ≡ drop count (text_lines text.now) }
{
    let mut rest = text;
    for index in 0..count {
        rest = behind_line(rest);
    }
    rest
}

/// The first line of a text; empty where there is none.
fn first_line(text: &[u8]) -> &[u8]
    ensures { result.now ≡ first_of (text_lines text.now) }
{
    if text.is_empty() {
        return text;
    }
    let (line, _) = split_line(text);
    line
}

/// The line of this number, the first being 1; empty where there is none.
#[tactic(auto, unfolding(crate::specs::Words::line_at))]
pub fn line_at(text: &[u8], number: u64) -> &[u8]
    ensures { result.now ≡ line_at number text.now }
{
    first_line(behind_lines(text, number.saturating_sub(1)))
}

/// A number of digits alone, if it is below 2^64.
pub(crate) fn number_of(word: &[u8]) -> Option<u64> {
    let mut number = 0_u64;
    for digit in word {
        if !digit.is_ascii_digit() {
            return None;
        }
        number = number
            .checked_mul(10)?
            .checked_add(u64::from(*digit - b'0'))?;
    }
    if word.is_empty() { None } else { Some(number) }
}

/// How an octet is shown.
fn shown_octet(octet: u8) -> char
    ensures { result ≡ shown_octet octet }
{
    if octet.is_ascii_graphic() {
        char::from(octet)
    } else {
        '?'
    }
}

/// Puts octets as they are shown.
fn put_octets(text: &mut String, octets: &[u8]) -> Result<(), AllocError>
    ensures { OnOk result (string_bytes text.new ≡
        string_bytes text.old ++ map shown_octet octets.now) }
{
    for octet in octets {
        text.push(shown_octet(*octet))?;
    }
    Ok(())
}

/// The first 40 octets of a word.
fn first_octets(word: &[u8]) -> &[u8]
    ensures { result.now ≡ take 40 word.now }
{
    if word.len() <= 40 {
        return word;
    }
    &word[..40]
}

/// Puts a word as it can be shown: octets that are no printable ASCII as `?`, and not more than 40.
#[tactic(auto, unfolding(crate::specs::Words::shown))]
pub(crate) fn put_word(text: &mut String, word: &[u8]) -> Result<(), AllocError>
    ensures { OnOk result (string_bytes text.new ≡ string_bytes text.old ++ shown word.now) }
{
    put_octets(text, first_octets(word))
}

/// Puts a word as it can be shown, or that there is none.
pub fn put_found(text: &mut String, found: &[u8]) -> Result<(), AllocError>
    ensures { OnOk result (string_bytes text.new ≡ string_bytes text.old ++ found_words found.now) }
{
    if found.is_empty() {
        return text.push_str("nothing");
    }
    put_word(text, found)
}
