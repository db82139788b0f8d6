//! A line of a log by its fields.

ghost use Rattle.std.specs.Prelude.{◌≡◌, ◌==◌, ◌<◌, ◌^◌, position, option_map, IsTrue};
ghost use Rattle.std.specs.List.{list_all};
ghost use Rattle.std.specs.Option.{SomeIff};
ghost use Rattle.std.specs.Str.Parse.{digits_value};
ghost use Rattle.link_script.specs.Numbers.{is_numeral};
ghost use Rattle.run_log.specs.Fields.{field, are_keys, is_number, actor_of, is_object, is_printable, are_words, step_actor, is_lower_hex, is_key, is_keys_line, is_outcome, is_outcome_line};

use crate::name::object_name;
use crate::outcome::Outcome;
use link_script::is_numeral;
use octet_text::are_digits;
use sides::{Object, Side};
use std::str;

/// How many octets of words a step line has at most.
const MOST_WORDS: usize = 400;

/// How many digits a key has.
const KEY_DIGITS: usize = 16;

/// The first word of the line of both keys.
const KEYS: &[u8] = b"keys";

/// The first word of the last line.
const OUTCOME: &[u8] = b"outcome";

/// The objects on which steps are made.
const OBJECTS: [Object; 7] = [
    Object::Send(Side::A),
    Object::Send(Side::B),
    Object::Reassembly(Side::A),
    Object::Reassembly(Side::B),
    Object::Control(Side::A),
    Object::Control(Side::B),
    Object::Me,
];

/// The place of the first space.
fn field_end(line: &[u8]) -> Option<usize>
    ensures { result ≡ position (λ octet. octet == 32) line.now }
{
    line.iter().position(|octet| *octet == b' ')
}

/// What stands before the first space, and what stands behind it.
#[tactic(auto, unfolding(crate::specs::Fields::field))]
fn split_field(line: &[u8]) -> Option<(&[u8], &[u8])>
    ensures { option_map (λ parts. (parts.0.now, parts.1.now)) result ≡ field line.now }
{
    let end = field_end(line)?;
    Some((&line[..end], &line[end + 1..]))
}

fn is_number(word: &[u8]) -> bool
    ensures { result ≡ is_number word.now }
{
    !word.is_empty() && are_digits(word)
}

/// The number that digits write, if it is below 2^8.
fn small_value(number: &[u8]) -> Option<u8>
    requires { IsTrue (is_number number.now) }
    ensures { SomeIff result (digits_value 10 number.now < 2 ^ 8) (digits_value 10 number.now) }
{
    let digits = str::from_utf8(number).unwrap();
    digits.parse().ok()
}

/// The actor that a word names, one of so many.
#[tactic(auto, unfolding(crate::specs::Fields::actor_of))]
fn read_actor(word: &[u8], actors: u8) -> Option<u8>
    ensures { result ≡ actor_of actors word.now }
{
    if !is_number(word) {
        return None;
    }
    match small_value(word) {
        Some(actor) if actor < actors => Some(actor),
        _ => None,
    }
}

/// Whether a word names an object on which steps are made.
fn is_object(word: &[u8]) -> bool
    ensures { result ≡ is_object word.now }
{
    OBJECTS
        .iter()
        .any(|object| object_name(*object).as_bytes() == word)
}

fn are_printable(words: &[u8]) -> bool
    ensures { result ≡ list_all is_printable words.now }
{
    words.iter().all(|octet| matches!(octet, b' '..=b'~'))
}

/// Whether a step line can end so.
fn are_words(words: &[u8]) -> bool
    ensures { result ≡ are_words words.now }
{
    !words.is_empty() && words.len() <= MOST_WORDS && are_printable(words)
}

/// The actor of a step line, where it has the form.
#[tactic(auto, unfolding(crate::specs::Fields::step_actor))]
pub fn step_actor(line: &[u8], actors: u8) -> Option<u8>
    ensures { result ≡ step_actor actors line.now }
{
    let (stamp, rest) = split_field(line)?;
    let (actor, rest) = split_field(rest)?;
    let (object, words) = split_field(rest)?;
    let actor = read_actor(actor, actors)?;
    if is_numeral(stamp) && is_object(object) && are_words(words) {
        Some(actor)
    } else {
        None
    }
}

fn are_lower_hex(word: &[u8]) -> bool
    ensures { result ≡ list_all is_lower_hex word.now }
{
    word.iter()
        .all(|octet| matches!(octet, b'0'..=b'9' | b'a'..=b'f'))
}

/// Sixteen lower-case hexadecimal digits.
fn is_key(word: &[u8]) -> bool
    ensures { result ≡ is_key word.now }
{
    word.len() == KEY_DIGITS && are_lower_hex(word)
}

fn are_keys(words: &[u8]) -> bool
    ensures { result ≡ are_keys (field words.now) }
{
    match split_field(words) {
        Some((key_a, key_b)) => is_key(key_a) && is_key(key_b),
        None => false,
    }
}

/// Whether a line tells two keys.
pub fn is_keys_line(line: &[u8]) -> bool
    ensures { result ≡ is_keys_line line.now }
{
    match split_field(line) {
        Some((word, rest)) => word == KEYS && are_keys(rest),
        None => false,
    }
}

fn is_outcome(word: &[u8]) -> bool
    ensures { result ≡ is_outcome word.now }
{
    Outcome::ALL
        .iter()
        .any(|outcome| outcome.word().as_bytes() == word)
}

/// Whether a line tells an outcome.
pub fn is_outcome_line(line: &[u8]) -> bool
    ensures { result ≡ is_outcome_line line.now }
{
    match split_field(line) {
        Some((word, rest)) => word == OUTCOME && is_outcome(rest),
        None => false,
    }
}
