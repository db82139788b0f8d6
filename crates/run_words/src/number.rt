//! Numbers as a command line writes them: one to seven decimal digits, leading zeros among them.

ghost use Rattle.std.specs.Prelude.{◌≡◌, ◌<◌, ◌≤◌, ◌^◌, IfSome, IsTrue};
ghost use Rattle.std.specs.Option.{SomeIff};
ghost use Rattle.std.specs.Str.Parse.{digits_value};
ghost use Rattle.run_words.specs.Numbers as number_is;

use octet_text::are_digits;

/// How many digits a number has at most.
const MOST_DIGITS: usize = 7;

fn is_numeral(word: &str) -> bool
    ensures { result ≡ number_is.is_numeral word.now }
{
    !word.is_empty() && word.len() <= MOST_DIGITS && are_digits(word.as_bytes())
}

/// The number that the digits write, if it is below 2^32.
fn value(numeral: &str) -> Option<u32>
    requires { IsTrue (number_is.is_numeral numeral.now) }
    ensures { SomeIff result (digits_value 10 numeral.now < 2 ^ 32) (digits_value 10 numeral.now) }
{
    numeral.parse().ok()
}

/// The number that a word writes, where it has the form of a number and lies within these ends.
#[tactic(auto, unfolding(crate::specs::Numbers::number_within))]
pub fn read_number(word: &str, least: u32, most: u32) -> Option<u32>
    ensures exact { result ≡ number_is.number_within least most word.now }
    ensures within { IfSome result (λ number. (least ≤ number) × (number ≤ most)) }
{
    if !is_numeral(word) {
        return None;
    }
    match value(word) {
        Some(number) if least <= number && number <= most => Some(number),
        _ => None,
    }
}
