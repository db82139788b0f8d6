//! Numbers as a script writes them: decimal digits without a sign.

ghost use Rattle.std.specs.Prelude.{◌≡◌, ◌<◌, ◌≤◌, ◌^◌, IfOk, IsTrue};
ghost use Rattle.std.specs.Option.{SomeIff};
ghost use Rattle.std.specs.Str.Parse.{digits_value};
ghost use Rattle.link_script.specs.Numbers.{is_numeral, within};

use crate::fault::ScriptKind;
use crate::limits::{Limits, MOST_DIGITS};
use octet_text::are_digits;
use std::str;

/// Whether a word has the form of a number: 1 to 20 decimal digits.
pub fn is_numeral(word: &[u8]) -> bool
    ensures { result ≡ is_numeral word.now }
{
    !word.is_empty() && word.len() <= MOST_DIGITS && are_digits(word)
}

/// The number that the digits write, if it is below 2^64.
fn value(numeral: &[u8]) -> Option<u64>
    requires { IsTrue (is_numeral numeral.now) }
    ensures { SomeIff result (digits_value 10 numeral.now < 2 ^ 64) (digits_value 10 numeral.now) }
{
    let digits = str::from_utf8(numeral).unwrap();
    digits.parse().ok()
}

/// Reads a number within limits.
#[tactic(auto, unfolding(crate::specs::Numbers::within))]
pub fn read_number(word: &[u8], limits: Limits) -> Result<u64, ScriptKind>
    ensures exact { result ≡ within limits word.now }
    ensures bound { IfOk result (λ n. n ≤ limits.most) }
{
    if !is_numeral(word) {
        return Err(ScriptKind::Number);
    }
    match value(word) {
        Some(number) if limits.contains(number) => Ok(number),
        _ => Err(ScriptKind::Number),
    }
}
