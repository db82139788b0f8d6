//! Words and numbers at the end of a text, with a space between each two. Numbers are decimal.

ghost use Rattle.std.specs.Prelude.{◌≡◌, ◌∷◌, ◌++◌, [], OnOk, string_bytes};
ghost use Rattle.std.specs.Fmt.{decimal};
ghost use Rattle.link_script.specs.Writing.{spaced};
ghost use Rattle.run_log.specs.Fitting.{IsLong};
ghost use Rattle.run_log.specs.Words.{flag_word};

use crate::name::flag;
use itoa::Buffer;
use std::alloc::AllocError;

/// Puts a word behind a space.
pub fn put_behind(text: &mut String, word: &str) -> Result<(), AllocError>
    ensures { OnOk result (string_bytes text.new ≡ string_bytes text.old ++ 32 ∷ word.now) }
{
    text.push_str(" ")?;
    text.push_str(word)
}

/// Puts a number behind a space.
pub fn put_number(text: &mut String, number: u64) -> Result<(), AllocError>
    ensures text { OnOk result (string_bytes text.new ≡
        string_bytes text.old ++ 32 ∷ decimal number) }
    ensures fits { OnOk result (IsLong number) }
{
    put_behind(text, Buffer::new().format(number))
}

/// Puts a word, and a number behind it.
pub fn put_one(text: &mut String, word: &str, first: u64) -> Result<(), AllocError>
    ensures text { OnOk result (string_bytes text.new ≡
        string_bytes text.old ++ spaced (word.now ∷ decimal first ∷ [])) }
    ensures fits { OnOk result (IsLong first) }
{
    text.push_str(word)?;
    put_number(text, first)
}

/// Puts a word, and two numbers behind it.
pub fn put_two(text: &mut String, word: &str, first: u64, second: u64) -> Result<(), AllocError>
    ensures text { OnOk result (string_bytes text.new ≡
        string_bytes text.old ++ spaced (word.now ∷ decimal first ∷ decimal second ∷ [])) }
    ensures first { OnOk result (IsLong first) }
    ensures second { OnOk result (IsLong second) }
{
    put_one(text, word, first)?;
    put_number(text, second)
}

/// Puts a word, and three numbers behind it.
pub fn put_three(
    text: &mut String,
    word: &str,
    first: u64,
    second: u64,
    third: u64,
) -> Result<(), AllocError>
    ensures text { OnOk result (string_bytes text.new ≡ string_bytes text.old ++
        spaced (word.now ∷ decimal first ∷ decimal second ∷ decimal third ∷ [])) }
    ensures first { OnOk result (IsLong first) }
    ensures second { OnOk result (IsLong second) }
    ensures third { OnOk result (IsLong third) }
{
    put_two(text, word, first, second)?;
    put_number(text, third)
}

/// Puts a word, a number, and a flag behind it.
pub fn put_flagged(text: &mut String, word: &str, first: u64, on: bool) -> Result<(), AllocError>
    ensures text { OnOk result (string_bytes text.new ≡
        string_bytes text.old ++ spaced (word.now ∷ decimal first ∷ flag_word on ∷ [])) }
    ensures fits { OnOk result (IsLong first) }
{
    put_one(text, word, first)?;
    put_behind(text, flag(on))
}
