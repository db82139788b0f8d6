//! The fixed words of a script, and how a line is cut into words.

ghost use Rattle.std.specs.Prelude.{◌≡◌, ◌==◌, map, IfOk};
ghost use Rattle.link_script.specs.Words.{fixed, keyword_word, keyword, direction, side, switch, words_of, is_passed_over};

use crate::fault::ScriptKind;
use sides::Side;
use std::alloc::{AllocError, Global};

/// The first word of a line, which says what the line is.
#[derive(Clone, Copy)]
pub enum Keyword {
    Seed,
    Checksum,
    Short,
    Buffer,
    Path,
    Drop,
    Strip,
    Alter,
    Dup,
    Late,
    StripAll,
    Die,
    Prio,
    Add,
    Remove,
    FastClose,
    Rate,
    Loss,
    Jitter,
    End,
}

impl Keyword {
    pub const ALL: [Keyword; 20] = [
        Keyword::Seed,
        Keyword::Checksum,
        Keyword::Short,
        Keyword::Buffer,
        Keyword::Path,
        Keyword::Drop,
        Keyword::Strip,
        Keyword::Alter,
        Keyword::Dup,
        Keyword::Late,
        Keyword::StripAll,
        Keyword::Die,
        Keyword::Prio,
        Keyword::Add,
        Keyword::Remove,
        Keyword::FastClose,
        Keyword::Rate,
        Keyword::Loss,
        Keyword::Jitter,
        Keyword::End,
    ];

    /// The octets of the word.
    pub fn word(&self) -> &'static [u8]
        ensures { result.now ≡ keyword_word self.now }
    {
        match self {
            Keyword::Seed => b"seed",
            Keyword::Checksum => b"checksum",
            Keyword::Short => b"short",
            Keyword::Buffer => b"buffer",
            Keyword::Path => b"path",
            Keyword::Drop => b"drop",
            Keyword::Strip => b"strip",
            Keyword::Alter => b"alter",
            Keyword::Dup => b"dup",
            Keyword::Late => b"late",
            Keyword::StripAll => b"strip-all",
            Keyword::Die => b"die",
            Keyword::Prio => b"prio",
            Keyword::Add => b"add",
            Keyword::Remove => b"remove",
            Keyword::FastClose => b"fastclose",
            Keyword::Rate => b"rate",
            Keyword::Loss => b"loss",
            Keyword::Jitter => b"jitter",
            Keyword::End => b"end",
        }
    }

    /// The keyword that a word writes, or the fault that none is.
    pub fn read(word: &[u8]) -> Result<Keyword, ScriptKind>
        ensures { result ≡ keyword word.now }
    {
        Keyword::ALL
            .iter()
            .copied()
            .find(|keyword| keyword.word() == word)
            .ok_or(ScriptKind::Word)
    }
}

/// A word that can't be another.
#[tactic(auto, unfolding(crate::specs::Words::fixed))]
pub fn expect_word(word: &[u8], expected: &[u8]) -> Result<(), ScriptKind>
    ensures { result ≡ fixed expected.now word.now }
{
    if word == expected {
        Ok(())
    } else {
        Err(ScriptKind::Word)
    }
}

/// The side from which segments come: `ab` is A, `ba` is B.
#[tactic(auto, unfolding(crate::specs::Words::direction))]
pub fn read_direction(word: &[u8]) -> Result<Side, ScriptKind>
    ensures { result ≡ direction word.now }
{
    match word {
        b"ab" => Ok(Side::A),
        b"ba" => Ok(Side::B),
        _ => Err(ScriptKind::Word),
    }
}

/// The side: `a` or `b`.
#[tactic(auto, unfolding(crate::specs::Words::side))]
pub fn read_side(word: &[u8]) -> Result<Side, ScriptKind>
    ensures { result ≡ side word.now }
{
    match word {
        b"a" => Ok(Side::A),
        b"b" => Ok(Side::B),
        _ => Err(ScriptKind::Word),
    }
}

/// Whether the switch is `on`; else it is `off`.
#[tactic(auto, unfolding(crate::specs::Words::switch))]
pub fn read_switch(word: &[u8]) -> Result<bool, ScriptKind>
    ensures { result ≡ switch word.now }
{
    match word {
        b"on" => Ok(true),
        b"off" => Ok(false),
        _ => Err(ScriptKind::Word),
    }
}

/// Whether a line is empty or begins with `#`.
pub fn is_passed_over(line: &[u8]) -> bool
    ensures { result ≡ is_passed_over line.now }
{
    matches!(line, [] | [b'#', ..])
}

/// The words of a line: its parts between spaces.
pub fn split_words(alloc: Global, line: &[u8]) -> Result<Vec<&[u8]>, AllocError>
    ensures { IfOk result (λ words. map (λ w. w.now) words.items ≡ words_of line.now) }
{
    line.split(|octet| *octet == b' ').collect(alloc)
}
