//! The script of a connection of a list, which alters no payload.

ghost use Rattle.std.specs.Prelude.{◌≡◌, ◌≤◌, Ok, IfErr, IfOk, length, map};
ghost use Rattle.link_script.specs.Reading.{Gives};
ghost use Rattle.link_script.specs.Words.{words_of};
ghost use Rattle.connection_table.specs.Causes.{IsScriptFault};
ghost use Rattle.connection_table.specs.Scripts.{LeavesPayload, first_alter, is_alter_first, is_alter_line, is_of_any_words, listed_reading, refused_with};

use crate::many::Many;
use link_script::{Script, ScriptFault, ScriptKind, parse};
use octet_text::split_line;
use std::alloc::{AllocError, Global};

/// The words of a line: its parts between spaces.
fn words_of(alloc: Global, line: &[u8]) -> Result<Vec<&[u8]>, AllocError>
    ensures { IfOk result (λ words. map (λ w. w.now) words.items ≡ words_of line.now) }
{
    line.split(|octet| *octet == b' ').collect(alloc)
}

/// Whether the first word is `alter`.
fn is_alter_first(words: &[&[u8]]) -> bool
    ensures { result ≡ is_alter_first (map (λ w. w.now) words.now) }
{
    match words {
        [first, ..] => *first == b"alter".as_slice(),
        [] => false,
    }
}

/// Whether the first word of a line is `alter`.
fn is_alter_line(alloc: Global, line: &[u8]) -> Result<bool, AllocError>
    ensures { IfOk result (λ is. is ≡ is_alter_line line.now) }
{
    let words = words_of(alloc, line)?;
    Ok(is_alter_first(&words))
}

/// The first line whose first word is `alter`, counted from 1.
fn first_alter(alloc: Global, text: &[u8]) -> Result<Option<u64>, AllocError>
    requires { length text.now ≤ 65536 }
    ensures { IfOk result (λ line. line ≡ first_alter text.now) }
{
    let mut rest = text;
    let mut number = 1;
    while !rest.is_empty() {
        let (line, behind) = split_line(rest);
        if is_alter_line(alloc, line)? {
            return Ok(Some(number));
        }
        rest = behind;
        number += 1;
    }
    Ok(None)
}

/// Whether a line is refused so whatever its words are.
fn is_of_any_words(kind: ScriptKind) -> bool
    ensures { result ≡ is_of_any_words kind }
{
    matches!(kind, ScriptKind::TooMany | ScriptKind::Header)
}

/// Where a script is refused at this line: there, or at a line before it that begins with `alter`.
fn refused_with(alter: Option<u64>, line: u64, kind: ScriptKind) -> ScriptFault
    ensures { result ≡ refused_with alter line kind }
{
    let Some(alter) = alter else {
        return ScriptFault::Line { line, kind };
    };
    if line < alter || (line == alter && is_of_any_words(kind)) {
        ScriptFault::Line { line, kind }
    } else {
        ScriptFault::Line {
            line: alter,
            kind: ScriptKind::Word,
        }
    }
}

/// What a text says as the script of a connection of a list. A line that begins with `alter` is refused as one of an unknown word.
fn read_script(alloc: Global, text: &[u8]) -> Result<Script, ScriptFault>
    requires { length text.now ≤ 65536 }
    ensures exact { Gives (λ script. script) result (listed_reading text.now) }
    ensures leaves { IfOk result LeavesPayload }
{
    let Ok(alter) = first_alter(alloc, text) else {
        return Err(ScriptFault::Memory);
    };
    match parse(alloc, text) {
        Ok(script) => match alter {
            None => Ok(script),
            Some(line) => Err(ScriptFault::Line {
                line,
                kind: ScriptKind::Word,
            }),
        },
        Err(ScriptFault::Line { line, kind }) => Err(refused_with(alter, line, kind)),
        Err(ScriptFault::Memory) => Err(ScriptFault::Memory),
    }
}

/// The script of the connection of this number.
pub(crate) fn script_of(alloc: Global, entry: u8, text: &[u8]) -> Result<Script, Many>
    requires { length text.now ≤ 65536 }
    ensures script { IfOk result (λ script. listed_reading text.now ≡ Ok script) }
    ensures leaves { IfOk result LeavesPayload }
    ensures fault { IfErr result (IsScriptFault entry text.now) }
{
    match read_script(alloc, text) {
        Ok(script) => Ok(script),
        Err(ScriptFault::Line { line, kind }) => Err(Many::Script { entry, line, kind }),
        Err(ScriptFault::Memory) => Err(Many::Memory),
    }
}
