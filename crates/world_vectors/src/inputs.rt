//! What a connection begins with.

ghost use Rattle.std.specs.Prelude.{IfOk};
ghost use Rattle.link_script.specs.Scripts.{HasRanges};

use case_fields::{CaseFault, content, lines_in};
use link_script::parse;
use octet_text::Text;
use run_outside::Input;
use std::alloc::Global;

/// The script whose lines stand between `;`, and what both sides write.
pub fn input_of(
    alloc: Global,
    script: &str,
    file_a: Vec<u8>,
    file_b: Vec<u8>,
) -> Result<Input, CaseFault>
    ensures { IfOk result (λ input. HasRanges input.script) }
{
    let text = lines_in(alloc, script)?;
    match parse(alloc, text.as_bytes()) {
        Ok(script) => Ok(Input {
            script,
            file_a: Text::from(file_a),
            file_b: Text::from(file_b),
        }),
        Err(_) => Err(CaseFault::Form),
    }
}

/// The script whose lines stand between `;`, and the files that are told.
pub fn input_told(
    alloc: Global,
    script: &str,
    file_a: &str,
    file_b: &str,
) -> Result<Input, CaseFault>
    ensures { IfOk result (λ input. HasRanges input.script) }
{
    let file_a = content(alloc, file_a)?;
    let file_b = content(alloc, file_b)?;
    input_of(alloc, script, file_a, file_b)
}
