//! A copy of what a connection begins with.

ghost use Rattle.std.specs.Prelude.{◌≡◌, IfOk};

use link_script::{PathLines, Script, ScriptLines};
use run_outside::Input;
use std::alloc::{AllocError, Global};

fn copied_script(alloc: Global, script: &Script) -> Result<Script, AllocError>
    ensures { IfOk result (λ copy. copy ≡ script.now) }
{
    let paths = Vec::from_slice(alloc, script.paths.as_slice())?;
    let lines = Vec::from_slice(alloc, script.lines.as_slice())?;
    Ok(Script {
        seed: script.seed,
        checksum: script.checksum,
        short: script.short,
        buffer: script.buffer,
        paths: PathLines::from(paths),
        lines: ScriptLines::from(lines),
    })
}

/// A copy of an input, whose files share their octets where these share them.
pub(crate) fn copied(alloc: Global, input: &Input) -> Result<Input, AllocError>
    ensures { IfOk result (λ copy. copy ≡ input.now) }
{
    Ok(Input {
        script: copied_script(alloc, &input.script)?,
        file_a: input.file_a.copy()?,
        file_b: input.file_b.copy()?,
    })
}
