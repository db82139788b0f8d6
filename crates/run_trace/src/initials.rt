//! The initial sequence numbers of the paths of a run.

ghost use Rattle.std.specs.Prelude.{◌≡◌, ◌+◌, ◌^◌, ◌<◌, IfOk};
ghost use Rattle.link_script.specs.declared.script.PathLine.{PathLine};
ghost use Rattle.world_laws.specs.Openings.{plan_of, plans_from};
ghost use Rattle.run_trace.specs.Initials.{initials_in, initials_of, plan_initials};

use key_material::drawn;
use link_script::{PathLine, Script};
use link_trace::PathInitials;
use std::alloc::{AllocError, Global};

/// The initial numbers of the path of this number, as the seed draws them.
fn path_initials(script: &Script, path: u64) -> PathInitials
    requires { path + 1 < 2 ^ 63 }
    ensures { (line : PathLine) → result ≡ plan_initials (plan_of script.now path line) }
{
    PathInitials {
        a: drawn(script.seed, 1 + 2 * path, 0),
        b: drawn(script.seed, 2 + 2 * path, 0),
    }
}

/// The initial numbers of each of these lines, the first of which is that of path 0.
fn initials_of(
    alloc: Global,
    script: &Script,
    lines: &[PathLine],
) -> Result<Vec<PathInitials>, AllocError>
    ensures { IfOk result
        (λ initials. initials.items ≡ initials_of (plans_from script.now 0 lines.now)) }
{
    let mut initials = Vec::new(alloc);
    for (path, _line) in lines.iter().enumerate() {
        initials.push(path_initials(script, path as u64))?;
    }
    Ok(initials)
}

/// The initial numbers of each path of a script, path 0 first.
pub fn initials_in(alloc: Global, script: &Script) -> Result<Vec<PathInitials>, AllocError>
    ensures { IfOk result (λ initials. initials.items ≡ initials_in script.now) }
{
    initials_of(alloc, script, script.paths.as_slice())
}
