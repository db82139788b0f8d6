//! The deaths by lines of the script that came in a run.

ghost use Rattle.std.specs.Prelude.{◌≡◌, IfOk};
ghost use Rattle.mptcp_view.specs.Deaths.{death_by, death_in, deaths_in};

use link_script::ScriptLine;
use link_trace::Death;
use path_core::Path;
use std::alloc::{AllocError, Global};
use world_core::World;

/// That of a path at this tick, where the path's clock reached it.
fn death_by(path: u8, tick: u64, actor: &Path) -> Option<Death>
    ensures { result ≡ death_by path tick actor.now }
{
    if tick <= actor.tick() {
        Some(Death { path, tick })
    } else {
        None
    }
}

/// The death that a line of the script tells, where it came in a run that ended with this world.
fn death_in(world: &World, line: &ScriptLine) -> Option<Death>
    ensures { result ≡ death_in world.now.state line.now }
{
    let ScriptLine::Die { path, tick } = *line else {
        return None;
    };
    // The actors 0 and 1 are the applications.
    match world.path(path.saturating_add(2)) {
        None => None,
        Some(actor) => death_by(path, tick, actor),
    }
}

/// The deaths by the script that came in a run, which ended with this world.
pub fn deaths_in(
    alloc: Global,
    world: &World,
    lines: &[ScriptLine],
) -> Result<Vec<Death>, AllocError>
    ensures { IfOk result (λ deaths. deaths.items ≡ deaths_in world.now.state lines.now) }
{
    lines
        .iter()
        .filter_map(|line| death_in(world, line))
        .collect(alloc)
}
