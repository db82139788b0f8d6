//! A run as one JSON object, and the page over that object.

ghost use Rattle.std.specs.Prelude.{◌≡◌, IfOk, string_bytes};
ghost use Rattle.trace_json.specs.Runs.{IsJsonOf};
ghost use Rattle.mptcp_view.specs.Views.{IsPageOf, run_of};

use crate::asking::DataNumbers;
use crate::showing::{carried_in, data_in, end_of};
use link_script::Script;
use link_trace::{Sent, all_told, rows_of};
use path_core::key_of;
use run_trace::rates_of;
use std::alloc::{AllocError, Global};
use trace_json::{Told, json, page};
use world_core::World;

/// The JSON of these segments of a run of this script, which ended with this world.
fn json_text(
    alloc: Global,
    script: &Script,
    world: &World,
    told: &[Sent],
) -> Result<String, AllocError>
    ensures { IfOk result
        (λ text. IsJsonOf (run_of script.now world.now.state told.now) (string_bytes text)) }
{
    let carried = carried_in(alloc, script, told)?;
    let words = all_told(
        alloc,
        script.checksum,
        data_in(DataNumbers::Relative, script),
        told,
    )?;
    let rows = rows_of(alloc, &rates_of(alloc, world)?, &carried)?;
    let run = Told {
        script,
        key_a: key_of(script.seed, 0),
        key_b: key_of(script.seed, 2),
        end: end_of(world),
        trace: told,
        carried: &carried,
        words: &words,
        rows: &rows,
    };
    json(alloc, &run)
}

/// Its octets.
pub fn json_shown(
    alloc: Global,
    script: &Script,
    world: &World,
    told: &[Sent],
) -> Result<Vec<u8>, AllocError>
    ensures { IfOk result
        (λ shown. IsJsonOf (run_of script.now world.now.state told.now) shown.items) }
{
    let text = json_text(alloc, script, world, told)?;
    Ok(text.into_bytes())
}

/// The page over it.
pub fn page_shown(
    alloc: Global,
    script: &Script,
    world: &World,
    told: &[Sent],
) -> Result<Vec<u8>, AllocError>
    ensures { IfOk result
        (λ shown. IsPageOf (run_of script.now world.now.state told.now) shown.items) }
{
    let text = json_text(alloc, script, world, told)?;
    page(alloc, text.as_str())
}
