//! A script as an object.

ghost use Rattle.std.specs.Prelude.{◌≡◌, map, IfOk, OnOk};
ghost use Rattle.serde_json.specs.View.{members_view, view};
ghost use Rattle.trace_json.specs.Scripts.{path_data, paths_data, script_data, with_script, with_settings};

use crate::events::events_list;
use crate::fields::{Member, object, put, put_members};
use link_script::{PathLine, Script};
use serde_json::{Map, Value};
use std::alloc::{AllocError, Global};

fn path_value(alloc: Global, line: &PathLine) -> Result<Value, AllocError>
    ensures { IfOk result (λ value. view value ≡ path_data line.now) }
{
    let members = [
        Member::Flag("backup", line.backup),
        Member::Number("delay", u64::from(line.delay)),
        Member::Number("join", line.join),
        Member::Number("mss", u64::from(line.mss)),
    ];
    object(alloc, &members)
}

fn paths_list(alloc: Global, lines: &[PathLine]) -> Result<Vec<Value>, AllocError>
    ensures { IfOk result (λ list. map view list.items ≡ paths_data lines.now) }
{
    let mut list = Vec::new(alloc);
    for line in lines {
        let value = path_value(alloc, line)?;
        put(&mut list, value)?;
    }
    Ok(list)
}

fn put_settings(
    alloc: Global,
    map: &mut Map<String, Value>,
    script: &Script,
) -> Result<(), AllocError>
    ensures { OnOk result (members_view map.new.entries ≡
        with_settings script.now (members_view map.old.entries)) }
{
    let members = [
        Member::Number("buffer", script.buffer),
        Member::Flag("checksum", script.checksum),
        Member::Digits("seed", script.seed),
        Member::Flag("short", script.short),
    ];
    put_members(alloc, map, &members)
}

/// Puts all that a script says.
fn put_script(
    alloc: Global,
    map: &mut Map<String, Value>,
    script: &Script,
) -> Result<(), AllocError>
    ensures { OnOk result (members_view map.new.entries ≡
        with_script script.now (members_view map.old.entries)) }
{
    put_settings(alloc, map, script)?;
    let events = events_list(alloc, script.lines.as_slice())?;
    serde_json::put(map, alloc, "events", Value::Array(events))?;
    let paths = paths_list(alloc, script.paths.as_slice())?;
    serde_json::put(map, alloc, "paths", Value::Array(paths))
}

/// The settings of a script, its paths, path 0 first, and what happens, in the order of its lines.
pub fn script_value(alloc: Global, script: &Script) -> Result<Value, AllocError>
    ensures { IfOk result (λ value. view value ≡ script_data script.now) }
{
    let mut map = Map::new(alloc);
    put_script(alloc, &mut map, script)?;
    Ok(Value::Object(map))
}
