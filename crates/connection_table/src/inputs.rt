//! The inputs of the connections of a list.

ghost use Rattle.std.specs.Prelude.{◌≡◌, ◌<◌, ◌≤◌, ◌∷◌, [], ℕ, List, Ok, IfErr, IfOk, IfSome, OnErr, OnOk, length, map, vec_len};
ghost use Rattle.outside_kit.specs.Calls as call;
ghost use Rattle.run_outside.specs.Plan.{Adds, AddsAll, failed};
ghost use Rattle.connection_table.specs.Lists.{as_names, list_reading};
ghost use Rattle.connection_table.specs.Causes.{IsInputFault, IsListFault, IsLoadFault, IsScriptFault, OnlyLoads};
ghost use Rattle.connection_table.specs.Inputs.{IsInput, IsWithin};
ghost use Rattle.connection_table.specs.Loads.{InputAdds, loads_of};
ghost use Rattle.connection_table.specs.Scripts.{LeavesPayload, listed_reading};
ghost use Rattle.connection_table.specs.declared.many.Many.TheVariants.{Memory};

use crate::list::{ListFault, Listed, read_list};
use crate::listed_script::script_of;
use crate::many::Many;
use octet_text::Text;
use outside_kit::{LoadFault, Outside};
use run_outside::Input;
use std::alloc::Global;

// How many octets the list, a script or a file has at most.
const MOST_OCTETS: u64 = 65_536;

/// Loads what this line of the list names, line 0 being the list: at most 65,536 octets.
///
/// # Errors
///
/// `Load` only where the outside failed, and counted it; `TooLong` where the content is longer than the limit; else `Memory`.
pub(crate) fn load<O: Outside>(
    alloc: Global,
    outside: &mut O,
    line: u64,
    name: &str,
) -> Result<Vec<u8>, Many>
    ensures whole { IfOk result
        (λ bytes. IfSome ((O.told outside.old).content name.now) (λ told. bytes.items ≡ told)) }
    ensures within { IfOk result (λ bytes. vec_len bytes ≤ 65536) }
    ensures told_within { OnOk result (IsWithin (O.told outside.old).content name.now) }
    ensures fault { IfErr result (IsLoadFault line ((O.told outside.old).content name.now)
        (O.told outside.old).load_faults (O.told outside.new).load_faults) }
    ensures only { OnlyLoads (O.told outside.old) (O.told outside.new) }
    ensures same_contents { (other : List ℕ) →
        (O.told outside.new).content other ≡ (O.told outside.old).content other }
    ensures calls { OnOk result
        (AddsAll (call.Load name.now ∷ []) (O.told outside.old).calls (O.told outside.new).calls) }
    ensures calls_cut { OnErr result
        (Adds (failed (call.Load name.now) ∷ []) (O.told outside.old).calls (O.told outside.new).calls) }
{
    match outside.load(alloc, name, MOST_OCTETS) {
        Ok(content) => Ok(content),
        Err(LoadFault::Failed) => Err(Many::Load { line }),
        Err(LoadFault::TooLong) => Err(Many::TooLong { line }),
        Err(LoadFault::Memory) => Err(Many::Memory),
    }
}

/// The connections that a list tells: 1 to 64.
///
/// # Errors
///
/// `List` with the first line that is out of form: line 65, however it is, and line 1 of an empty list. Else only `Memory`.
pub(crate) fn connections_of(alloc: Global, list: &[u8]) -> Result<Vec<Listed<'_>>, Many>
    ensures ok { IfOk result
        (λ connections. list_reading list.entry.now ≡ Ok (map as_names connections.items)) }
    ensures few { IfOk result (λ connections. length connections.items ≤ 64) }
    ensures fault { IfErr result (IsListFault list.entry.now) }
{
    match read_list(alloc, list) {
        Ok(connections) => Ok(connections),
        Err(ListFault::Line { line }) => Err(Many::List { line }),
        Err(ListFault::Memory) => Err(Many::Memory),
    }
}

/// A file as a text whose parts share its octets. Copies none.
fn shared(file: Vec<u8>) -> Result<Text, Many>
    ensures file { IfOk result (λ text. text ≡ file.items) }
    ensures fault { IfErr result (λ many. many ≡ Memory) }
{
    match Text::from(file).share() {
        Ok(text) => Ok(text),
        Err(_) => Err(Many::Memory),
    }
}

/// What the contents of a connection say: the script is read, and the files are shared.
fn input_of(
    alloc: Global,
    entry: u8,
    script: &[u8],
    file_a: Vec<u8>,
    file_b: Vec<u8>,
) -> Result<Input, Many>
    requires { length script.now ≤ 65536 }
    ensures script { IfOk result (λ input. listed_reading script.now ≡ Ok input.script) }
    ensures file_a { IfOk result (λ input. input.file_a ≡ file_a.items) }
    ensures file_b { IfOk result (λ input. input.file_b ≡ file_b.items) }
    ensures leaves { IfOk result (λ input. LeavesPayload input.script) }
    ensures fault { IfErr result (IsScriptFault entry script.now) }
{
    Ok(Input {
        script: script_of(alloc, entry, script)?,
        file_a: shared(file_a)?,
        file_b: shared(file_b)?,
    })
}

/// Loads what the connection of this line begins with, its script, what A sends and what B sends, and reads the script. `entry` is its
/// number, counted from 0.
///
/// # Errors
///
/// `Load` only where the outside failed, and counted it; `TooLong` where one of the contents is longer than 65,536 octets; `Script` with
/// the first line of the script that is refused, one that begins with `alter` being so; else `Memory`.
pub(crate) fn load_input<O: Outside>(
    alloc: Global,
    outside: &mut O,
    entry: u8,
    listed: &Listed<'_>,
) -> Result<Input, Many>
    ensures input { IfOk result (IsInput (O.told outside.old).content (as_names listed.now)) }
    ensures fault { IfErr result
        (IsInputFault entry (O.told outside.old).content (as_names listed.now)
        (O.told outside.old).load_faults (O.told outside.new).load_faults) }
    ensures only { OnlyLoads (O.told outside.old) (O.told outside.new) }
    ensures same_contents { (other : List ℕ) →
        (O.told outside.new).content other ≡ (O.told outside.old).content other }
    ensures calls { OnOk result
        (AddsAll (loads_of (as_names listed.now)) (O.told outside.old).calls (O.told outside.new).calls) }
    ensures calls_cut { IfErr result
        (InputAdds (loads_of (as_names listed.now)) (O.told outside.old).calls (O.told outside.new).calls) }
{
    let line = u64::from(entry) + 1;
    let script = load(alloc, outside, line, listed.script)?;
    let file_a = load(alloc, outside, line, listed.file_a)?;
    let file_b = load(alloc, outside, line, listed.file_b)?;
    input_of(alloc, entry, &script, file_a, file_b)
}
