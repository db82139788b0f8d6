//! The connections of a list, loaded and admitted.

ghost use Rattle.std.specs.Prelude.{◌≡◌, ◌<◌, ◌≤◌, ◌++◌, ◌∷◌, ℕ, List, [], None, IfErr, OnOk, length, map};
ghost use Rattle.link_script.specs.Scripts.{HasRanges};
ghost use Rattle.connection_table.specs.Lists.{as_names};
ghost use Rattle.connection_table.specs.Causes.{OnlyLoads};
ghost use Rattle.connection_table.specs.Loads.{LinesAdd, joined, loads_of};
ghost use Rattle.run_outside.specs.Plan.{AddsAll};
ghost use Rattle.connection_table.specs.ManyEnds.{AreAdmitted, IsAdmitFault, IsListedFault};
ghost use Rattle.connection_table.specs.Tables.{holder_of, key_token, opened_entry};

use crate::admitting::AdmitFault;
use crate::inputs::load_input;
use crate::list::Listed;
use crate::many::Many;
use crate::table::ConnectionTable;
use outside_kit::Outside;
use run_outside::Input;
use std::alloc::Global;

/// Admits the connection of a line of the list.
fn admit(table: &mut ConnectionTable, entry: u8, input: &Input) -> Result<(), Many>
    requires ranges { HasRanges input.now.script }
    requires few { length table.old < 64 }
    ensures ok { OnOk result (table.new ≡ table.old ++ opened_entry input.now ∷ []) }
    ensures new { OnOk result (holder_of (key_token input.now.script) table.old ≡ None) }
    ensures fault { IfErr result
        (IsAdmitFault entry (holder_of (key_token input.now.script) table.old)) }
{
    match table.admit(input) {
        Ok(_) => Ok(()),
        Err(AdmitFault::SameToken { holder }) => Err(Many::SameToken {
            line: u64::from(entry) + 1,
            holder,
        }),
        Err(AdmitFault::Memory) => Err(Many::Memory),
        Err(AdmitFault::Full) => unreachable!(),
    }
}

/// Loads the connections of a list, and admits each: their numbers are the places of their lines, counted from 0.
pub(crate) fn admit_all<O: Outside>(
    alloc: Global,
    outside: &mut O,
    table: &mut ConnectionTable,
    listed: &[Listed<'_>],
) -> Result<(), Many>
    requires empty { table.old ≡ [] }
    requires few { length listed.now ≤ 64 }
    ensures ok { OnOk result
        (AreAdmitted (O.told outside.old).content (map as_names listed.now) table.new) }
    ensures fault { IfErr result
        (IsListedFault (O.told outside.old).content (map as_names listed.now)
        (O.told outside.old).load_faults (O.told outside.new).load_faults) }
    ensures only { OnlyLoads (O.told outside.old) (O.told outside.new) }
    ensures same_contents { (other : List ℕ) →
        (O.told outside.new).content other ≡ (O.told outside.old).content other }
    ensures calls { OnOk result (AddsAll (joined (map loads_of (map as_names listed.now)))
        (O.told outside.old).calls (O.told outside.new).calls) }
    ensures calls_cut { IfErr result (LinesAdd ([] ∷ map loads_of (map as_names listed.now))
        (O.told outside.old).calls (O.told outside.new).calls) }
{
    for entry in listed {
        let number = table.len();
        let input = load_input(alloc, outside, number, entry)?;
        admit(table, number, &input)?;
    }
    Ok(())
}
