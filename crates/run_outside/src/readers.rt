//! The ports of the readers.

ghost use Rattle.std.specs.Prelude.{◌≡◌, [], OnOk, OnErr};
ghost use Rattle.outside_kit.specs.declared.port.Port.{Port};
ghost use Rattle.outside_kit.specs.Outside.{HoldsAfter};
ghost use Rattle.run_words.specs.Lines.{as_line};
ghost use Rattle.run_outside.specs.Calling.{Puts};
ghost use Rattle.run_outside.specs.Plan.{binds_of};
ghost use Rattle.run_outside.specs.Ports.{HoldsWithin};

use crate::device::bind;
use crate::status::Status;
use outside_kit::{Outside, Port};
use run_words::CommandLine;

/// Binds the readers' ports, B's first.
///
/// # Errors
///
/// Those of the first [`bind`] that fails: `Put` of its port, or `Memory`.
pub fn bind_readers<O: Outside>(outside: &mut O, line: &CommandLine<'_>) -> Result<(), Status>
    ensures read_by_b { OnOk result (HoldsAfter ((O.told outside.old).holds Port.ReadByB)
        ((O.told outside.new).holds Port.ReadByB) (λ _. [])) }
    ensures read_by_a { OnOk result (HoldsAfter ((O.told outside.old).holds Port.ReadByA)
        ((O.told outside.new).holds Port.ReadByA) (λ _. [])) }
    ensures read_by_b_err { OnErr result
        (HoldsWithin (Unit {0}) ((O.told outside.old).holds Port.ReadByB)
        ((O.told outside.new).holds Port.ReadByB) [] []) }
    ensures read_by_a_err { OnErr result
        (HoldsWithin (Unit {0}) ((O.told outside.old).holds Port.ReadByA)
        ((O.told outside.new).holds Port.ReadByA) [] []) }
    ensures log { (O.told outside.new).holds Port.Log ≡ (O.told outside.old).holds Port.Log }
    ensures puts { Puts (binds_of (as_line line.now)) (O.told outside.old) (O.told outside.new)
        result }
{
    bind(outside, Port::ReadByB, line.read_by_b)?;
    bind(outside, Port::ReadByA, line.read_by_a)
}
