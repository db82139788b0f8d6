//! A port whose messages are shown as lines.

ghost use Rattle.std.specs.Prelude.{◌≡◌, ◌≤◌, ◌++◌, ℕ, List, [], length, drop, Option, Some, None, is_ok, IfErr, OnOk, OnErr};
ghost use Rattle.outside_kit.specs.Outside.{HasRisen, HoldsPrefix};
ghost use Rattle.message_pipe.specs.Frames.{first_message};
ghost use Rattle.message_pipe.specs.Showing.{ShowsMore, ShowsPart, StaysElsewhere, PortStands, counted_of};
ghost use Rattle.message_pipe.specs.Below.{PutsMore, PutsPart, PieceComes, passed_of};

use crate::showing::show_messages;
use outside_kit::{Outside, Port, PutFault};
use std::alloc::Global;

/// What was put for a port, and how much of it is shown.
#[derive(Drop)]
pub(crate) struct LinePort {
    /// What was put for the port since it was bound.
    pub octets: Vec<u8>,
    /// Where the frames of the messages that are shown end. A refusal leaves it where it was.
    pub end: usize,
    /// The first put of a line that was refused since the port was bound.
    pub refused: Option<PutFault>,
}

impl LinePort {
    /// Nothing was put yet.
    pub(crate) fn new(alloc: Global) -> Self
        ensures octets { result.octets.items ≡ [] }
        ensures end { result.end ≡ 0 }
        ensures refused { result.refused ≡ None }
    {
        LinePort {
            octets: Vec::new(alloc),
            end: 0,
            refused: None,
        }
    }
}

/// Shows the whole messages that aren't shown yet, and keeps the refusal if there is one.
fn show<O: Outside>(
    alloc: Global,
    outside: &mut O,
    port: Port,
    lines: &mut LinePort,
) -> Result<(), PutFault>
    requires { lines.old.end ≤ length lines.old.octets.items }
    ensures octets { lines.new.octets.items ≡ lines.old.octets.items }
    ensures within { lines.new.end ≤ length lines.new.octets.items }
    ensures ok { OnOk result (ShowsMore lines.old.octets.items lines.old.end lines.new.end
        ((O.told outside.old).holds port) ((O.told outside.new).holds port)) }
    ensures all { OnOk result (first_message (drop lines.new.end lines.old.octets.items) ≡ None) }
    ensures kept { OnOk result (lines.new.refused ≡ lines.old.refused) }
    ensures err { OnErr result
        (ShowsPart lines.old.octets.items lines.old.end ((O.told outside.old).holds port)
        ((O.told outside.new).holds port)) }
    ensures puts { OnOk result (PutsMore port lines.old.octets.items lines.old.end lines.new.end
        (O.told outside.old).calls (O.told outside.new).calls) }
    ensures part { OnErr result (PutsPart port lines.old.octets.items lines.old.end
        (O.told outside.old).calls (O.told outside.new).calls) }
    ensures refused { IfErr result (λ fault. lines.new.refused ≡ Some fault) }
    ensures stays { StaysElsewhere port (O.told outside.old) (O.told outside.new) }
    ensures failed { result ≡ Err PutFault.Failed →
        HasRisen ((O.told outside.old).port_faults port) ((O.told outside.new).port_faults port) }
{
    match show_messages(alloc, outside, port, &lines.octets, lines.end) {
        Ok(end) => {
            lines.end = end;
            Ok(())
        }
        Err(fault) => {
            lines.refused = Some(fault);
            Err(fault)
        }
    }
}

/// Puts a piece for a port: counts it, and then shows the messages that have come whole. Once a line was refused pieces are counted
/// alone. Where there is no memory to count the piece, all is as it was.
pub(crate) fn put_for<O: Outside>(
    alloc: Global,
    outside: &mut O,
    port: Port,
    lines: &mut LinePort,
    piece: &[u8],
) -> Result<(), PutFault>
    requires { lines.old.end ≤ length lines.old.octets.items }
    ensures within { lines.new.end ≤ length lines.new.octets.items }
    ensures ok { OnOk result (lines.new.octets.items ≡ lines.old.octets.items ++ piece.now) }
    ensures err { OnErr result
        (HoldsPrefix (Some lines.old.octets.items) (Some lines.new.octets.items) piece.now) }
    ensures comes { PieceComes port lines.old.refused
        (passed_of (counted_of lines.old)) piece.now (is_ok result)
        (passed_of (counted_of lines.new)) (O.told outside.old).calls (O.told outside.new).calls }
    ensures unrefused { OnOk result (lines.old.refused ≡ None → lines.new.refused ≡ None) }
    ensures stands { (first : Option (List ℕ)) (faults_first : ℕ) →
        PortStands (counted_of lines.old) first ((O.told outside.old).holds port) faults_first
        ((O.told outside.old).port_faults port) →
        PortStands (counted_of lines.new) first ((O.told outside.new).holds port) faults_first
        ((O.told outside.new).port_faults port) }
    ensures stays { StaysElsewhere port (O.told outside.old) (O.told outside.new) }
    ensures failed { result ≡ Err PutFault.Failed →
        HasRisen ((O.told outside.old).port_faults port) ((O.told outside.new).port_faults port) }
{
    let Ok(()) = lines.octets.extend_from_slice(piece) else {
        return Err(PutFault::Memory);
    };
    match lines.refused {
        Some(_) => Ok(()),
        None => show(alloc, outside, port, lines),
    }
}
