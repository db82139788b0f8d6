//! Showing messages as lines at a port.

ghost use Rattle.std.specs.Prelude.{◌≡◌, ◌≤◌, ◌++◌, [], ◌∷◌, length, drop, true, None, IfOk, OnOk, OnErr};
ghost use Rattle.outside_kit.specs.Outside.{HasRisen, HoldsAfter, HoldsPrefix};
ghost use Rattle.message_pipe.specs.Frames.{first_message};
ghost use Rattle.message_pipe.specs.Lines.{line_of};
ghost use Rattle.message_pipe.specs.Showing.{ShowsMore, ShowsPart, StaysElsewhere};
ghost use Rattle.outside_kit.specs.Calls.{Put};
ghost use Rattle.message_pipe.specs.Below.{made, AreAdded, LineRefused, PutsMore, PutsPart};

use crate::framing::first_message;
use outside_kit::{Outside, Port, PutFault};
use std::alloc::{AllocError, Global};

/// A message with its LF.
fn line_of(alloc: Global, message: &[u8]) -> Result<Vec<u8>, AllocError>
    ensures { IfOk result (λ line. line.items ≡ line_of message.now) }
{
    let mut line = Vec::from_slice(alloc, message)?;
    line.push(b'\n')?;
    Ok(line)
}

/// Puts a message as a line, in one put.
fn put_line<O: Outside>(
    alloc: Global,
    outside: &mut O,
    port: Port,
    message: &[u8],
) -> Result<(), PutFault>
    ensures ok { OnOk result (HoldsAfter ((O.told outside.old).holds port)
        ((O.told outside.new).holds port)
        (λ held. held ++ line_of message.now)) }
    ensures err { OnErr result
        (HoldsPrefix ((O.told outside.old).holds port) ((O.told outside.new).holds port) (line_of message.now)) }
    ensures one { OnOk result (AreAdded (made true (Put port (line_of message.now)) ∷ [])
        (O.told outside.old).calls (O.told outside.new).calls) }
    ensures refused { OnErr result (LineRefused port message.now (O.told outside.old).calls
        (O.told outside.new).calls) }
    ensures stays { StaysElsewhere port (O.told outside.old) (O.told outside.new) }
    ensures failed { result ≡ Err PutFault.Failed →
        HasRisen ((O.told outside.old).port_faults port) ((O.told outside.new).port_faults port) }
{
    match line_of(alloc, message) {
        Ok(line) => outside.put(port, &line),
        Err(_) => Err(PutFault::Memory),
    }
}

/// Shows the whole messages from this place on, each in one put, up to the first that is refused, and answers where their frames end.
pub(crate) fn show_messages<O: Outside>(
    alloc: Global,
    outside: &mut O,
    port: Port,
    octets: &[u8],
    from: usize,
) -> Result<usize, PutFault>
    requires { from ≤ length octets.now }
    ensures ok { IfOk result (λ end. ShowsMore octets.now from end ((O.told outside.old).holds port)
        ((O.told outside.new).holds port)) }
    ensures all { IfOk result (λ end. first_message (drop end octets.now) ≡ None) }
    ensures err { OnErr result
        (ShowsPart octets.now from ((O.told outside.old).holds port) ((O.told outside.new).holds port)) }
    ensures puts { IfOk result (λ end. PutsMore port octets.now from end (O.told outside.old).calls
        (O.told outside.new).calls) }
    ensures part { OnErr result (PutsPart port octets.now from (O.told outside.old).calls
        (O.told outside.new).calls) }
    ensures stays { StaysElsewhere port (O.told outside.old) (O.told outside.new) }
    ensures failed { result ≡ Err PutFault.Failed →
        HasRisen ((O.told outside.old).port_faults port) ((O.told outside.new).port_faults port) }
{
    let mut end = from;
    while let Some(message) = first_message(&octets[end..]) {
        put_line(alloc, outside, port, message)?;
        end += 4 + message.len();
    }
    Ok(end)
}
