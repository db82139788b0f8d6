//! What the end of a round puts to the ports.

ghost use Rattle.std.specs.Prelude.{◌≡◌, ◌≢◌, ◌++◌, OnOk, OnErr};
ghost use Rattle.outside_kit.specs.declared.port.Port.{Port};
ghost use Rattle.outside_kit.specs.Outside.{HoldsAfter, HoldsPrefix};
ghost use Rattle.run_outside.specs.Calling.{Puts};
ghost use Rattle.run_outside.specs.Plan.{put_of, puts_of};

use crate::device::put;
use crate::status::Status;
use octet_text::Text;
use outside_kit::{Outside, Port};

/// What the end of a round puts.
#[derive(Drop)]
pub struct Piece {
    /// What B's reader has read in the round.
    pub read_by_b: Text,
    /// What A's reader has read in the round.
    pub read_by_a: Text,
    /// The lines of the round; no octet where no log is kept.
    pub lines: Text,
}

/// Puts a text, if it has any octet.
fn put_text<O: Outside>(outside: &mut O, port: Port, text: &Text) -> Result<(), Status>
    ensures ok { OnOk result (HoldsAfter ((O.told outside.old).holds port)
        ((O.told outside.new).holds port)
        (λ held. held ++ text.now)) }
    ensures err { OnErr result
        (HoldsPrefix ((O.told outside.old).holds port) ((O.told outside.new).holds port) text.now) }
    ensures other_ports { (other : Port) → other ≢ port →
        (O.told outside.new).holds other ≡ (O.told outside.old).holds other }
    ensures puts { Puts (put_of port text.now) (O.told outside.old) (O.told outside.new) result }
{
    if text.is_empty() {
        return Ok(());
    }
    put(outside, port, text.as_bytes())
}

impl Piece {
    /// Puts what the readers have read, B's first, and then the lines.
    pub fn put<O: Outside>(&self, outside: &mut O) -> Result<(), Status>
        ensures read_by_b { OnOk result (HoldsAfter ((O.told outside.old).holds Port.ReadByB)
            ((O.told outside.new).holds Port.ReadByB) (λ held. held ++ self.now.read_by_b)) }
        ensures read_by_a { OnOk result (HoldsAfter ((O.told outside.old).holds Port.ReadByA)
            ((O.told outside.new).holds Port.ReadByA) (λ held. held ++ self.now.read_by_a)) }
        ensures log { OnOk result (HoldsAfter ((O.told outside.old).holds Port.Log)
            ((O.told outside.new).holds Port.Log) (λ held. held ++ self.now.lines)) }
        ensures read_by_b_err { OnErr result (HoldsPrefix ((O.told outside.old).holds Port.ReadByB)
            ((O.told outside.new).holds Port.ReadByB) self.now.read_by_b) }
        ensures read_by_a_err { OnErr result (HoldsPrefix ((O.told outside.old).holds Port.ReadByA)
            ((O.told outside.new).holds Port.ReadByA) self.now.read_by_a) }
        ensures log_err { OnErr result (HoldsPrefix ((O.told outside.old).holds Port.Log)
            ((O.told outside.new).holds Port.Log) self.now.lines) }
        ensures puts { Puts (puts_of self.now.read_by_b self.now.read_by_a self.now.lines)
            (O.told outside.old) (O.told outside.new) result }
    {
        put_text(outside, Port::ReadByB, &self.read_by_b)?;
        put_text(outside, Port::ReadByA, &self.read_by_a)?;
        put_text(outside, Port::Log, &self.lines)
    }
}
