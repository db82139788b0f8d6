//! What an actor asks at a step, and what it is answered.

use control_book::{ControlCall, ControlReply};
use reassembly_book::{ReassemblyCall, ReassemblyReply};
use send_book::{SendCall, SendReply};
use sides::Side;

/// A step that an actor makes by itself, at no book.
#[derive(Clone, Copy)]
pub enum LocalStep {
    /// A copy arrives at an end.
    Arrive {
        /// The end's side.
        to: Side,
        /// The number of the segment in its direction, the first being 1. Both copies of a repeated segment have it.
        copy: u64,
    },
    /// The timer of an end runs out.
    Fire(Side),
    /// A line of the script comes due; the first line has the number 0.
    Line(u32),
    /// A segment was handed to the link.
    Sent {
        /// The side of the end that sent it.
        from: Side,
        /// Its number in its direction, the first being 1.
        copy: u64,
        /// Octets of its payload.
        length: u32,
        /// The checksum field of its octets (RFC 9293, section 3.1).
        sum: u16,
    },
    /// The turn ends.
    End,
}

/// What an actor asks.
#[derive(Drop)]
pub enum Ask {
    /// The send book of a side.
    Send(Side, SendCall),
    /// The reassembly book of a side.
    Reassembly(Side, ReassemblyCall),
    /// The control book of a side.
    Control(Side, ControlCall),
    /// Nobody.
    Local(LocalStep),
}

/// What an actor is answered.
#[derive(Drop)]
pub enum Reply {
    /// By a send book.
    Send(SendReply),
    /// By a reassembly book.
    Reassembly(ReassemblyReply),
    /// By a control book.
    Control(ControlReply),
    /// By nobody: the local step is made.
    Done,
}

/// A step that was made, as it stands in an actor's list.
#[derive(Drop)]
pub struct Note {
    /// The place of the step among all: at a book one more than the greater of `seen` and the book's stamp before, and else
    /// one more than `seen`.
    pub stamp: u64,
    /// The greatest stamp that the actor knew before.
    pub seen: u64,
    /// The number of the actor: 0 and 1 are the applications of A and B, and 2 + i is path i.
    pub actor: u8,
    pub ask: Ask,
    pub reply: Reply,
}
