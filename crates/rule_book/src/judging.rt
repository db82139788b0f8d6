//! A segment, and what its flow says of it.

ghost use Rattle.std.specs.Prelude.{◌≡◌, ◌≤◌};
ghost use Rattle.rule_book.specs.Facts.{facts_of, first_of, own_base, payload_len, peers_base};

use capture_reader::SeenSegment;
use judge_rules::first_number;
use seen_connections::{Flow, Keys, Opened};
use sides::Side;

/// A segment, and what its flow says of it.
#[derive(Clone, Copy)]
pub struct Judging<'a> {
    pub packet: u32,
    pub seen: SeenSegment<'a>,
    /// Its flow, by number.
    pub index: usize,
    pub flow: Flow,
    pub opened: Opened,
    /// Which side sent it, and whether that side opened the flow.
    pub side: Side,
    pub is_opener: bool,
    /// Whether the capture was taken at its sender.
    pub at_sender: bool,
    /// Behind which place the other side's stream came in plain TCP. It is 0 where none of it did.
    pub plain: u64,
}

impl Judging<'_> {
    /// The number of position 0 of the sender.
    pub(crate) fn own_base(&self) -> u32
        ensures { result ≡ own_base (facts_of self.now) }
    {
        if self.is_opener {
            self.opened.opener_base
        } else {
            self.opened.other_base
        }
    }

    /// The number of position 0 of the other end.
    pub(crate) fn peers_base(&self) -> u32
        ensures { result ≡ peers_base (facts_of self.now) }
    {
        if self.is_opener {
            self.opened.other_base
        } else {
            self.opened.opener_base
        }
    }

    /// How many octets of payload it has, held or not: those of a RST aren't looked at.
    pub(crate) fn payload_len(&self) -> u64
        ensures value { result ≡ payload_len (facts_of self.now) }
        ensures few { result ≤ self.now.seen.payload_len }
    {
        if self.seen.segment.head.rst {
            0
        } else {
            self.seen.payload_len as u64
        }
    }
}

/// The number of place 0 of a side's stream, where its key is known.
pub(crate) fn first_of(side: Side, keys: &Keys) -> Option<u64>
    ensures { result ≡ first_of side keys.now }
{
    Some(first_number(keys.of(side)?))
}
