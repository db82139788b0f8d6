ghost use Rattle.std.specs.Prelude.{◌≡◌};

use mptcp_options::DataNumber;
use seq_units::{Pos, Seq32, Seq64, number32, number64};
use sides::Side;

/// What one end of a path counts from.
#[derive(Clone, Copy)]
pub struct EndNumbers {
    /// The initial sequence number of its subflow: the number of position 0.
    pub initial: Seq32,
    /// The initial data sequence number of its side's stream, whose place k has the number of position k + 1.
    pub idsn: Seq64,
}

/// What both ends of a path need to say its segments.
#[derive(Clone, Copy)]
pub struct Spelling {
    /// The number of the path, which its ports and addresses tell: at most 15.
    pub path: u8,
    pub a: EndNumbers,
    pub b: EndNumbers,
    /// Whether mappings have checksums.
    pub checksums: bool,
    /// Whether data numbers and Data ACKs are written with four octets, and not with eight.
    pub short: bool,
}

impl Spelling {
    ghost use Rattle.path_segments.specs.Spelling.{numbers_of, subflow_number, whole_number, data_number};

    /// What the end of a side counts from.
    pub(crate) fn numbers(&self, side: Side) -> EndNumbers
        ensures { result ≡ numbers_of self.now side }
    {
        match side {
            Side::A => self.a,
            Side::B => self.b,
        }
    }

    /// The sequence number of a position of a side's subflow.
    pub(crate) fn subflow_number(&self, side: Side, position: Pos) -> u32
        ensures { result ≡ subflow_number self.now side position }
    {
        number32(self.numbers(side).initial, position).0
    }

    /// The data number of a place of a side's stream, with eight octets (RFC 8684, section 3.3.1).
    pub fn whole_number(&self, side: Side, place: u64) -> u64
        ensures { result ≡ whole_number self.now side place }
    {
        number64(self.numbers(side).idsn, place).0.wrapping_add(1)
    }

    /// The data number of a place of a side's stream, as wide as this connection writes it in a DSS.
    pub(crate) fn data_number(&self, side: Side, place: u64) -> DataNumber
        ensures { result ≡ data_number self.now side place }
    {
        let number = self.whole_number(side, place);
        if self.short {
            DataNumber::Low((number & u64::from(u32::MAX)) as u32)
        } else {
            DataNumber::Whole(number)
        }
    }
}
