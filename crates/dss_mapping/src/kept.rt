ghost use Rattle.std.specs.Prelude.{◌≡◌, nat_lt};
ghost use Rattle.dss_mapping.specs.Runs.{covers};
ghost use Rattle.dss_mapping.specs.Mappings.{octets_of, run_of};

use crate::run::Run;
use seq_units::{Mapping, Pos};

/// A mapping that was learned.
#[derive(Clone, Copy)]
pub struct KeptMapping {
    /// The position of its first octet.
    pub pos: Pos,
    /// The place of its first octet in the data stream.
    pub place: u64,
    /// The mapping as it was told.
    pub mapping: Mapping,
    /// Whether its last number is that of the DATA_FIN (RFC 8684, section 3.3.3), which has no octet.
    pub fin: bool,
}

impl KeptMapping {
    /// How many octets it has.
    pub fn octets(self) -> u16
        ensures value { result ≡ octets_of self }
    {
        if self.fin {
            self.mapping.length.saturating_sub(1)
        } else {
            self.mapping.length
        }
    }

    /// Its positions below 2^64 - 1.
    pub(crate) fn run(self) -> Run
        ensures value { result ≡ run_of self }
    {
        Run {
            pos: self.pos,
            place: self.place,
            to: self.pos.saturating_add(u64::from(self.octets())),
        }
    }

    /// Whether it covers the position.
    pub(crate) fn covers(self, pos: Pos) -> bool
        ensures { result ≡ covers pos (run_of self) }
    {
        self.run().covers(pos)
    }

    /// Whether it has a position at or past this one.
    pub(crate) fn ends_after(self, pos: Pos) -> bool
        ensures { result ≡ nat_lt pos (run_of self).to }
    {
        pos < self.run().to
    }
}
