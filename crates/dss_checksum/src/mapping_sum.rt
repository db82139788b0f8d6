ghost use Rattle.std.specs.Prelude.{◌≡◌, ℕ, ◌+◌, ◌*◌, ◌%◌, ◌≤◌, ◌↔◌, List, [], ◌++◌, length, IsTrue};
ghost use Rattle.seq_units.specs.declared.mapping.Mapping.{Mapping};
ghost use Rattle.ones_sum.specs.Words.{word_sum};
ghost use Rattle.dss_checksum.specs.Checksum.{summed_octets, dss_checksum};

use ones_sum::{fold, sum, sum_more};
use seq_units::Mapping;
use std::marker::Model;

/// The most octets that one mapping covers.
pub const MAX_OCTETS: u32 = 65_535;

/// The sum over a mapping and the octets of its data that were added so far, in order.
#[derive(Drop)]
pub struct DssSum {
    /// The mapping, with the checksum that came with it.
    mapping: Mapping,
    /// How many octets of data were added, at most [`MAX_OCTETS`].
    count: u32,
    /// The plain sum of the words of the pseudo-header and of these octets.
    total: u64,
}

impl Model for DssSum {
    ghost use Rattle.std.specs.Prelude.{◌+◌, ◌*◌, ◌≤◌};
    ghost use Rattle.dss_checksum.specs.MappingSum.{MappingSum};

    ghost Value = { MappingSum };

    ghost view = { λ s. record { mapping = s.mapping; count = s.count; total = s.total } };

    ghost invariant = { λ s. (s.count ≤ 65535) × (s.total ≤ 65535 * (16 + s.count)) };
}

impl DssSum {
    ghost use Rattle.dss_checksum.specs.MappingSum.{sum_of};

    /// The sum over the mapping, without data. For an MP_CAPABLE with data the data number is the initial one plus
    /// one, and the relative subflow number is 1 (RFC 8684, section 3.1).
    pub fn new(mapping: &Mapping) -> Self
        ensures { result ≡ sum_of mapping.now [] }
    {
        let total = header_sum(mapping);
        DssSum {
            mapping: *mapping,
            count: 0,
            total,
        }
    }

    /// Adds the next part of the data, of any length. All parts together have at most [`MAX_OCTETS`] octets.
    pub fn add(&mut self, part: &[u8])
        requires { self.old.count + length part.now ≤ 65535 }
        ensures { (mapping : Mapping) (octets : List ℕ) → self.old ≡ sum_of mapping octets
            → self.new ≡ sum_of mapping (octets ++ part.now) }
    {
        self.total = added(self.count, self.total, part);
        self.count += part.len() as u32;
    }

    /// The checksum of the mapping and the data that was added.
    pub fn make(&self) -> u16
        ensures { (mapping : Mapping) (octets : List ℕ) → self.now ≡ sum_of mapping octets
            → result ≡ dss_checksum mapping octets }
    {
        !fold(self.total)
    }

    /// Whether the checksum that came with the mapping is that of the mapping and the data that was added.
    pub fn check(&self) -> bool
        ensures { (mapping : Mapping) (octets : List ℕ) → self.now ≡ sum_of mapping octets
            → (IsTrue result ↔ (mapping.checksum ≡ dss_checksum mapping octets)) }
    {
        self.make() == self.mapping.checksum
    }
}

/// The plain sum of the words of the pseudo-header.
fn header_sum(mapping: &Mapping) -> u64
    ensures value { result ≡ word_sum (summed_octets mapping.now []) }
    ensures bounded { result ≤ 65535 * 16 }
{
    let Mapping {
        number,
        relative,
        length,
        ..
    } = *mapping;
    sum(&number.to_be_bytes()) + sum(&relative.to_be_bytes()) + u64::from(length)
}

/// The plain sum of the words of some octets, `count` octets of data being the last of them, once the part is put
/// behind them: where they end in the middle of a word, the part's first octet is the low half of that word.
fn added(count: u32, total: u64, part: &[u8]) -> u64
    requires few { count + length part.now ≤ 65535 }
    requires bound { total ≤ 65535 * (16 + count) }
    ensures adds { (before : List ℕ) → length before % 2 ≡ count % 2 → total ≡ word_sum before
        → result ≡ word_sum (before ++ part.now) }
    ensures bounded { result ≤ 65535 * (16 + (count + length part.now)) }
{
    match part {
        [low, rest @ ..] if count % 2 == 1 => sum_more(total + u64::from(*low), rest),
        _ => sum_more(total, part),
    }
}
