//! What a segment tells of a stream.

ghost use Rattle.std.specs.Ordering.{int_eq};
ghost use Rattle.std.specs.Prelude.{◌≡◌, ◌^◌, ◌<◌, [], false};
ghost use Rattle.first_runs.specs.Runs.{Fits};
ghost use Rattle.seen_streams.specs.Mapped.{octets_of, run_of};
ghost use Rattle.judge_rules.specs.Mappings.{natural};
ghost use Rattle.seen_streams.specs.Same.{same_mapping, same_sum};

use first_runs::Run;
use judge_rules::{Finding, Rule};
use std::alloc::Global;

/// Who tells: the packet and the flow of a segment, and the data number of place 0 of its sender's stream.
#[derive(Clone, Copy)]
pub struct Teller {
    pub packet: u32,
    pub flow: usize,
    pub first: u64,
}

/// A rule that is broken, and by what.
#[derive(Clone, Copy)]
pub struct Broke {
    pub rule: Rule,
    pub finding: Finding,
}

/// The first infinite mapping of a side: its flow, its packet, and the lowest place of its line.
#[derive(Clone, Copy)]
pub struct Infinite {
    pub flow: usize,
    pub packet: u32,
    pub place: u64,
}

/// A finite mapping that holds: its place, the position that its relative number means, its length, its checksum, and whether it ends
/// with the DATA_FIN.
#[derive(Clone, Copy)]
pub struct ToldMapping {
    pub place: u64,
    pub position: i64,
    pub length: u16,
    pub checksum: Option<u16>,
    pub fin: bool,
}

impl ToldMapping {
    /// How many octets it maps: its length, less 1 for the DATA_FIN.
    pub fn octets(&self) -> u64
        ensures value { result ≡ octets_of self.now }
        ensures few { result < 2 ^ 16 }
    {
        u64::from(self.length).saturating_sub(u64::from(self.fin))
    }

    /// The first position that it maps, 0 where that is before the SYN.
    pub fn from(&self) -> u64
        ensures value { result ≡ natural self.now.position }
        ensures few { result < 2 ^ 63 }
    {
        natural(self.position)
    }

    /// The positions that it maps, with their places, as this packet told them.
    pub fn run(&self, packet: u32) -> Run
        ensures value { result ≡ run_of packet self.now }
        ensures fits { self.now.place < 2 ^ 62 → Fits result }
    {
        let from = natural(self.position);
        Run {
            from,
            to: from + self.octets(),
            image: self.place,
            teller: packet,
        }
    }
}

// Whether two mappings are one.
pub(crate) fn same_mapping(one: &ToldMapping, other: &ToldMapping) -> bool
    ensures { result ≡ same_mapping one.now other.now }
{
    one.place == other.place
        && same_position(one.position, other.position)
        && one.length == other.length
        && same_sum(one.checksum, other.checksum)
        && one.fin == other.fin
}

fn same_position(one: i64, other: i64) -> bool
    ensures { result ≡ int_eq one other }
{
    one == other
}

fn same_sum(one: Option<u16>, other: Option<u16>) -> bool
    ensures { result ≡ same_sum one other }
{
    match (one, other) {
        (Some(one), Some(other)) => one == other,
        (None, None) => true,
        _ => false,
    }
}

/// A position that isn't below 0; 0 for one that is.
pub(crate) fn natural(position: i64) -> u64
    ensures value { result ≡ natural position }
    ensures few { result < 2 ^ 63 }
{
    position.max(0) as u64
}

/// A mapping with a checksum that waits for octets, and its packet.
#[derive(Clone, Copy)]
pub struct Waiting {
    pub mapping: ToldMapping,
    pub packet: u32,
}

/// What the options of a segment told so far: mappings that hold, and whether an infinite one does.
#[derive(Drop)]
pub struct Learnt {
    pub mappings: Vec<ToldMapping>,
    pub has_line: bool,
}

impl Learnt {
    /// Nothing was told.
    pub fn new(alloc: Global) -> Self
        ensures mappings { result.mappings.items ≡ [] }
        ensures line { result.has_line ≡ false }
    {
        Learnt {
            mappings: Vec::new(alloc),
            has_line: false,
        }
    }
}
