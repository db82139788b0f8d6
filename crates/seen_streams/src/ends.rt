//! What is told of a stream and of a lane at the end.

ghost use Rattle.std.specs.Prelude.{◌≡◌, ◌^◌, ◌<◌, ◌≤◌, ◌+◌, ◌-◌, ◌&&◌, length, map, is_none, if◌then◌else◌};
ghost use Rattle.seen_octets.specs.Octets.{IsPiece};
ghost use Rattle.seen_streams.specs.Ends.{counts_of, unmapped};
ghost use Rattle.seen_streams.specs.Shows.{as_broken, lane_of, stream_of};

use crate::lane::Lane;
use crate::places::{places_from, seen_from};
use crate::stream::Stream;
use judge_rules::{Broken, ToldPlace};

/// How many options with keys, HMACs of joins, finite mappings, checksums and Data ACKs of a side were tried.
#[derive(Clone, Copy)]
pub struct Counts {
    pub keys: u64,
    pub joins: u64,
    pub mappings: u64,
    pub sums: u64,
    pub data_acks: u64,
}

impl<'a> Stream<'a> {
    /// Each rule that the side broke, where it broke it first.
    pub fn broken(&self) -> &[Broken<'a>]
        ensures { map as_broken result.now ≡ (stream_of self.now).broken }
    {
        &self.broken
    }

    /// How many options were tried.
    pub fn counts(&self) -> Counts
        ensures { result ≡ counts_of (stream_of self.now) }
    {
        Counts {
            keys: self.keys,
            joins: self.joins,
            mappings: self.mappings,
            sums: self.sums,
            data_acks: self.data_acks,
        }
    }

    /// The place of the DATA_FIN, and the packet that told it.
    pub fn fin(&self) -> Option<ToldPlace>
        ensures { result ≡ (stream_of self.now).fin }
    {
        self.fin
    }

    /// The octets of places from one on, as far as one run has them. There are none where the first place has none.
    pub fn octets_from(&self, place: u64) -> &[u8]
        requires { place < 2 ^ 64 - 1 }
        ensures held { IsPiece (stream_of self.now).octet place result.now }
        ensures none { length result.now ≡ 0 → (stream_of self.now).octet place ≡ None }
    {
        self.octets.piece(place, u64::MAX)
    }
}

impl Lane {
    /// How many mappings with a checksum wait for octets.
    pub fn count_waiting(&self) -> usize
        ensures { result ≡ length (lane_of self.now).waiting }
    {
        self.waits.tried.len() + self.waits.fresh.len()
    }

    /// How many positions with payload no mapping maps.
    pub fn count_unmapped(&self) -> u64
        ensures { result ≡ unmapped (lane_of self.now) 1 ((lane_of self.now).top - 1) }
    {
        let top = self.top();
        let mut count = 0;
        let mut position = 1;
        while position < top {
            let stretch = unmapped_from(self, position, top);
            count += stretch.count;
            position = stretch.end;
        }
        count
    }
}

// How many of the positions from one on, up to `end`, were seen and have no place.
#[derive(Clone, Copy)]
struct Unmapped {
    end: u64,
    count: u64,
}

fn unmapped_from(lane: &Lane, from: u64, to: u64) -> Unmapped
    requires some { from < to }
    requires few { to ≤ 2 ^ 62 }
    ensures further { from < result.end }
    ensures within { result.end ≤ to }
    ensures few { result.count ≤ result.end - from }
    ensures counted { result.count ≡ unmapped (lane_of lane.now) from (result.end - from) }
{
    let seen = seen_from(lane, from, to);
    let placed = places_from(lane, from, seen.end);
    Unmapped {
        end: placed.end,
        count: count_if(seen.marked, placed.place, placed.end - from),
    }
}

// The number of octets if they were seen and have no place, and none otherwise.
fn count_if(seen: bool, place: Option<u64>, count: u64) -> u64
    ensures value { result ≡ (if seen && is_none place then count else 0) }
    ensures few { result ≤ count }
{
    if !seen {
        return 0;
    }
    match place {
        Some(_) => 0,
        None => count,
    }
}
