//! What one side sent on one subflow.

ghost use Rattle.std.specs.Option.{option_or};
ghost use Rattle.std.specs.Prelude.{◌≡◌, ◌+◌, ◌^◌, ◌≤◌, ◌∷◌, ◌++◌, [], Some, None, IfSome, OnOk, nat_le, if◌then◌else◌};
ghost use Rattle.seen_streams.specs.Acks.{behind_positions, is_fin_at};
ghost use Rattle.seen_streams.specs.Positions.{position_of, with_fin};
ghost use Rattle.seen_streams.specs.Shows.{lane_of, IsLineBounded};
ghost use Rattle.seen_streams.specs.State.{empty_lane};

use crate::told::{ToldMapping, Waiting, same_mapping};
use crate::waits::{Waits, push};
use first_runs::FirstRuns;
use judge_rules::Line;
use seen_octets::{SeenOctets, SeenPlaces};
use seq_units::{Seq32, near32};
use std::alloc::{AllocError, Global};
use std::marker::Model;

/// What one side sent on one subflow, by positions: the SYN at 0, the octets from 1 on. Contracts read it by `lane_of`.
#[derive(Drop)]
pub struct Lane {
    /// Of each position the octet that was held first.
    pub(crate) octets: SeenOctets,
    /// The positions that were seen, held or cut off.
    pub(crate) seen: SeenPlaces,
    /// The place of each position that a finite mapping has.
    pub(crate) places: FirstRuns,
    pub(crate) line: Option<Line>,
    /// The end of the payload that was seen.
    pub(crate) top: u64,
    pub(crate) fin: Option<u64>,
    /// The highest Data ACK.
    pub(crate) acknowledged: u64,
    /// The mappings with a checksum, and the positions with which they begin.
    pub(crate) summed: Vec<ToldMapping>,
    pub(crate) begun: SeenPlaces,
    /// Those of them whose octets weren't all held.
    pub(crate) waits: Waits,
}

impl Model for Lane {
    ghost use Rattle.seen_octets.specs.Octets.{octet_at};
    ghost use Rattle.seen_streams.specs.Shows.{LaneKept, AreBegun, IsLaneBounded};
    ghost use Rattle.seen_streams.specs.Waits.{all_waiting, HaveGaps};

    ghost Value = { LaneKept };

    ghost view = { λ l. record {
      octets = l.octets;
      seen = l.seen;
      places = l.places;
      line = l.line;
      top = l.top;
      fin = l.fin;
      acknowledged = l.acknowledged;
      summed = l.summed.items;
      waiting = all_waiting l.waits;
    } };

    ghost invariant = { λ l. IsLaneBounded l.top l.fin l.line × AreBegun l.begun l.summed.items × HaveGaps (octet_at l.octets) l.waits };
}

impl Lane {
    /// Nothing was sent.
    #[tactic(auto, using(crate::proofs::Telling::empty_lane_of))]
    pub fn new(alloc: Global) -> Self
        ensures { lane_of result ≡ empty_lane }
    {
        Lane {
            octets: SeenOctets::new(alloc),
            seen: SeenPlaces::new(alloc, 1),
            places: FirstRuns::new(alloc),
            line: None,
            top: 1,
            fin: None,
            acknowledged: 0,
            summed: Vec::new(alloc),
            begun: SeenPlaces::new(alloc, 0),
            waits: Waits::new(alloc),
        }
    }

    // The end of the payload that was seen.
    pub(crate) fn top(&self) -> u64
        ensures value { result ≡ (lane_of self.now).top }
        ensures few { result ≤ 2 ^ 61 }
    {
        self.top
    }

    // The line of its infinite mapping.
    pub(crate) fn line(&self) -> Option<Line>
        ensures value { result ≡ (lane_of self.now).line }
        ensures bounded { IfSome result IsLineBounded }
    {
        self.line
    }

    // An infinite mapping is kept.
    pub(crate) fn keep_line(&mut self, line: Line)
        requires { IsLineBounded line }
        ensures { lane_of self.new ≡ record (lane_of self.old) { line = Some line } }
    {
        self.line = Some(line);
    }

    // Whether a mapping with a checksum was told.
    #[tactic(auto, using(crate::proofs::Summing::none_begins))]
    pub(crate) fn is_summed(&self, mapping: &ToldMapping) -> bool
        ensures { result ≡ (lane_of self.now).summed mapping.now }
    {
        if !self.begun.has(mapping.from()) {
            return false;
        }
        self.summed.iter().any(|one| same_mapping(mapping, one))
    }

    // A mapping with a checksum was told.
    #[tactic(auto, using(crate::proofs::Summing::begun_push, crate::proofs::Summing::begun_more))]
    pub(crate) fn keep_summed(&mut self, mapping: &ToldMapping) -> Result<(), AllocError>
        ensures { OnOk result (self.new ≡ record self.old
            { summed = self.old.summed ++ mapping.now ∷ [] }) }
    {
        let from = mapping.from();
        self.begun.add(from, from + 1)?;
        self.summed.push(*mapping)?;
        Ok(())
    }

    // A mapping with a checksum waits.
    pub(crate) fn keep_waiting(
        &mut self,
        mapping: &ToldMapping,
        packet: u32,
    ) -> Result<(), AllocError>
        ensures { OnOk result (self.new ≡ record self.old {
          waiting = self.old.waiting ++ record { mapping = mapping.now; packet = packet } ∷ [];
        }) }
    {
        let one = Waiting {
            mapping: *mapping,
            packet,
        };
        push(&mut self.waits, one)
    }

    /// The position of a segment: that of its first octet, or of its SYN, where position 0 has the number `base`. `None` where it would
    /// be below 0, or the one behind its payload of `len` octets above 2^61.
    pub fn position_of(&self, base: u32, number: u32, len: u64) -> Option<u64>
        ensures value { result ≡ position_of base (lane_of self.now) number len }
        ensures few { IfSome result (λ position. position + len ≤ 2 ^ 61) }
    {
        let position = near32(Seq32(base), self.top, Seq32(number))?;
        within_limit(position, len)
    }

    /// The first FIN stands at a position.
    pub fn take_fin(&mut self, position: u64)
        requires { position ≤ 2 ^ 61 }
        ensures { lane_of self.new ≡ with_fin position (lane_of self.old) }
    {
        self.fin = Some(first_fin(self.fin, position));
    }

    /// The position behind what was seen without a hole, the FIN too.
    pub fn behind(&self) -> u64
        ensures value { result ≡ behind_positions (lane_of self.now) }
        ensures few { result ≤ 2 ^ 62 }
    {
        behind_fin(self.fin, self.seen.whole(1))
    }
}

// A position, if the one behind so many octets is at most 2^61.
#[tactic(auto, using(crate::proofs::Lines::is_within, crate::proofs::Lines::is_beyond))]
fn within_limit(position: u64, len: u64) -> Option<u64>
    ensures value { result ≡ (if nat_le (position + len) (2 ^ 61) then Some position else None) }
    ensures few { IfSome result (λ position. position + len ≤ 2 ^ 61) }
{
    if len > 1 << 61 {
        return None;
    }
    if position > (1 << 61) - len {
        return None;
    }
    Some(position)
}

fn first_fin(fin: Option<u64>, position: u64) -> u64
    requires fin { IfSome fin (λ fin. fin ≤ 2 ^ 61) }
    requires position { position ≤ 2 ^ 61 }
    ensures value { Some result ≡ option_or fin (Some position) }
    ensures few { result ≤ 2 ^ 61 }
{
    match fin {
        Some(fin) => fin,
        None => position,
    }
}

fn behind_fin(fin: Option<u64>, whole: u64) -> u64
    requires fin { IfSome fin (λ fin. fin ≤ 2 ^ 61) }
    requires whole { whole ≤ 2 ^ 62 }
    ensures value { result ≡ (if is_fin_at fin whole then whole + 1 else whole) }
    ensures few { result ≤ 2 ^ 62 }
{
    match fin {
        Some(fin) if fin == whole => whole + 1,
        _ => whole,
    }
}
