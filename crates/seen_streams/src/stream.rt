//! What one side sent, over all subflows.

ghost use Rattle.std.specs.Prelude.{◌≡◌, ◌+◌, ◌^◌, ◌<◌, Some, OnOk};
ghost use Rattle.seen_streams.specs.Mapped.{fin_after, mapped_to, octets_of};
ghost use Rattle.seen_streams.specs.Shows.{as_fault, stream_of};
ghost use Rattle.seen_streams.specs.State.{counted, empty_stream, tell, Found};

use crate::told::{Infinite, ToldMapping};
use judge_rules::{Broken, Fault, Finding, Rule, ToldPlace, tell};
use seen_octets::{SeenOctets, SeenPlaces};
use std::alloc::{AllocError, Global};
use std::marker::Model;

/// What one side sent, over all subflows, by places of its stream, and the rules that it broke. Contracts read it by `stream_of`.
#[derive(Drop)]
pub struct Stream<'a> {
    /// Each rule that it broke, where it broke it first.
    pub(crate) broken: Vec<Broken<'a>>,
    /// How many options with keys, HMACs of joins, finite mappings, checksums and Data ACKs were tried.
    pub(crate) keys: u64,
    pub(crate) joins: u64,
    pub(crate) mappings: u64,
    pub(crate) sums: u64,
    pub(crate) data_acks: u64,
    /// Of each place the octet that was held first.
    pub(crate) octets: SeenOctets,
    /// The places that were seen, held or cut off.
    pub(crate) seen: SeenPlaces,
    /// The end of the mapped places.
    pub(crate) top: u64,
    pub(crate) fin: Option<ToldPlace>,
    /// The highest place that it acknowledged.
    pub(crate) acknowledged: u64,
    /// The places with which its mappings begin.
    pub(crate) starts: SeenPlaces,
    /// Its first infinite mapping.
    pub(crate) infinite: Option<Infinite>,
}

impl<'a> Model for Stream<'a> {
    ghost use Rattle.std.specs.Prelude.{◌^◌, ◌<◌, map};
    ghost use Rattle.seen_streams.specs.Shows.{StreamKept, as_broken};

    ghost Value = { StreamKept };

    ghost view = { λ s. record {
      broken = map as_broken s.broken.items;
      keys = s.keys;
      joins = s.joins;
      mappings = s.mappings;
      sums = s.sums;
      data_acks = s.data_acks;
      octets = s.octets;
      seen = s.seen;
      top = s.top;
      fin = s.fin;
      acknowledged = s.acknowledged;
      starts = s.starts;
      infinite = s.infinite;
    } };

    ghost invariant = { λ s. s.top < 2 ^ 62 };
}

impl<'a> Stream<'a> {
    /// Nothing was sent.
    #[tactic(auto, using(crate::proofs::Telling::empty_stream_of))]
    pub fn new(alloc: Global) -> Self
        ensures { stream_of result ≡ empty_stream }
    {
        Stream {
            broken: Vec::new(alloc),
            keys: 0,
            joins: 0,
            mappings: 0,
            sums: 0,
            data_acks: 0,
            octets: SeenOctets::new(alloc),
            seen: SeenPlaces::new(alloc, 0),
            top: 0,
            fin: None,
            acknowledged: 0,
            starts: SeenPlaces::new(alloc, 0),
            infinite: None,
        }
    }

    /// Tells that a packet breaks a rule: the first one stays.
    ///
    /// # Errors
    ///
    /// Want of memory, and then nothing was told.
    #[tactic(auto, using(crate::proofs::Telling::told_is))]
    pub fn tell(&mut self, rule: Rule, packet: u32, fault: Fault<'a>) -> Result<(), AllocError>
        ensures ok { OnOk result (stream_of self.new ≡ tell rule packet (as_fault fault.entry)
            (stream_of self.old)) }
    {
        tell(
            &mut self.broken,
            Broken {
                rule,
                packet,
                fault,
            },
        )
    }

    /// Tells that a packet broke a rule, by what was found.
    pub fn find(&mut self, rule: Rule, packet: u32, finding: Finding) -> Result<(), AllocError>
        ensures { OnOk result (stream_of self.new ≡ tell rule packet (Found finding)
            (stream_of self.old)) }
    {
        self.tell(rule, packet, Fault::Found { finding })
    }

    /// The highest place that it acknowledged.
    pub fn acknowledged(&self) -> u64
        ensures { result ≡ (stream_of self.now).acknowledged }
    {
        self.acknowledged
    }

    /// The end of the mapped places.
    pub(crate) fn top(&self) -> u64
        ensures value { result ≡ (stream_of self.now).top }
        ensures few { result < 2 ^ 62 }
    {
        self.top
    }

    /// The first infinite mapping.
    pub(crate) fn infinite(&self) -> Option<Infinite>
        ensures { result ≡ (stream_of self.now).infinite }
    {
        self.infinite
    }

    /// An infinite mapping is the first one, or that again.
    pub(crate) fn keep_infinite(&mut self, infinite: Infinite)
        ensures { stream_of self.new ≡ record (stream_of self.old) { infinite = Some infinite } }
    {
        self.infinite = Some(infinite);
    }

    /// A mapping ends the mapped places, or lies before their end, and may end the stream.
    pub(crate) fn map_to(&mut self, packet: u32, mapping: &ToldMapping)
        requires { mapping.now.place + octets_of mapping.now < 2 ^ 62 }
        ensures { stream_of self.new ≡ mapped_to packet mapping.now (stream_of self.old) }
    {
        let end = mapping.place + mapping.octets();
        self.top = self.top.max(end);
        self.fin = fin_after(self.fin, mapping.fin, end, packet);
    }

    /// One more finite mapping was told.
    pub(crate) fn count_mapping(&mut self)
        ensures { stream_of self.new ≡
            record (stream_of self.old) { mappings = counted (stream_of self.old).mappings } }
    {
        self.mappings = self.mappings.saturating_add(1);
    }

    /// One more checksum was tried.
    pub(crate) fn count_sum(&mut self)
        ensures { stream_of self.new ≡
            record (stream_of self.old) { sums = counted (stream_of self.old).sums } }
    {
        self.sums = self.sums.saturating_add(1);
    }

    /// One more Data ACK was tried.
    pub(crate) fn count_ack(&mut self)
        ensures { stream_of self.new ≡
            record (stream_of self.old) { data_acks = counted (stream_of self.old).data_acks } }
    {
        self.data_acks = self.data_acks.saturating_add(1);
    }

    /// One more option with keys was tried.
    pub fn count_keys(&mut self)
        ensures { stream_of self.new ≡
            record (stream_of self.old) { keys = counted (stream_of self.old).keys } }
    {
        self.keys = self.keys.saturating_add(1);
    }

    /// One more HMAC of a join was tried.
    pub fn count_joins(&mut self)
        ensures { stream_of self.new ≡
            record (stream_of self.old) { joins = counted (stream_of self.old).joins } }
    {
        self.joins = self.joins.saturating_add(1);
    }
}

fn fin_after(told: Option<ToldPlace>, fin: bool, end: u64, packet: u32) -> Option<ToldPlace>
    ensures { result ≡ fin_after told fin end packet }
{
    match told {
        Some(told) => Some(told),
        None if fin => Some(ToldPlace { place: end, packet }),
        None => None,
    }
}
