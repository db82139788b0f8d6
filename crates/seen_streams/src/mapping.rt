//! The rules on finite mappings, and what is learnt of one that holds.

ghost use Rattle.std.specs.Prelude.{◌≡◌, pos, neg_ℤ, ◌+◌, ◌^◌, ◌<◌, ◌<ℤ◌, ◌≤ℤ◌, IfSome, OnOk};
ghost use Rattle.judge_rules.specs.declared.finding.Finding.TheVariants.{NoPlace};
ghost use Rattle.judge_rules.specs.declared.finding.Rule.TheVariants as rule;
ghost use Rattle.judge_rules.specs.Mappings.{mapped_octets};
ghost use Rattle.judge_rules.specs.Numbers.{told_number};
ghost use Rattle.seen_streams.specs.Mapped.{against_infinite, finite, finite_by, finite_fault, finite_learnt, goes_on, octets_fault, octets_of, placed_fault, started, told_mapping, with_mapping, with_places, run_of, by_rule};
ghost use Rattle.seen_streams.specs.Shows.{lane_of, mapped_of, stream_of, IsLineBounded};
ghost use Rattle.seen_streams.specs.State.{tell, Found};

use crate::lane::Lane;
use crate::stream::Stream;
use crate::told::{Broke, Infinite, Learnt, Teller, ToldMapping, natural};
use judge_rules::{
    Finding, Line, Offer, Rule, ToldPlace, fin_fault, first_clash, goes_on_elsewhere, told_number,
};
use std::alloc::AllocError;

/// Learns a finite mapping, if it keeps the rules. It is the mapping of an option whose relative number means this position.
pub(crate) fn learn_finite(
    stream: &mut Stream<'_>,
    lane: &mut Lane,
    learnt: &mut Learnt,
    teller: &Teller,
    offer: &Offer,
    position: i64,
) -> Result<(), AllocError>
    requires low { neg_ℤ (pos (2 ^ 62)) ≤ℤ position }
    requires high { position <ℤ pos (2 ^ 62) }
    ensures { OnOk result (mapped_of stream.new lane.new learnt.new
        ≡ finite teller.now offer.now position (mapped_of stream.old lane.old learnt.old)) }
{
    stream.count_mapping();
    match offer.place(teller.first, stream.top()) {
        Some(place) => learn_placed(stream, lane, learnt, teller, offer, position, place),
        None => find_no_place(stream, teller, offer),
    }
}

// Learns a mapping of finite length whose first octet has a place.
fn learn_placed(
    stream: &mut Stream<'_>,
    lane: &mut Lane,
    learnt: &mut Learnt,
    teller: &Teller,
    offer: &Offer,
    position: i64,
    place: u64,
) -> Result<(), AllocError>
    requires high { position <ℤ pos (2 ^ 62) }
    requires place { place + mapped_octets offer.now < 2 ^ 62 }
    ensures { OnOk result (mapped_of stream.new lane.new learnt.new
        ≡ finite_by (finite_fault teller.now (stream_of stream.old) (lane_of lane.old) offer.now position place) teller.now.packet
        (told_mapping offer.now position place) (mapped_of stream.old lane.old learnt.old)) }
{
    match finite_fault(stream, lane, teller, offer, position, place) {
        Some(broke) => stream.find(broke.rule, teller.packet, broke.finding),
        None => {
            let mapping = told_mapping(offer, position, place);
            keep(stream, lane, learnt, teller.packet, &mapping)
        }
    }
}

/// Tells that the data number of a mapping means no place.
pub(crate) fn find_no_place(
    stream: &mut Stream<'_>,
    teller: &Teller,
    offer: &Offer,
) -> Result<(), AllocError>
    ensures { OnOk result (stream_of stream.new
        ≡ tell rule.Mapping teller.now.packet (Found (NoPlace (told_number offer.now.number))) (stream_of stream.old)) }
{
    let number = told_number(&offer.number);
    stream.find(Rule::Mapping, teller.packet, Finding::NoPlace { number })
}

fn told_mapping(offer: &Offer, position: i64, place: u64) -> ToldMapping
    ensures { result ≡ told_mapping offer.now position place }
{
    ToldMapping {
        place,
        position,
        length: offer.length,
        checksum: offer.checksum,
        fin: offer.fin,
    }
}

// What a finite mapping breaks, if it breaks anything.
fn finite_fault(
    stream: &Stream<'_>,
    lane: &Lane,
    teller: &Teller,
    offer: &Offer,
    position: i64,
    place: u64,
) -> Option<Broke>
    requires high { position <ℤ pos (2 ^ 62) }
    requires place { place + mapped_octets offer.now < 2 ^ 62 }
    ensures { result ≡ finite_fault teller.now (stream_of stream.now) (lane_of lane.now) offer.now
        position place }
{
    match octets_fault(stream, lane, teller, offer, position, place) {
        Some(broke) => Some(broke),
        None => by_rule(
            Rule::DataFin,
            fin_fault(
                stream.fin(),
                stream.top(),
                place + offer.octets(),
                offer.fin,
            ),
        ),
    }
}

fn by_rule(rule: Rule, finding: Option<Finding>) -> Option<Broke>
    ensures { result ≡ by_rule rule finding }
{
    finding.map(|finding| Broke { rule, finding })
}

// What the octets of a mapping break.
fn octets_fault(
    stream: &Stream<'_>,
    lane: &Lane,
    teller: &Teller,
    offer: &Offer,
    position: i64,
    place: u64,
) -> Option<Broke>
    requires high { position <ℤ pos (2 ^ 62) }
    requires place { place + mapped_octets offer.now < 2 ^ 62 }
    ensures { result ≡ octets_fault teller.now (stream_of stream.now) (lane_of lane.now) offer.now
        position place }
{
    if offer.octets() == 0 {
        return None;
    }
    if position < 0 {
        let relative = offer.relative;
        return Some(Broke {
            rule: Rule::Mapping,
            finding: Finding::NoPosition { relative },
        });
    }
    placed_fault(
        stream,
        lane,
        teller,
        natural(position),
        place,
        offer.octets(),
    )
}

// What the octets of a mapping from a position on break.
fn placed_fault(
    stream: &Stream<'_>,
    lane: &Lane,
    teller: &Teller,
    from: u64,
    place: u64,
    octets: u64,
) -> Option<Broke>
    requires from { from < 2 ^ 62 }
    requires octets { octets < 2 ^ 16 }
    requires place { place + octets < 2 ^ 62 }
    ensures { result ≡ placed_fault teller.now (stream_of stream.now) (lane_of lane.now) from place
        octets }
{
    match first_clash(&lane.places, from, from + octets, place) {
        Some(finding) => by_rule(Rule::Mapping, Some(finding)),
        None => by_rule(
            Rule::Infinite,
            against_infinite(stream, lane, teller, from, place, octets),
        ),
    }
}

// What breaks the rule on a finite mapping after an infinite one.
fn against_infinite(
    stream: &Stream<'_>,
    lane: &Lane,
    teller: &Teller,
    from: u64,
    place: u64,
    octets: u64,
) -> Option<Finding>
    requires from { from < 2 ^ 62 }
    requires octets { octets < 2 ^ 16 }
    requires place { place + octets < 2 ^ 62 }
    ensures { result ≡ against_infinite (stream_of stream.now).infinite teller.now.flow (stream_of
        stream.now).top (lane_of lane.now).line (pos from) place octets }
{
    let infinite = stream.infinite()?;
    if !goes_on(
        &infinite,
        teller.flow,
        stream.top(),
        lane.line(),
        from,
        place,
        octets,
    ) {
        return None;
    }
    Some(Finding::AfterInfinite {
        position: from as i64,
        place,
        packet: infinite.packet,
    })
}

fn goes_on(
    infinite: &Infinite,
    flow: usize,
    top: u64,
    line: Option<Line>,
    from: u64,
    place: u64,
    octets: u64,
) -> bool
    requires line { IfSome line IsLineBounded }
    requires from { from < 2 ^ 62 }
    requires octets { octets < 2 ^ 16 }
    requires place { place + octets < 2 ^ 62 }
    ensures { result ≡ goes_on infinite.now flow top line (pos from) place octets }
{
    if infinite.flow != flow {
        return goes_on_elsewhere(top, infinite.place, place + octets);
    }
    match line {
        Some(line) => line.is_left_by(from as i64, place, octets),
        None => false,
    }
}

// Keeps a mapping that holds.
fn keep(
    stream: &mut Stream<'_>,
    lane: &mut Lane,
    learnt: &mut Learnt,
    packet: u32,
    mapping: &ToldMapping,
) -> Result<(), AllocError>
    requires place { mapping.now.place + octets_of mapping.now < 2 ^ 62 }
    ensures { OnOk result (mapped_of stream.new lane.new learnt.new
        ≡ finite_learnt packet mapping.now (mapped_of stream.old lane.old learnt.old)) }
{
    keep_in_stream(stream, packet, mapping)?;
    keep_in_lane(lane, packet, mapping)?;
    learnt.mappings.push(*mapping)?;
    Ok(())
}

fn keep_in_stream(
    stream: &mut Stream<'_>,
    packet: u32,
    mapping: &ToldMapping,
) -> Result<(), AllocError>
    requires { mapping.now.place + octets_of mapping.now < 2 ^ 62 }
    ensures { OnOk result (stream_of stream.new ≡ with_mapping packet mapping.now
        (stream_of stream.old)) }
{
    start(stream, mapping.place)?;
    stream.map_to(packet, mapping);
    Ok(())
}

/// A mapping begins with a place.
#[tactic(auto, using(crate::proofs::Telling::same_starts))]
pub(crate) fn start(stream: &mut Stream<'_>, place: u64) -> Result<(), AllocError>
    requires { place < 2 ^ 62 }
    ensures { OnOk result (stream_of stream.new ≡ started place (stream_of stream.old)) }
{
    stream.starts.add(place, place + 1)
}

#[tactic(auto, using(crate::proofs::Telling::same_places))]
fn keep_in_lane(lane: &mut Lane, packet: u32, mapping: &ToldMapping) -> Result<(), AllocError>
    requires place { mapping.now.place < 2 ^ 62 }
    ensures { OnOk result (lane_of lane.new ≡ with_places (run_of packet mapping.now)
        (lane_of lane.old)) }
{
    lane.places.fill(mapping.run(packet))
}
