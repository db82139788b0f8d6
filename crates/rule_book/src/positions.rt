//! The rules on positions and places, of a segment that isn't a SYN.

ghost use Rattle.std.specs.Prelude.{◌≡◌, ◌+◌, ◌-◌, ◌^◌, ◌≤◌, [], false, map, length, drop, IfOk, OnOk};
ghost use Rattle.std.specs.List.{list_any};
ghost use Rattle.mptcp_options.specs.Value.{value_of};
ghost use Rattle.judge_rules.specs.Mappings.{offer_of};
ghost use Rattle.seen_streams.specs.Content.{payload_of};
ghost use Rattle.seen_streams.specs.Both.{acked_of};
ghost use Rattle.seen_streams.specs.Shows.{lane_of, mapped_of, stream_of};
ghost use Rattle.rule_book.specs.Facts.{facts_of, held_payload, payload_at, payload_len};
ghost use Rattle.rule_book.specs.Stream.{acked_each, acked_one, behind_acks, behind_payload, closes_fast, failed_each, failed_one, fin_taken, judged_at, mapped_each, mapped_one, mapped_with, summed, within_each, within_found, within_one};

use crate::judging::{Judging, first_of};
use crate::signals::Keyed;
use judge_rules::{Finding, Rule, offer_of, within_fault};
use mptcp_options::MpOption;
use seen_streams::{
    Lane, Learnt, Payload, Shower, Stream, Teller, ToldMapping, add_sums, end_by_fin, judge_ack,
    judge_fail, learn_offer, take_payload, try_sums,
};
use std::alloc::{AllocError, Global};

/// Judges a segment at a position by all rules on the stream of its sender and on what this sent on its subflow.
pub(crate) fn judge_at(
    alloc: Global,
    stream: &mut Stream<'_>,
    lane: &mut Lane,
    peers: &Stream<'_>,
    judging: &Judging<'_>,
    keyed: &Keyed<'_>,
    position: u64,
) -> Result<(), AllocError>
    requires { position + judging.now.seen.payload_len ≤ 2 ^ 61 }
    ensures { OnOk result (acked_of stream.new lane.new
        ≡ judged_at (facts_of judging.now) position (map value_of keyed.now.options.items) keyed.now.keys (stream_of peers.now) (stream_of stream.old) (lane_of lane.old)) }
{
    let options: &[MpOption<'_>] = &keyed.options;
    take_fin(lane, judging, position);
    let own = first_of(judging.side, &keyed.keys);
    let learnt = learn_all(alloc, stream, lane, judging, own, position, options)?;
    take_octets(
        stream,
        lane,
        &learnt,
        judging,
        peers.acknowledged(),
        position,
    )?;
    judge_sums(stream, lane, &learnt, judging, own)?;
    let first = first_of(judging.side.peer(), &keyed.keys);
    judge_acks(stream, lane, peers, judging, first, options)?;
    Ok(())
}

// The first FIN stands behind the payload.
fn take_fin(lane: &mut Lane, judging: &Judging<'_>, position: u64)
    requires { position + judging.now.seen.payload_len ≤ 2 ^ 61 }
    ensures { lane_of lane.new ≡ fin_taken (facts_of judging.now) position (lane_of lane.old) }
{
    if judging.seen.segment.head.fin {
        lane.take_fin(position + judging.seen.payload_len as u64);
    }
}

// The mappings, where the sender's key is known.
fn learn_all(
    alloc: Global,
    stream: &mut Stream<'_>,
    lane: &mut Lane,
    judging: &Judging<'_>,
    first: Option<u64>,
    position: u64,
    options: &[MpOption<'_>],
) -> Result<Learnt, AllocError>
    requires { position ≤ 2 ^ 61 }
    ensures { IfOk result (λ learnt. mapped_of stream.new lane.new learnt
        ≡ mapped_with (facts_of judging.now) first position (map value_of options.now)
        (record { stream = stream_of stream.old; lane = lane_of lane.old; learnt = []; has_line = false })) }
{
    let mut learnt = Learnt::new(alloc);
    let Some(first) = first else {
        return Ok(learnt);
    };
    let teller = Teller {
        packet: judging.packet,
        flow: judging.index,
        first,
    };
    learn_each(stream, lane, &mut learnt, &teller, position, options)?;
    Ok(learnt)
}

fn learn_each(
    stream: &mut Stream<'_>,
    lane: &mut Lane,
    learnt: &mut Learnt,
    teller: &Teller,
    position: u64,
    options: &[MpOption<'_>],
) -> Result<(), AllocError>
    requires { position ≤ 2 ^ 61 }
    ensures { OnOk result (mapped_of stream.new lane.new learnt.new
        ≡ mapped_each teller.now position (map value_of options.now) (mapped_of stream.old lane.old learnt.old)) }
{
    for option in options {
        learn_one(stream, lane, learnt, teller, position, option)?;
    }
    Ok(())
}

fn learn_one(
    stream: &mut Stream<'_>,
    lane: &mut Lane,
    learnt: &mut Learnt,
    teller: &Teller,
    position: u64,
    option: &MpOption<'_>,
) -> Result<(), AllocError>
    requires { position ≤ 2 ^ 61 }
    ensures { OnOk result (mapped_of stream.new lane.new learnt.new
        ≡ mapped_one teller.now position (offer_of teller.now.first (value_of option.now)) (mapped_of stream.old lane.old learnt.old)) }
{
    match offer_of(teller.first, option) {
        Some(offer) => learn_offer(stream, lane, learnt, teller, position, &offer),
        None => Ok(()),
    }
}

// The payload, and what had come before of what is mapped now.
fn take_octets(
    stream: &mut Stream<'_>,
    lane: &mut Lane,
    learnt: &Learnt,
    judging: &Judging<'_>,
    acknowledged: u64,
    position: u64,
) -> Result<(), AllocError>
    requires { position + judging.now.seen.payload_len ≤ 2 ^ 61 }
    ensures { OnOk result (acked_of stream.new lane.new
        ≡ behind_payload (facts_of judging.now) position acknowledged (mapped_of stream.old lane.old learnt.now)) }
{
    judge_within(stream, judging, position, &learnt.mappings)?;
    end_by_fin(stream, lane, judging.packet);
    let shower = Shower {
        packet: judging.packet,
        acknowledged,
    };
    let payload = payload_at(judging, position);
    take_payload(stream, lane, learnt, &shower, &payload)?;
    Ok(())
}

fn payload_at<'a>(judging: &Judging<'a>, position: u64) -> Payload<'a>
    requires { position + judging.now.seen.payload_len ≤ 2 ^ 61 }
    ensures value { payload_of result ≡ payload_at (facts_of judging.now) position }
    ensures begun { 1 ≤ result.from }
    ensures order { result.from + length result.held.now ≤ result.to }
    ensures few { result.to ≤ 2 ^ 61 }
{
    let from = position.max(1);
    Payload {
        from,
        to: from.max(position + judging.payload_len()),
        held: behind(held_payload(judging), from - position),
    }
}

// The octets that are held of the payload.
fn held_payload<'a>(judging: &Judging<'a>) -> &'a [u8]
    ensures value { result.now ≡ held_payload (facts_of judging.now) }
    ensures few { length result.now ≤ payload_len (facts_of judging.now) }
{
    let payload = judging.seen.segment.payload();
    let len = payload.len().min(judging.payload_len() as usize);
    &payload[..len]
}

// All but the first ones, so many.
fn behind(octets: &[u8], count: u64) -> &[u8]
    ensures value { result.now ≡ drop count octets.now }
    ensures len { length result.now ≡ length octets.now - count }
{
    let skipped = octets.len().min(count as usize);
    &octets[skipped..]
}

// Payload is within each mapping that its segment tells.
fn judge_within(
    stream: &mut Stream<'_>,
    judging: &Judging<'_>,
    position: u64,
    mappings: &[ToldMapping],
) -> Result<(), AllocError>
    requires { position + judging.now.seen.payload_len ≤ 2 ^ 61 }
    ensures { OnOk result (stream_of stream.new ≡ within_each (facts_of judging.now) position
        mappings.now (stream_of stream.old)) }
{
    for mapping in mappings {
        within_one(stream, judging, position, mapping)?;
    }
    Ok(())
}

fn within_one(
    stream: &mut Stream<'_>,
    judging: &Judging<'_>,
    position: u64,
    mapping: &ToldMapping,
) -> Result<(), AllocError>
    requires { position + judging.now.seen.payload_len ≤ 2 ^ 61 }
    ensures { OnOk result (stream_of stream.new ≡ within_one (facts_of judging.now) position
        mapping.now (stream_of stream.old)) }
{
    match within_found(judging, position, mapping) {
        Some(finding) => stream.find(Rule::Within, judging.packet, finding),
        None => Ok(()),
    }
}

fn within_found(judging: &Judging<'_>, position: u64, mapping: &ToldMapping) -> Option<Finding>
    requires { position + judging.now.seen.payload_len ≤ 2 ^ 61 }
    ensures { result ≡ within_found (facts_of judging.now) position mapping.now }
{
    let len = judging.payload_len();
    let octets = mapping.octets();
    if len == 0 || octets == 0 {
        return None;
    }
    within_fault(position, len, mapping.from(), octets)
}

// Checksums, where the sender's key is known.
fn judge_sums(
    stream: &mut Stream<'_>,
    lane: &mut Lane,
    learnt: &Learnt,
    judging: &Judging<'_>,
    first: Option<u64>,
) -> Result<(), AllocError>
    ensures { OnOk result (acked_of stream.new lane.new
        ≡ summed (facts_of judging.now) first learnt.now.mappings.items (acked_of stream.old lane.old)) }
{
    let Some(first) = first else {
        return Ok(());
    };
    add_sums(lane, judging.packet, &learnt.mappings)?;
    try_sums(stream, lane, judging.packet, first)?;
    Ok(())
}

// Data ACKs, and then MP_FAIL, where the peers' key is known.
fn judge_acks(
    stream: &mut Stream<'_>,
    lane: &mut Lane,
    peers: &Stream<'_>,
    judging: &Judging<'_>,
    first: Option<u64>,
    options: &[MpOption<'_>],
) -> Result<(), AllocError>
    ensures { OnOk result (acked_of stream.new lane.new
        ≡ behind_acks (facts_of judging.now) first (stream_of peers.now) (map value_of options.now)
        (acked_of stream.old lane.old)) }
{
    let Some(first) = first else {
        return Ok(());
    };
    judge_each_ack(stream, lane, peers, judging, first, options)?;
    judge_each_fail(stream, peers, judging.packet, first, options)?;
    Ok(())
}

fn judge_each_ack(
    stream: &mut Stream<'_>,
    lane: &mut Lane,
    peers: &Stream<'_>,
    judging: &Judging<'_>,
    first: u64,
    options: &[MpOption<'_>],
) -> Result<(), AllocError>
    ensures { OnOk result (acked_of stream.new lane.new
        ≡ acked_each (facts_of judging.now) first (stream_of peers.now) (map value_of options.now)
        (acked_of stream.old lane.old)) }
{
    for option in options {
        judge_one_ack(stream, lane, peers, judging, first, option)?;
    }
    Ok(())
}

fn judge_one_ack(
    stream: &mut Stream<'_>,
    lane: &mut Lane,
    peers: &Stream<'_>,
    judging: &Judging<'_>,
    first: u64,
    option: &MpOption<'_>,
) -> Result<(), AllocError>
    ensures { OnOk result (acked_of stream.new lane.new
        ≡ acked_one (facts_of judging.now) first (stream_of peers.now) (value_of option.now) (acked_of stream.old lane.old)) }
{
    match option {
        MpOption::Dss { ack: Some(ack), .. } => judge_ack(
            stream,
            lane,
            peers,
            judging.at_sender,
            judging.plain,
            judging.packet,
            first,
            ack,
        ),
        _ => Ok(()),
    }
}

/// Whether one of the options that stay is an MP_FASTCLOSE.
pub(crate) fn closes_fast(keyed: &Keyed<'_>) -> bool
    ensures { result ≡ list_any closes_fast (map value_of keyed.now.options.items) }
{
    has_fast_close(&keyed.options)
}

fn has_fast_close(options: &[MpOption<'_>]) -> bool
    ensures { result ≡ list_any (λ option. closes_fast (value_of option)) options.now }
{
    options.iter().any(|option| is_fast_close(option))
}

fn is_fast_close(option: &MpOption<'_>) -> bool
    ensures { result ≡ closes_fast (value_of option.now) }
{
    matches!(option, MpOption::FastClose { .. })
}

fn judge_each_fail(
    stream: &mut Stream<'_>,
    peers: &Stream<'_>,
    packet: u32,
    first: u64,
    options: &[MpOption<'_>],
) -> Result<(), AllocError>
    ensures { OnOk result (stream_of stream.new
        ≡ failed_each packet first (stream_of peers.now) (map value_of options.now) (stream_of stream.old)) }
{
    for option in options {
        judge_one_fail(stream, peers, packet, first, option)?;
    }
    Ok(())
}

fn judge_one_fail(
    stream: &mut Stream<'_>,
    peers: &Stream<'_>,
    packet: u32,
    first: u64,
    option: &MpOption<'_>,
) -> Result<(), AllocError>
    ensures { OnOk result (stream_of stream.new
        ≡ failed_one packet first (stream_of peers.now) (value_of option.now) (stream_of stream.old)) }
{
    match option {
        MpOption::Fail { number } => judge_fail(stream, peers, packet, first, *number),
        _ => Ok(()),
    }
}
