//! One segment of a flow whose connection is known, rule after rule.

ghost use Rattle.std.specs.Prelude.{◌≡◌, ◌+◌, ◌^◌, ◌≤◌, map, IfOk, IfSome, OnOk};
ghost use Rattle.capture_reader.specs.Seen.{as_seen};
ghost use Rattle.mptcp_options.specs.Value.{value_of};
ghost use Rattle.seen_connections.specs.SeenOptions.{as_value};
ghost use Rattle.seen_streams.specs.Acks.{plain_end};
ghost use Rattle.seen_streams.specs.Positions.{position_of};
ghost use Rattle.seen_streams.specs.Shows.{lane_of, stream_of};
ghost use Rattle.sides.specs.Side.{peer};
ghost use Rattle.rule_book.specs.Facts.{facts_of, own_base, own_lane, peers_lane, with_own_lane};
ghost use Rattle.rule_book.specs.Judged.{is_at, judged_opened, judged_side, opened_facts};
ghost use Rattle.rule_book.specs.Keyed.{keyed_of};
ghost use Rattle.rule_book.specs.Signals.{judged_options, told_formless};
ghost use Rattle.rule_book.specs.State.{book_of, lanes_of, stream_at, with_stream};
ghost use Rattle.rule_book.specs.Stream.{acknowledges_more, gap_counted, judged_at, judged_by, judged_positions, plain_beside, plain_on};

use crate::book::{Book, Lanes};
use crate::judging::Judging;
use crate::positions::{closes_fast, judge_at};
use crate::signals::{Keyed, judge_signals, take_keys, tell_formless};
use capture_reader::SeenSegment;
use seen_connections::{Flow, Keys, Opened, Opening, SeenOption, seen_options};
use seen_streams::{Lane, Stream, plain_end};
use seq_units::{Seq32, near32};
use sides::Side;
use std::alloc::{AllocError, Global};

/// Judges a segment of a side in a flow by all rules but `token`. Answers what is known of the keys then.
pub(crate) fn judge_side<'a>(
    alloc: Global,
    book: &mut Book<'a>,
    lanes: &mut Lanes,
    at: Option<Side>,
    packet: u32,
    seen: &SeenSegment<'a>,
    index: usize,
    flow: &Flow,
    side: Side,
    known: &Keys,
) -> Result<Keys, AllocError>
    ensures { IfOk result
        (λ keys. record {
          left = record { book = book_of book.new; lanes = lanes_of lanes.new };
          keys = keys;
        }
        ≡ judged_side at packet (as_seen seen.now) index flow.now side known.now (record { book = book_of book.old; lanes = lanes_of lanes.old })) }
{
    let read = seen_options(alloc, &seen.segment, known.checksums)?;
    let options: &[SeenOption<'a>] = &read;
    judge_form(book, side, packet, options)?;
    let Some(opened) = flow.opened else {
        return Ok(*known);
    };
    let judging = judging_of(at, packet, seen, index, flow, opened, side);
    let keys = judge_opened(alloc, book, lanes, &judging, known, options)?;
    Ok(keys)
}

// A segment of a side in an open flow.
fn judging_of<'a>(
    at: Option<Side>,
    packet: u32,
    seen: &SeenSegment<'a>,
    index: usize,
    flow: &Flow,
    opened: Opened,
    side: Side,
) -> Judging<'a>
    ensures { facts_of result ≡
        opened_facts at packet (as_seen seen.now) index flow.now opened side }
{
    Judging {
        packet,
        seen: *seen,
        index,
        flow: *flow,
        opened,
        side,
        is_opener: seen.source == flow.opener,
        at_sender: is_at(at, side),
        plain: 0,
    }
}

fn is_at(at: Option<Side>, side: Side) -> bool
    ensures { result ≡ is_at at side }
{
    matches!(
        (at, side),
        (Some(Side::A), Side::A) | (Some(Side::B), Side::B)
    )
}

// Tells each of the options of a side that reads as none.
fn judge_form<'a>(
    book: &mut Book<'a>,
    side: Side,
    packet: u32,
    options: &[SeenOption<'a>],
) -> Result<(), AllocError>
    ensures { OnOk result (book_of book.new ≡ with_stream side
        (told_formless packet (map as_value options.now) (stream_at side (book_of book.old)))
        (book_of book.old)) }
{
    match side {
        Side::A => tell_formless(&mut book.a, packet, options),
        Side::B => tell_formless(&mut book.b, packet, options),
    }
}

// Judges a packet of an open flow, by all rules but `form`.
fn judge_opened<'a>(
    alloc: Global,
    book: &mut Book<'a>,
    lanes: &mut Lanes,
    judging: &Judging<'a>,
    known: &Keys,
    options: &[SeenOption<'a>],
) -> Result<Keys, AllocError>
    ensures { IfOk result
        (λ keys. record {
          left = record { book = book_of book.new; lanes = lanes_of lanes.new };
          keys = keys;
        }
        ≡ judged_opened (facts_of judging.now) (map as_value options.now) known.now (record { book = book_of book.old; lanes = lanes_of lanes.old })) }
{
    let mut keyed = Keyed::new(alloc, known);
    judge_options(book, &mut keyed, judging, options)?;
    judge_positions(alloc, book, lanes, judging, &keyed)?;
    Ok(keyed.keys)
}

// The rules on keys, and then those on HMACs.
fn judge_options<'a>(
    book: &mut Book<'a>,
    keyed: &mut Keyed<'a>,
    judging: &Judging<'a>,
    options: &[SeenOption<'a>],
) -> Result<(), AllocError>
    ensures made { OnOk result (keyed_of keyed.new (stream_at judging.now.side (book_of book.new))
        ≡ judged_options (facts_of judging.now) (map as_value options.now) (keyed_of keyed.old (stream_at judging.now.side (book_of book.old)))) }
    ensures others { OnOk result
        (book_of book.new ≡ with_stream judging.now.side
        (stream_at judging.now.side (book_of book.new)) (book_of book.old)) }
{
    match judging.side {
        Side::A => judge_stream(&mut book.a, keyed, judging, options),
        Side::B => judge_stream(&mut book.b, keyed, judging, options),
    }
}

fn judge_stream<'a>(
    stream: &mut Stream<'a>,
    keyed: &mut Keyed<'a>,
    judging: &Judging<'a>,
    options: &[SeenOption<'a>],
) -> Result<(), AllocError>
    ensures { OnOk result (keyed_of keyed.new (stream_of stream.new)
        ≡ judged_options (facts_of judging.now) (map as_value options.now) (keyed_of keyed.old (stream_of stream.old))) }
{
    take_keys(stream, keyed, judging, options)?;
    judge_signals(stream, judging, &keyed.keys, &keyed.options)?;
    Ok(())
}

// The rules on positions and places, of a segment that isn't a SYN.
#[tactic(auto, using(crate::proofs::Steps::syn_left, crate::proofs::Steps::no_position, crate::proofs::Steps::from_position))]
fn judge_positions<'a>(
    alloc: Global,
    book: &mut Book<'a>,
    lanes: &mut Lanes,
    judging: &Judging<'a>,
    keyed: &Keyed<'a>,
) -> Result<(), AllocError>
    ensures { OnOk result (record { book = book_of book.new; lanes = lanes_of lanes.new }
        ≡ judged_positions (facts_of judging.now) (map value_of keyed.now.options.items) keyed.now.keys (record { book = book_of book.old; lanes = lanes_of lanes.old })) }
{
    if judging.seen.segment.head.syn {
        return Ok(());
    }
    let Some(position) = position_of(lanes, judging) else {
        return Ok(());
    };
    judge_from(alloc, book, lanes, judging, keyed, position)
}

// Judges a packet whose payload begins at a position of its flow.
fn judge_from<'a>(
    alloc: Global,
    book: &mut Book<'a>,
    lanes: &mut Lanes,
    judging: &Judging<'a>,
    keyed: &Keyed<'a>,
    position: u64,
) -> Result<(), AllocError>
    requires { position + judging.now.seen.payload_len ≤ 2 ^ 61 }
    ensures { OnOk result (record { book = book_of book.new; lanes = lanes_of lanes.new }
        ≡ judged_by (facts_of judging.now) position (map value_of keyed.now.options.items) keyed.now.keys (record { book = book_of book.old; lanes = lanes_of lanes.old })) }
{
    count_gap(book, lanes, judging);
    let judging = Judging {
        plain: plain_beside(book, lanes, judging, keyed),
        ..*judging
    };
    judge_lanes(alloc, book, lanes, &judging, keyed, position)?;
    Ok(())
}

// Behind which place the other side's stream came in plain TCP, where the segment has an MP_FASTCLOSE.
fn plain_beside(book: &Book<'_>, lanes: &Lanes, judging: &Judging<'_>, keyed: &Keyed<'_>) -> u64
    ensures { result
        ≡ plain_beside (map value_of keyed.now.options.items) judging.now.flow.opening (stream_at (peer judging.now.side) (book_of book.now))
        (peers_lane (facts_of judging.now) (lanes_of lanes.now)) }
{
    if closes_fast(keyed) {
        plain_on(book, lanes, judging)
    } else {
        0
    }
}

// It comes so on the connection's first subflow alone.
fn plain_on(book: &Book<'_>, lanes: &Lanes, judging: &Judging<'_>) -> u64
    ensures { result
        ≡ plain_on judging.now.flow.opening (stream_at (peer judging.now.side) (book_of book.now)) (peers_lane (facts_of judging.now) (lanes_of lanes.now)) }
{
    match judging.flow.opening {
        Opening::Join { .. } => 0,
        Opening::Capable { .. } => plain_lane(book, judging.side, peers_lane(lanes, judging)),
    }
}

// What the other end sent on the flow.
fn peers_lane<'l>(lanes: &'l Lanes, judging: &Judging<'_>) -> &'l Lane
    ensures { lane_of result.now ≡ peers_lane (facts_of judging.now) (lanes_of lanes.now) }
{
    if judging.is_opener {
        &lanes.other
    } else {
        &lanes.opener
    }
}

fn plain_lane(book: &Book<'_>, side: Side, lane: &Lane) -> u64
    ensures { result ≡ plain_end (stream_at (peer side) (book_of book.now)) (lane_of lane.now) }
{
    match side {
        Side::A => plain_end(&book.b, lane),
        Side::B => plain_end(&book.a, lane),
    }
}

// The rules on the stream of a side, and on its lane.
fn judge_lanes<'a>(
    alloc: Global,
    book: &mut Book<'a>,
    lanes: &mut Lanes,
    judging: &Judging<'a>,
    keyed: &Keyed<'a>,
    position: u64,
) -> Result<(), AllocError>
    requires { position + judging.now.seen.payload_len ≤ 2 ^ 61 }
    ensures judged { OnOk result
        (record {
          stream = stream_at judging.now.side (book_of book.new);
          lane = own_lane
              (facts_of judging.now) (lanes_of lanes.new);
        }
        ≡ judged_at (facts_of judging.now) position (map value_of keyed.now.options.items) keyed.now.keys
        (stream_at (peer judging.now.side) (book_of book.old)) (stream_at judging.now.side (book_of book.old))
        (own_lane (facts_of judging.now) (lanes_of lanes.old))) }
    ensures book { OnOk result
        (book_of book.new ≡ with_stream judging.now.side
        (stream_at judging.now.side (book_of book.new)) (book_of book.old)) }
    ensures lanes { OnOk result (lanes_of lanes.new
        ≡ with_own_lane (facts_of judging.now) (own_lane (facts_of judging.now) (lanes_of lanes.new)) (lanes_of lanes.old)) }
{
    if judging.is_opener {
        judge_book(alloc, book, &mut lanes.opener, judging, keyed, position)
    } else {
        judge_book(alloc, book, &mut lanes.other, judging, keyed, position)
    }
}

// The position of the segment on the lane of its sender.
fn position_of(lanes: &Lanes, judging: &Judging<'_>) -> Option<u64>
    ensures value { result ≡ position_of (own_base (facts_of judging.now)) (own_lane
        (facts_of judging.now) (lanes_of lanes.now))
        (facts_of judging.now).seen.segment.head.seq judging.now.seen.payload_len }
    ensures few { IfSome result (λ position. position + judging.now.seen.payload_len ≤ 2 ^ 61) }
{
    let head = &judging.seen.segment.head;
    let len = judging.seen.payload_len as u64;
    if judging.is_opener {
        lanes.opener.position_of(judging.own_base(), head.seq, len)
    } else {
        lanes.other.position_of(judging.own_base(), head.seq, len)
    }
}

// TCP's acknowledgement of positions beyond those that were seen without a hole is counted.
fn count_gap(book: &mut Book<'_>, lanes: &Lanes, judging: &Judging<'_>)
    ensures { book_of book.new
        ≡ (gap_counted (facts_of judging.now) (record { book = book_of book.old; lanes = lanes_of lanes.now })).book }
{
    let more = if judging.is_opener {
        acknowledges_more(&lanes.other, judging)
    } else {
        acknowledges_more(&lanes.opener, judging)
    };
    if more {
        book.gaps = book.gaps.saturating_add(1);
    }
}

fn acknowledges_more(lane: &Lane, judging: &Judging<'_>) -> bool
    ensures { result ≡ acknowledges_more (facts_of judging.now) (lane_of lane.now) }
{
    let head = &judging.seen.segment.head;
    if !head.ack_set || head.rst {
        return false;
    }
    let behind = lane.behind();
    match near32(Seq32(judging.peers_base()), behind, Seq32(head.ack)) {
        Some(position) => behind < position,
        None => false,
    }
}

fn judge_book<'a>(
    alloc: Global,
    book: &mut Book<'a>,
    lane: &mut Lane,
    judging: &Judging<'a>,
    keyed: &Keyed<'a>,
    position: u64,
) -> Result<(), AllocError>
    requires { position + judging.now.seen.payload_len ≤ 2 ^ 61 }
    ensures judged { OnOk result
        (record { stream = stream_at judging.now.side (book_of book.new); lane = lane_of lane.new }
        ≡ judged_at (facts_of judging.now) position (map value_of keyed.now.options.items) keyed.now.keys
        (stream_at (peer judging.now.side) (book_of book.old)) (stream_at judging.now.side (book_of book.old)) (lane_of lane.old)) }
    ensures others { OnOk result
        (book_of book.new ≡ with_stream judging.now.side
        (stream_at judging.now.side (book_of book.new)) (book_of book.old)) }
{
    match judging.side {
        Side::A => judge_at(alloc, &mut book.a, lane, &book.b, judging, keyed, position),
        Side::B => judge_at(alloc, &mut book.b, lane, &book.a, judging, keyed, position),
    }
}
