//! The rules on the form of options, on keys and on HMACs.

ghost use Rattle.std.specs.Prelude.{◌≡◌, [], map, OnOk};
ghost use Rattle.judge_rules.specs.declared.finding.Verdict.{Verdict};
ghost use Rattle.mptcp_options.specs.Value.{value_of};
ghost use Rattle.seen_connections.specs.SeenOptions.{as_value};
ghost use Rattle.seen_streams.specs.Shows.{stream_of};
ghost use Rattle.seen_streams.specs.State.{StreamValue};
ghost use Rattle.rule_book.specs.Facts.{facts_of};
ghost use Rattle.rule_book.specs.Keyed.{keyed_of};
ghost use Rattle.rule_book.specs.Signals.{by_both, by_mine, by_peers, formless_one, join_in, joined_by, judged_in, keyed_by, keyed_each, keyed_one, keyed_seen, kept_option, signalled, signalled_one, told_formless, told_verdict, with_a, with_key};

use crate::judging::Judging;
use judge_rules::{Fault, Rule, Verdict, judge_address, judge_fast_close, judge_join, judge_keys};
use mptcp_options::{CapableKeys, MpOption};
use seen_connections::{Keys, Opening, SeenOption};
use seen_streams::Stream;
use sides::Side;
use std::alloc::{AllocError, Global};

/// The options of a segment that are judged on, and what is known of the keys behind them.
#[derive(Drop)]
pub struct Keyed<'a> {
    pub options: Vec<MpOption<'a>>,
    pub keys: Keys,
}

impl Keyed<'_> {
    /// No option was judged on.
    pub(crate) fn new(alloc: Global, keys: &Keys) -> Self
        ensures options { result.options.items ≡ [] }
        ensures keys { result.keys ≡ keys.now }
    {
        Keyed {
            options: Vec::new(alloc),
            keys: *keys,
        }
    }
}

// Tells what a verdict says.
fn tell_verdict(
    stream: &mut Stream<'_>,
    rule: Rule,
    packet: u32,
    verdict: Verdict,
) -> Result<(), AllocError>
    ensures { OnOk result (stream_of stream.new ≡ told_verdict rule packet verdict
        (stream_of stream.old)) }
{
    match verdict {
        Verdict::Broke { finding } => stream.find(rule, packet, finding),
        _ => Ok(()),
    }
}

/// Each of the options of a segment that reads as none is told.
pub(crate) fn tell_formless<'a>(
    stream: &mut Stream<'a>,
    packet: u32,
    options: &[SeenOption<'a>],
) -> Result<(), AllocError>
    ensures { OnOk result (stream_of stream.new ≡ told_formless packet (map as_value options.now)
        (stream_of stream.old)) }
{
    for option in options {
        tell_one(stream, packet, option)?;
    }
    Ok(())
}

fn tell_one<'a>(
    stream: &mut Stream<'a>,
    packet: u32,
    option: &SeenOption<'a>,
) -> Result<(), AllocError>
    ensures { OnOk result (stream_of stream.new ≡ formless_one packet (as_value option.now)
        (stream_of stream.old)) }
{
    match *option {
        SeenOption::Broken(octets) => stream.tell(Rule::Form, packet, Fault::NoOption { octets }),
        SeenOption::Known(_) => Ok(()),
    }
}

/// The rule on keys. An MP_CAPABLE whose keys are wrong is passed over.
pub(crate) fn take_keys<'a>(
    stream: &mut Stream<'a>,
    keyed: &mut Keyed<'a>,
    judging: &Judging<'a>,
    options: &[SeenOption<'a>],
) -> Result<(), AllocError>
    ensures { OnOk result (keyed_of keyed.new (stream_of stream.new) ≡ keyed_each
        (facts_of judging.now) (map as_value options.now)
        (keyed_of keyed.old (stream_of stream.old))) }
{
    for option in options {
        take_seen(stream, keyed, judging, option)?;
    }
    Ok(())
}

fn take_seen<'a>(
    stream: &mut Stream<'a>,
    keyed: &mut Keyed<'a>,
    judging: &Judging<'a>,
    option: &SeenOption<'a>,
) -> Result<(), AllocError>
    ensures { OnOk result (keyed_of keyed.new (stream_of stream.new) ≡ keyed_seen
        (facts_of judging.now) (as_value option.now) (keyed_of keyed.old (stream_of stream.old))) }
{
    match *option {
        SeenOption::Known(option) => take_option(stream, keyed, judging, option),
        SeenOption::Broken(_) => Ok(()),
    }
}

fn take_option<'a>(
    stream: &mut Stream<'a>,
    keyed: &mut Keyed<'a>,
    judging: &Judging<'a>,
    option: MpOption<'a>,
) -> Result<(), AllocError>
    ensures { OnOk result (keyed_of keyed.new (stream_of stream.new) ≡ keyed_one
        (facts_of judging.now) (value_of option.entry) (keyed_of keyed.old (stream_of stream.old))) }
{
    match option {
        MpOption::Capable { keys, .. } => {
            let verdict = judge_in(&judging.flow.opening, judging.side, &keyed.keys, &keys);
            take_capable(stream, keyed, judging, option, &keys, verdict)
        }
        _ => keep(keyed, option),
    }
}

// An option that is judged on.
#[tactic(auto, using(crate::proofs::Growing::option_kept))]
fn keep<'a>(keyed: &mut Keyed<'a>, option: MpOption<'a>) -> Result<(), AllocError>
    ensures { (stream : StreamValue) →
        OnOk result (keyed_of keyed.new stream ≡ kept_option (value_of option.entry)
        (keyed_of keyed.old stream)) }
{
    keyed.options.push(option)?;
    Ok(())
}

// The rule on keys of an MP_CAPABLE, which is judged in a flow of MP_CAPABLE alone.
fn judge_in(opening: &Opening, side: Side, known: &Keys, keys: &CapableKeys) -> Verdict
    ensures { result ≡ judged_in opening.now side known.now keys.now }
{
    match opening {
        Opening::Join { .. } => Verdict::PassedOver,
        Opening::Capable { .. } => judge_keys(side, known.of(side), known.of(side.peer()), keys),
    }
}

// What a verdict on its keys makes of an MP_CAPABLE.
fn take_capable<'a>(
    stream: &mut Stream<'a>,
    keyed: &mut Keyed<'a>,
    judging: &Judging<'a>,
    option: MpOption<'a>,
    keys: &CapableKeys,
    verdict: Verdict,
) -> Result<(), AllocError>
    ensures { OnOk result (keyed_of keyed.new (stream_of stream.new) ≡ keyed_by verdict
        (facts_of judging.now) (value_of option.entry) keys.now
        (keyed_of keyed.old (stream_of stream.old))) }
{
    match verdict {
        Verdict::PassedOver => Ok(()),
        Verdict::Kept => {
            let known = with_a(judging.side, keys, &keyed.keys);
            stream.count_keys();
            keep(keyed, option)?;
            keyed.keys = known;
            Ok(())
        }
        Verdict::Broke { finding } => {
            stream.count_keys();
            stream.find(Rule::Keys, judging.packet, finding)
        }
    }
}

// A's key is known from its first MP_CAPABLE on that keeps the rule.
fn with_a(side: Side, keys: &CapableKeys, known: &Keys) -> Keys
    ensures { result ≡ with_a side keys.now known.now }
{
    match (side, *keys) {
        (Side::A, CapableKeys::Both { sender, .. }) => with_sender(sender, known),
        (Side::A, CapableKeys::WithData { sender, .. }) => with_sender(sender, known),
        _ => *known,
    }
}

fn with_sender(sender: u64, known: &Keys) -> Keys
    ensures { result ≡ record known.now { a = with_key known.now.a sender } }
{
    Keys {
        a: first_key(known.a, sender),
        ..*known
    }
}

fn first_key(known: Option<u64>, sender: u64) -> Option<u64>
    ensures { result ≡ with_key known sender }
{
    match known {
        Some(known) => Some(known),
        None => Some(sender),
    }
}

/// The rules on HMACs and on the key of MP_FASTCLOSE.
pub(crate) fn judge_signals(
    stream: &mut Stream<'_>,
    judging: &Judging<'_>,
    known: &Keys,
    options: &[MpOption<'_>],
) -> Result<(), AllocError>
    ensures { OnOk result (stream_of stream.new ≡ signalled (facts_of judging.now) known.now
        (map value_of options.now) (stream_of stream.old)) }
{
    for option in options {
        judge_signal(stream, judging, known, option)?;
    }
    Ok(())
}

fn judge_signal(
    stream: &mut Stream<'_>,
    judging: &Judging<'_>,
    known: &Keys,
    option: &MpOption<'_>,
) -> Result<(), AllocError>
    ensures { OnOk result (stream_of stream.new ≡ signalled_one (facts_of judging.now) known.now
        (value_of option.now) (stream_of stream.old)) }
{
    let peers = known.of(judging.side.peer());
    let mine = known.of(judging.side);
    judge_by_keys(stream, judging, mine, peers, option)
}

// By the keys of both sides, as far as they are known.
fn judge_by_keys(
    stream: &mut Stream<'_>,
    judging: &Judging<'_>,
    mine: Option<u64>,
    peers: Option<u64>,
    option: &MpOption<'_>,
) -> Result<(), AllocError>
    ensures { OnOk result (stream_of stream.new ≡ by_peers peers mine (facts_of judging.now)
        (value_of option.now) (stream_of stream.old)) }
{
    let Some(peers) = peers else {
        return Ok(());
    };
    judge_by_mine(stream, judging, mine, peers, option)?;
    let verdict = judge_fast_close(peers, option);
    tell_verdict(stream, Rule::FastCloseKey, judging.packet, verdict)?;
    Ok(())
}

fn judge_by_mine(
    stream: &mut Stream<'_>,
    judging: &Judging<'_>,
    mine: Option<u64>,
    peers: u64,
    option: &MpOption<'_>,
) -> Result<(), AllocError>
    ensures { OnOk result (stream_of stream.new ≡ by_mine mine peers (facts_of judging.now)
        (value_of option.now) (stream_of stream.old)) }
{
    match mine {
        Some(mine) => judge_hmacs(stream, judging, mine, peers, option),
        None => Ok(()),
    }
}

// Where both keys are known.
fn judge_hmacs(
    stream: &mut Stream<'_>,
    judging: &Judging<'_>,
    mine: u64,
    peers: u64,
    option: &MpOption<'_>,
) -> Result<(), AllocError>
    ensures { OnOk result (stream_of stream.new ≡ by_both mine peers (facts_of judging.now)
        (value_of option.now) (stream_of stream.old)) }
{
    let joined = join_in(judging, mine, peers, option);
    take_join(stream, judging.packet, joined)?;
    let announced = judge_address(mine, peers, option);
    tell_verdict(stream, Rule::AddressHmac, judging.packet, announced)?;
    Ok(())
}

// The HMAC of a join, in a flow of a join.
fn join_in(judging: &Judging<'_>, mine: u64, peers: u64, option: &MpOption<'_>) -> Verdict
    ensures { result ≡ join_in (facts_of judging.now).flow.opening (facts_of judging.now) mine peers
        (value_of option.now) }
{
    match (judging.flow.opening, option) {
        (Opening::Join { nonce, .. }, MpOption::Join { form }) => {
            let answer = judging.opened.nonce;
            judge_join(judging.is_opener, mine, peers, nonce, answer, form)
        }
        _ => Verdict::PassedOver,
    }
}

fn take_join(stream: &mut Stream<'_>, packet: u32, verdict: Verdict) -> Result<(), AllocError>
    ensures { OnOk result (stream_of stream.new ≡ joined_by verdict packet (stream_of stream.old)) }
{
    match verdict {
        Verdict::PassedOver => Ok(()),
        Verdict::Kept => {
            stream.count_joins();
            Ok(())
        }
        Verdict::Broke { finding } => {
            stream.count_joins();
            stream.find(Rule::JoinHmac, packet, finding)
        }
    }
}
