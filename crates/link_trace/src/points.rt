//! What passes the interfaces of one side: what it sends, and what arrives there.

ghost use Rattle.std.specs.Prelude.{◌≡◌, ◌+◌, ◌^◌, ◌<◌, ◌++◌, ◌∷◌, [], Some, IfOk, OnOk};
ghost use Rattle.link_trace.specs.Points.{arrived_octets, copies_over, copy_at, delay_on, seen_at, seen_of};
ghost use Rattle.link_trace.specs.Ticks.{AreByTick};

use crate::sent::Sent;
use crate::ticks::put_by_tick;
use link_model::Fate;
use link_script::PathLine;
use octet_text::Text;
use segment_wire::{addresses_from, alter, strip};
use sides::Side;
use std::alloc::{AllocError, Global};

/// The octets of a segment as they arrive.
fn arrived_octets(alloc: Global, sent: &Sent) -> Result<Text, AllocError>
    ensures { IfOk result (λ octets. octets ≡ arrived_octets sent.now) }
{
    let (addresses, octets) = (addresses_from(sent.path, sent.from), sent.octets.as_bytes());
    match (sent.fate.stripped, sent.fate.altered) {
        (false, false) => sent.octets.copy(),
        (true, false) => Ok(Text::from(strip(alloc, octets, &addresses)?)),
        (false, true) => Ok(Text::from(alter(alloc, octets, &addresses)?)),
        (true, true) => {
            let stripped = strip(alloc, octets, &addresses)?;
            Ok(Text::from(alter(alloc, &stripped, &addresses)?))
        }
    }
}

/// The segment at this tick with these octets.
fn with_octets(sent: &Sent, tick: u64, octets: Text) -> Sent
    ensures { result ≡ record sent.now { tick = tick; octets = octets } }
{
    Sent {
        tick,
        path: sent.path,
        from: sent.from,
        number: sent.number,
        octets,
        fate: sent.fate,
    }
}

/// Puts a segment as it is sent.
fn put_sent(seen: &mut Vec<Sent>, sent: &Sent) -> Result<(), AllocError>
    ensures { OnOk result (seen.new.items ≡ seen.old.items ++ sent.now ∷ []) }
{
    let octets = sent.octets.copy()?;
    seen.push(with_octets(sent, sent.tick, octets))?;
    Ok(())
}

/// Puts the copy of a segment that arrives at this tick, where it comes before the run ends.
fn put_copy(
    alloc: Global,
    seen: &mut Vec<Sent>,
    sent: &Sent,
    tick: u128,
    end: u64,
) -> Result<(), AllocError>
    ensures { OnOk result (seen.new.items ≡ seen.old.items ++ copy_at end sent.now tick) }
{
    if tick >= u128::from(end) {
        return Ok(());
    }
    let octets = arrived_octets(alloc, sent)?;
    seen.push(with_octets(sent, tick as u64, octets))?;
    Ok(())
}

/// For how many ticks a segment is on its way over the path of this number.
fn delay_on(path: u8, paths: &[PathLine]) -> Option<u32>
    ensures { result ≡ delay_on path paths.now }
{
    match paths.get(usize::from(path)) {
        None => None,
        Some(line) => Some(line.delay),
    }
}

/// The tick at which a segment arrives that was sent at this one, over a path of this delay, and waited so many ticks.
pub fn arrival_tick(tick: u64, delay: u32, waited: u32) -> u128
    ensures tick { result ≡ tick + delay + waited }
    ensures small { result < 2 ^ 65 }
{
    u128::from(tick) + u128::from(delay) + u128::from(waited)
}

/// Puts the copies of a segment that arrive after so many ticks and those that it waited.
fn put_copies(
    alloc: Global,
    seen: &mut Vec<Sent>,
    sent: &Sent,
    delay: u32,
    end: u64,
) -> Result<(), AllocError>
    ensures { OnOk result (seen.new.items ≡
        seen.old.items ++ copies_over (Some delay) end sent.now) }
{
    let on_time = arrival_tick(sent.tick, delay, sent.fate.waited);
    match sent.fate.arrival {
        Fate::Lost | Fate::Full => Ok(()),
        Fate::OnTime => put_copy(alloc, seen, sent, on_time, end),
        Fate::Late { ticks } => put_copy(alloc, seen, sent, on_time + u128::from(ticks), end),
        Fate::Twice { ticks } => {
            put_copy(alloc, seen, sent, on_time, end)?;
            put_copy(alloc, seen, sent, on_time + u128::from(ticks), end)
        }
    }
}

/// Puts what a side sees of a segment.
fn put_seen(
    alloc: Global,
    seen: &mut Vec<Sent>,
    side: Side,
    paths: &[PathLine],
    end: u64,
    sent: &Sent,
) -> Result<(), AllocError>
    ensures { OnOk result (seen.new.items ≡
        seen.old.items ++ seen_of side paths.now end sent.now) }
{
    if sent.from == side {
        return put_sent(seen, sent);
    }
    match delay_on(sent.path, paths) {
        Some(delay) => put_copies(alloc, seen, sent, delay, end),
        None => Ok(()),
    }
}

/// What a side sees of a trace, in the order of the trace.
fn all_seen(
    alloc: Global,
    side: Side,
    paths: &[PathLine],
    end: u64,
    trace: &[Sent],
) -> Result<Vec<Sent>, AllocError>
    ensures { IfOk result (λ seen. seen.items ≡ seen_at side paths.now end trace.now) }
{
    let mut seen = Vec::new(alloc);
    for sent in trace {
        put_seen(alloc, &mut seen, side, paths, end, sent)?;
    }
    Ok(seen)
}

/// What passes the interfaces of a side, over paths of these lines: each segment that the side sends, at its tick, and each copy that
/// arrives, at the tick at which it does, with the octets that do. A copy that is under way as the run ends, at the tick `end`, doesn't
/// arrive. They stand by tick, and those of one tick in the order of the trace.
pub fn seen_at(
    alloc: Global,
    side: Side,
    paths: &[PathLine],
    end: u64,
    trace: &[Sent],
) -> Result<Vec<Sent>, AllocError>
    ensures { IfOk result
        (λ seen. AreByTick (seen_at side paths.now end trace.now) seen.items) }
{
    let mut seen = all_seen(alloc, side, paths, end, trace)?;
    put_by_tick(&mut seen)?;
    Ok(seen)
}
