//! Mappings with a checksum that wait for their octets.

ghost use Rattle.std.specs.Prelude.{◌≡◌, ℕ, ◌+◌, ◌-◌, ◌^◌, ◌<◌, ◌≤◌, ◌∷◌, ◌++◌, [], true, false, Option, IfSome, IfNone, OnOk, length};
ghost use Rattle.std.specs.Option.{option_or};
ghost use Rattle.seen_octets.specs.declared.octet.Octet.{Octet};
ghost use Rattle.seen_octets.specs.Octets.{all_held, octet_at, octet_by};
ghost use Rattle.seen_octets.specs.Places.{is_seen};
ghost use Rattle.judge_rules.specs.Mappings.{natural};
ghost use Rattle.seen_streams.specs.Mapped.{octets_of};
ghost use Rattle.seen_streams.specs.Waits.{all_waiting, still_open, AreOpen, HaveGaps, IsFree};

use crate::told::Waiting;
use seen_octets::{SeenOctets, SeenPlaces};
use std::alloc::{AllocError, Global};
use std::mem;

/// Mappings with a checksum whose octets weren't all held, in the order in which they were told: those that were tried, and behind them
/// those that weren't yet. Each that was tried has a gap, a position that had no octet then.
#[derive(Drop)]
pub struct Waits {
    pub tried: Vec<Waiting>,
    pub fresh: Vec<Waiting>,
    pub gaps: SeenPlaces,
    /// Positions from this one on, below the next, may have got octets since.
    pub from: u64,
    pub to: u64,
}

impl Waits {
    /// None waits.
    pub(crate) fn new(alloc: Global) -> Self
        ensures tried { result.tried.items ≡ [] }
        ensures fresh { result.fresh.items ≡ [] }
    {
        Waits {
            tried: Vec::new(alloc),
            fresh: Vec::new(alloc),
            gaps: SeenPlaces::new(alloc, 0),
            from: u64::MAX,
            to: 0,
        }
    }
}

/// One more waits.
#[tactic(auto, using(crate::proofs::Gaps::one_more))]
pub(crate) fn push(waits: &mut Waits, one: Waiting) -> Result<(), AllocError>
    ensures all { OnOk result (all_waiting waits.new ≡ all_waiting waits.old ++ one ∷ []) }
    ensures gaps { (octet : ℕ → Option Octet) → HaveGaps octet waits.old →
        HaveGaps octet waits.new }
{
    waits.fresh.push(one)?;
    Ok(())
}

/// Gives octets to positions from one on that have none.
#[tactic(auto, using(crate::proofs::Gaps::gaps_filled))]
pub(crate) fn fill(
    octets: &mut SeenOctets,
    waits: &mut Waits,
    from: u64,
    part: &[u8],
    packet: u32,
) -> Result<(), AllocError>
    requires { from + length part.now < 2 ^ 64 }
    ensures filled { OnOk result ((p : ℕ) → octet_at octets.new p ≡
        option_or (octet_at octets.old p) (octet_by from part.now packet p)) }
    ensures all { all_waiting waits.new ≡ all_waiting waits.old }
    ensures gaps { HaveGaps (octet_at octets.old) waits.old →
        HaveGaps (octet_at octets.new) waits.new }
{
    reach(waits, from, from + part.len() as u64);
    octets.fill(from, part, packet)
}

// Positions from one on, below another, may get octets.
#[tactic(auto, using(crate::proofs::Gaps::gaps_reached))]
fn reach(waits: &mut Waits, from: u64, to: u64)
    ensures all { all_waiting waits.new ≡ all_waiting waits.old }
    ensures begun { waits.new.from ≤ from }
    ensures ended { to ≤ waits.new.to }
    ensures gaps { (octet : ℕ → Option Octet) → HaveGaps octet waits.old →
        HaveGaps octet waits.new }
{
    waits.from = waits.from.min(from);
    waits.to = waits.to.max(to);
}

/// Where a gap may have got its octet all are to be tried anew.
///
/// # Errors
///
/// Want of memory.
pub(crate) fn wake(waits: &mut Waits) -> Result<(), AllocError>
    ensures all { OnOk result (all_waiting waits.new ≡ all_waiting waits.old) }
    ensures gaps { (octet : ℕ → Option Octet) → HaveGaps octet waits.old →
        HaveGaps octet waits.new }
    ensures unfilled { OnOk result ((octet : ℕ → Option Octet) → HaveGaps octet waits.old →
        AreOpen octet waits.new.tried.items) }
{
    if is_gap_reached(waits) {
        return try_anew(waits);
    }
    go_on(waits);
    Ok(())
}

// Whether a gap may have got its octet.
#[tactic(auto, using(crate::proofs::Gaps::none_reached, crate::proofs::Gaps::nothing_reached))]
fn is_gap_reached(waits: &Waits) -> bool
    ensures { result ≡ false → (p : ℕ) → waits.now.from ≤ p → p < waits.now.to →
        is_seen waits.now.gaps p ≡ false }
{
    if waits.to <= waits.from {
        return false;
    }
    let stretch = waits.gaps.stretch(waits.from, waits.to);
    stretch.marked || stretch.end < waits.to
}

fn try_anew(waits: &mut Waits) -> Result<(), AllocError>
    ensures all { OnOk result (all_waiting waits.new ≡ all_waiting waits.old) }
    ensures gaps { (octet : ℕ → Option Octet) → HaveGaps octet waits.old →
        HaveGaps octet waits.new }
    ensures none { OnOk result (waits.new.tried.items ≡ []) }
{
    waits.tried.extend_from_slice(&waits.fresh)?;
    waits.fresh.clear();
    mem::swap(&mut waits.tried, &mut waits.fresh);
    (waits.from, waits.to) = (u64::MAX, 0);
    Ok(())
}

// No gap got its octet.
#[tactic(auto, using(crate::proofs::Gaps::gaps_kept, crate::proofs::Gaps::still_open_all))]
fn go_on(waits: &mut Waits)
    requires { (p : ℕ) → waits.old.from ≤ p → p < waits.old.to → is_seen waits.old.gaps p ≡ false }
    ensures all { all_waiting waits.new ≡ all_waiting waits.old }
    ensures gaps { (octet : ℕ → Option Octet) → HaveGaps octet waits.old →
        HaveGaps octet waits.new }
    ensures unfilled { (octet : ℕ → Option Octet) → HaveGaps octet waits.old →
        AreOpen octet waits.new.tried.items }
{
    (waits.from, waits.to) = (u64::MAX, 0);
}

/// Those that weren't tried yet wait on, with a gap, unless they are whole.
///
/// # Errors
///
/// Want of memory.
pub(crate) fn wait_on(octets: &SeenOctets, waits: &mut Waits) -> Result<(), AllocError>
    requires { HaveGaps (octet_at octets.now) waits.old }
    ensures gaps { HaveGaps (octet_at octets.now) waits.new }
    ensures all { OnOk result (all_waiting waits.new ≡
        waits.old.tried.items ++ still_open (octet_at octets.now) waits.old.fresh.items) }
{
    let alloc = *waits.fresh.allocator();
    let fresh = mem::replace(&mut waits.fresh, Vec::new(alloc));
    keep_open(octets, waits, &fresh)
}

fn keep_open(octets: &SeenOctets, waits: &mut Waits, fresh: &[Waiting]) -> Result<(), AllocError>
    requires { HaveGaps (octet_at octets.now) waits.old }
    ensures gaps { HaveGaps (octet_at octets.now) waits.new }
    ensures fresh { waits.new.fresh.items ≡ waits.old.fresh.items }
    ensures tried { OnOk result (waits.new.tried.items ≡
        waits.old.tried.items ++ still_open (octet_at octets.now) fresh.now) }
{
    for one in fresh {
        keep_if_open(octets, waits, one)?;
    }
    Ok(())
}

// One waits on, unless it is whole.
#[tactic(auto, using(crate::proofs::Gaps::open_one, crate::proofs::Gaps::whole_one))]
fn keep_if_open(octets: &SeenOctets, waits: &mut Waits, one: &Waiting) -> Result<(), AllocError>
    requires { HaveGaps (octet_at octets.now) waits.old }
    ensures gaps { HaveGaps (octet_at octets.now) waits.new }
    ensures fresh { waits.new.fresh.items ≡ waits.old.fresh.items }
    ensures tried { OnOk result (waits.new.tried.items ≡
        waits.old.tried.items ++ still_open (octet_at octets.now) (one.now ∷ [])) }
{
    match first_gap(octets, one.mapping.from(), one.mapping.octets()) {
        Some(gap) => keep_with(octets, waits, one, gap),
        None => Ok(()),
    }
}

// One waits on, with this gap.
fn keep_with(
    octets: &SeenOctets,
    waits: &mut Waits,
    one: &Waiting,
    gap: u64,
) -> Result<(), AllocError>
    requires gaps { HaveGaps (octet_at octets.now) waits.old }
    requires free { IsFree (octet_at octets.now) (natural one.now.mapping.position)
        (octets_of one.now.mapping) gap }
    requires few { gap < 2 ^ 64 - 1 }
    ensures gaps { HaveGaps (octet_at octets.now) waits.new }
    ensures fresh { waits.new.fresh.items ≡ waits.old.fresh.items }
    ensures tried { OnOk result (waits.new.tried.items ≡ waits.old.tried.items ++ one.now ∷ []) }
{
    waits.gaps.add(gap, gap + 1)?;
    waits.tried.push(*one)?;
    Ok(())
}

// The first of so many positions from one on that has no octet.
#[tactic(auto, using(crate::proofs::Gaps::all_passed))]
fn first_gap(octets: &SeenOctets, from: u64, count: u64) -> Option<u64>
    requires from { from < 2 ^ 63 }
    requires count { count < 2 ^ 16 }
    ensures some { IfSome result (λ gap. IsFree (octet_at octets.now) from count gap) }
    ensures none { IfNone result (all_held (octet_at octets.now) from count ≡ true) }
{
    let to = from + count;
    let mut position = from;
    while position < to {
        let part = octets.piece(position, to);
        if part.is_empty() {
            return Some(position);
        }
        position += part.len() as u64;
    }
    None
}
