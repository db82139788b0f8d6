//! The places of a stream that its segments carried.

ghost use Rattle.std.specs.Prelude.{◌≡◌, ◌<◌, ◌^◌, OnOk};
ghost use Rattle.link_trace.specs.Places.{carried_below, carried_in, grown, repeated, with_carried, with_payload};

use range_marks::{RangeMarks, Runs};
use std::alloc::AllocError;

/// How many of the places below this one are carried.
fn carried_in(runs: Runs<'_, bool>, edge: u64) -> u64
    ensures { result ≡ carried_in edge 0 runs.entry }
{
    let mut count: u64 = 0;
    for run in runs {
        if run.mark {
            count = count.saturating_add(run.to.min(edge).saturating_sub(run.from.min(edge)));
        }
    }
    count
}

#[tactic(auto, using(crate::proofs::CarriedRuns::runs_tell))]
fn carried_below(places: &RangeMarks<bool>, edge: u64) -> u64
    ensures { result ≡ carried_below edge places.now }
{
    // For the proof: there are fewer than 2^63 places.
    let _len = places.len();
    carried_in(places.runs(), edge)
}

/// How many octets of a payload stand at places that are carried.
pub fn repeated(places: &RangeMarks<bool>, place: Option<u32>, len: u32) -> u64
    ensures { result ≡ repeated place len places.now }
{
    match place {
        None => 0,
        Some(place) => {
            let from = u64::from(place);
            carried_below(places, from + u64::from(len)).saturating_sub(carried_below(places, from))
        }
    }
}

/// At least so many places.
fn grow(places: &mut RangeMarks<bool>, to: u64) -> Result<(), AllocError>
    requires { to < 2 ^ 63 }
    ensures { OnOk result (places.new ≡ grown to places.old) }
{
    places.extend(to.saturating_sub(places.len()), false)
}

#[tactic(auto, using(crate::proofs::CarriedRuns::grown_reaches))]
fn carry_payload(places: &mut RangeMarks<bool>, place: u32, len: u32) -> Result<(), AllocError>
    ensures { OnOk result (places.new ≡ with_payload place len places.old) }
{
    if len == 0 {
        return Ok(());
    }
    let from = u64::from(place);
    let to = from + u64::from(len);
    grow(places, to)?;
    places.mark(from, to, true)
}

/// The payload of a segment is carried too.
pub fn carry(places: &mut RangeMarks<bool>, place: Option<u32>, len: u32) -> Result<(), AllocError>
    ensures { OnOk result (places.new ≡ with_carried place len places.old) }
{
    match place {
        None => Ok(()),
        Some(place) => carry_payload(places, place, len),
    }
}
