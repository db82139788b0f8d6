//! What a segment maps.

ghost use Rattle.std.specs.Prelude.{◌≡◌, ◌^◌, ◌≤◌, OnOk};
ghost use Rattle.seen_streams.specs.Mapped.{mapped_by};
ghost use Rattle.seen_streams.specs.Shows.{mapped_of};

use crate::lane::Lane;
use crate::line::learn_infinite;
use crate::mapping::learn_finite;
use crate::stream::Stream;
use crate::told::{Learnt, Teller};
use judge_rules::{Offer, position_near};
use std::alloc::AllocError;

/// Learns the mapping of an option of a segment at a position, if it keeps the rules.
///
/// # Errors
///
/// Want of memory.
#[tactic(auto, using(crate::proofs::Lines::near_low, crate::proofs::Lines::near_high))]
pub fn learn_offer(
    stream: &mut Stream<'_>,
    lane: &mut Lane,
    learnt: &mut Learnt,
    teller: &Teller,
    position: u64,
    offer: &Offer,
) -> Result<(), AllocError>
    requires position { position ≤ 2 ^ 61 }
    ensures { OnOk result (mapped_of stream.new lane.new learnt.new
        ≡ mapped_by teller.now position offer.now (mapped_of stream.old lane.old learnt.old)) }
{
    let near = position_near(position, offer.relative);
    if offer.length == 0 {
        learn_infinite(stream, lane, learnt, teller, offer, near)
    } else {
        learn_finite(stream, lane, learnt, teller, offer, near)
    }
}
