ghost use Rattle.std.specs.Prelude.{◌≡◌, ◌^◌, ◌<◌, ◌↔◌, ◌⊎◌, ℤ, pos, ◌<ℤ◌, ◌≤ℤ◌, IfSome, IsNone};
ghost use Rattle.seq_units.specs.Number.{IsMeant, position_near, below};

use crate::number::{Pos, Seq32, Seq64, number32, number64};

/// Positions of the data stream are below this: 2^62.
pub const POSITION_LIMIT: Pos = 1 << 62;

/// The position that a number of 32 bits means beside the one that is expected: the one position with that number
/// at a distance d from it, -2^31 <= d < 2^31. `None` where that position would be below 0. The expected position
/// is the next one to receive, or the least one that is not acknowledged; it is below 2^63.
#[tactic(auto, unfolding(crate::specs::Number::position_near))]
pub fn near32(base: Seq32, expected: Pos, raw: Seq32) -> Option<Pos>
    requires { expected < 2 ^ 63 }
    ensures meant { IfSome result (λ p. IsMeant (2 ^ 32) base.0 expected raw.0 (pos p)) }
    ensures none { (p : ℤ) → IsMeant (2 ^ 32) base.0 expected raw.0 p
        → (IsNone result ↔ (p <ℤ pos 0)) }
    ensures value { result ≡ position_near (2 ^ 32) base.0 expected raw.0 }
{
    let distance = raw.0.wrapping_sub(number32(base, expected).0).cast_signed();
    expected.checked_add_signed(i64::from(distance))
}

/// The position that a number of 64 bits means beside the one that is expected: the one position with that number
/// at a distance d from it, -2^63 <= d < 2^63. `None` where that position would be below 0, or is 2^62 or more.
#[tactic(auto, unfolding(crate::specs::Number::position_near))]
pub fn near64(base: Seq64, expected: Pos, raw: Seq64) -> Option<Pos>
    ensures meant { IfSome result (λ p. IsMeant (2 ^ 64) base.0 expected raw.0 (pos p)) }
    ensures none { (p : ℤ) → IsMeant (2 ^ 64) base.0 expected raw.0 p
        → (IsNone result ↔ ((p <ℤ pos 0) ⊎ (pos (2 ^ 62) ≤ℤ p))) }
    ensures value { result ≡ below (2 ^ 62) (position_near (2 ^ 64) base.0 expected raw.0) }
{
    let distance = raw.0.wrapping_sub(number64(base, expected).0).cast_signed();
    expected
        .checked_add_signed(distance)
        .filter(|position| *position < POSITION_LIMIT)
}
