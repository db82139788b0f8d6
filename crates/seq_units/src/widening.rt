ghost use Rattle.std.specs.Prelude.{◌≡◌};
ghost use Rattle.seq_units.specs.Widening.{IsWidened, widened};

use crate::number::Seq64;

/// The number of 64 bits whose low half is `low`, at a distance d from the one that is expected, modulo 2^64,
/// -2^31 <= d < 2^31 (RFC 8684, section 3.3.1, on numbers that are sent with four octets).
#[tactic(auto, unfolding(crate::specs::Widening::widened))]
pub fn widen(expected: Seq64, low: u32) -> Seq64
    ensures meant { IsWidened expected.0 low result.0 }
    ensures value { result.0 ≡ widened expected.0 low }
{
    let expected_low = (expected.0 & u64::from(u32::MAX)) as u32;
    let distance = low.wrapping_sub(expected_low).cast_signed();
    Seq64(expected.0.wrapping_add_signed(i64::from(distance)))
}
