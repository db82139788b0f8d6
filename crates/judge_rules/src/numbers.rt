//! What data numbers mean.

ghost use Rattle.std.specs.Prelude.{◌≡◌, ◌%◌, ◌^◌, ◌<◌};
ghost use Rattle.judge_rules.specs.Numbers.{first_number, low_place, place_near, told_number};

use crate::finding::Told;
use key_material::idsn;
use mptcp_options::DataNumber;
use seq_units::{POSITION_LIMIT, Seq32, Seq64, near32, near64};

/// The data number of place 0 of a side with this key (RFC 8684, section 3.1).
pub fn first_number(key: u64) -> u64
    ensures { result ≡ first_number key }
{
    idsn(key).wrapping_add(1)
}

/// How a data number stood in its option.
pub fn told_number(number: &DataNumber) -> Told
    ensures { result ≡ told_number number.now }
{
    match *number {
        DataNumber::Whole(number) => Told::Whole { number },
        DataNumber::Low(number) => Told::Low { number },
    }
}

/// The place nearest an expected one that a data number means, where place 0 has this number. `None` where it is below 0, or 2^62
/// and more.
pub fn place_near(first: u64, expected: u64, number: &DataNumber) -> Option<u64>
    requires { expected < 2 ^ 63 }
    ensures { result ≡ place_near first expected number.now }
{
    match *number {
        DataNumber::Whole(number) => near64(Seq64(first), expected, Seq64(number)),
        DataNumber::Low(number) => low_place(low_half(first), expected, number),
    }
}

// The place nearest an expected one that the low half of a data number means, where place 0 has the low half `first`.
fn low_place(first: u32, expected: u64, number: u32) -> Option<u64>
    requires { expected < 2 ^ 63 }
    ensures { result ≡ low_place first expected number }
{
    near32(Seq32(first), expected, Seq32(number)).filter(|place| *place < POSITION_LIMIT)
}

// The low half of a data number.
fn low_half(number: u64) -> u32
    ensures { result ≡ number % 2 ^ 32 }
{
    (number & u64::from(u32::MAX)) as u32
}
