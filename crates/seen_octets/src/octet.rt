//! The octet of a place.

ghost use Rattle.std.specs.Prelude.{◌≤◌, length, IfSome, IfNone};
ghost use Rattle.seen_octets.specs.Octets.{IsFirstDifference, AreAlike};

/// The octet of a place, and who told it.
#[derive(Clone, Copy)]
pub struct Octet {
    pub octet: u8,
    pub teller: u32,
}

/// A place that has another octet than is told now, and who told that one.
#[derive(Clone, Copy)]
pub struct OtherOctet {
    pub place: u64,
    pub was: u8,
    pub teller: u32,
    pub is: u8,
}

/// Where the second of two parts has another octet than the first one, as far as both go.
pub(crate) fn first_difference(one: &[u8], other: &[u8]) -> Option<usize>
    requires { length one.now ≤ length other.now }
    ensures some { IfSome result (λ index. IsFirstDifference one.now other.now index) }
    ensures none { IfNone result (AreAlike one.now other.now (length one.now)) }
{
    for index in 0..one.len() {
        if one[index] != other[index] {
            return Some(index);
        }
    }
    None
}
