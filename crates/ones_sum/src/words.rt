//! Adding up words, and the sum in 16 bits.

ghost use Rattle.std.specs.Prelude.{◌≡◌, ℕ, ◌+◌, ◌*◌, ◌%◌, ◌^◌, ◌<◌, ◌≤◌, List, ◌++◌, length};
ghost use Rattle.ones_sum.specs.Words.{word_sum, folded};

use std::simd::prelude::*;

/// The sum of the 16-bit words of at most 2^32 octets, as a plain number. An odd last octet is the high half of a
/// word whose low half is 0 (RFC 1071, section 2).
pub fn sum(octets: &[u8]) -> u64
    requires { length octets.now ≤ 2 ^ 32 }
    ensures value { result ≡ word_sum octets.now }
    ensures bounded { result ≤ 65535 * length octets.now }
{
    sum_more(0, octets)
}

/// The sum `so_far`, and the words of at most 2^32 more octets. Where `so_far` is the sum of an even number of
/// octets, the result is the sum of those and these.
pub fn sum_more(so_far: u64, octets: &[u8]) -> u64
    requires low { so_far < 2 ^ 62 }
    requires few { length octets.now ≤ 2 ^ 32 }
    ensures adds { result ≡ so_far + word_sum octets.now }
    ensures goes_on { (before : List ℕ) → length before % 2 ≡ 0 → so_far ≡ word_sum before
        → result ≡ word_sum (before ++ octets.now) }
    ensures bounded { result ≤ so_far + 65535 * length octets.now }
{
    added(so_far, octets)
}

// Stretch after stretch of 512 octets.
fn added(so_far: u64, octets: &[u8]) -> u64
    requires low { so_far < 2 ^ 62 }
    requires few { length octets.now ≤ 2 ^ 32 }
    ensures { result ≡ so_far + word_sum octets.now }
{
    let mut total = so_far;
    let mut rest = octets;
    while rest.len() > 512 {
        let (stretch, others) = rest.split_at(512);
        total += u64::from(stretch_sum(stretch));
        rest = others;
    }
    total + u64::from(stretch_sum(rest))
}

// At most 512 octets, 32 at a time: the high halves of sixteen words and their low halves, each in a lane of 16 bits.
// All high halves together, at most 256, are below 2^16, and so are all low ones: no lane overflows, nor a sum of lanes.
fn stretch_sum(octets: &[u8]) -> u32
    requires { length octets.now ≤ 512 }
    ensures { result ≡ word_sum octets.now }
{
    let mut high = u16x16::splat(0);
    let mut low = u16x16::splat(0);
    let mut at = 0;
    while octets.len() - at >= 32 {
        let words = u16x16::from_le_bytes(u8x32::from_slice(&octets[at..]));
        high = high.strict_add(words & u16x16::splat(0xff));
        low = low.strict_add(words >> 8);
        at += 32;
    }
    256 * u32::from(high.strict_reduce_sum())
        + u32::from(low.strict_reduce_sum())
        + last_words(&octets[at..])
}

// Fewer than 32 octets, word after word.
fn last_words(octets: &[u8]) -> u32
    requires { length octets.now < 32 }
    ensures { result ≡ word_sum octets.now }
{
    let mut total = 0;
    let mut rest = octets;
    while let [high, low, others @ ..] = rest {
        total += u32::from(u16::from_be_bytes([*high, *low]));
        rest = others;
    }
    if let [high] = rest {
        total += u32::from(*high) << 8;
    }
    total
}

/// The one's complement sum in 16 bits of words whose plain sum is `total`: each carry out of the high end is put in
/// at the low end (RFC 1071, section 1). It is 0 only where `total` is 0.
pub fn fold(total: u64) -> u16
    ensures { result ≡ folded total }
{
    let mut sum = total;
    while sum > 0xffff {
        sum = (sum & 0xffff) + (sum >> 16);
    }
    sum as u16
}
