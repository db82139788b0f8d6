ghost use Rattle.std.specs.Prelude.{◌≡◌, ◌^◌, ◌<◌, ◌≤◌, length, IfOk};

use ones_sum::{fold, sum_more};
use std::alloc::{AllocError, Global};

/// Octets that are counted up from 0, so many.
pub fn octets(alloc: Global, count: u32) -> Result<Vec<u8>, AllocError>
    ensures { IfOk result (λ octets. length octets.items ≡ count) }
{
    let mut octets = Vec::new(alloc);
    for place in 0..count {
        octets.push((place % 256) as u8)?;
    }
    Ok(octets)
}

/// The sum of the octets, so many times, each time with another first octet.
pub fn summed(octets: &mut [u8], times: u32) -> u16
    requires some { 0 < length octets.old }
    requires few { length octets.old < 2 ^ 32 }
{
    let mut sum: u16 = 0;
    for turn in 0..times {
        octets[0] = (turn % 256) as u8;
        sum = fold(sum_more(u64::from(sum), octets));
    }
    sum
}

/// The sum of the first octets of so many copies.
pub fn copied(octets: &mut [u8], copy: &mut [u8], times: u32) -> u16
    requires some { 0 < length octets.old }
    requires alike { length copy.old ≡ length octets.old }
{
    let mut sum: u16 = 0;
    for turn in 0..times {
        octets[0] = (turn % 256) as u8;
        copy.copy_from_slice(octets);
        sum = fold(u64::from(sum) + u64::from(copy[0]));
    }
    sum
}
