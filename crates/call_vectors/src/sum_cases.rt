//! `sum OCTETS`: the plain sum of `ones_sum::sum`, and `ones_sum::fold` of it.
//!
//! `sums LENGTHS PLACES`: of octets that begin at each of the first `PLACES` places, and of each length below `LENGTHS`, how
//! many have the sum that is made octet by octet.

ghost use Rattle.std.specs.Prelude.{◌≤◌, ◌^◌, length};

use case_fields::Case;
use std::alloc::{AllocError, Global};

pub fn sum(case: &mut Case) {
    let octets = case.octets();
    put_sum(case, octets.as_slice());
}

fn put_sum(case: &mut Case, octets: &[u8]) {
    if octets.len() > 1 << 32 {
        return case.refuse();
    }
    let total = ones_sum::sum(octets);
    case.put_numbers(" ", &[total, u64::from(ones_sum::fold(total))]);
}

/// Octets of any value, so many.
fn made(alloc: Global, count: u16) -> Result<Vec<u8>, AllocError> {
    let mut octets = Vec::new(alloc);
    for place in 0..u32::from(count) {
        octets.push((place * 167 % 256) as u8)?;
    }
    Ok(octets)
}

/// The sum of words, octet by octet: those at even places are the high halves (RFC 1071, section 2).
fn plain_sum(octets: &[u8]) -> u64 {
    let mut total: u64 = 0;
    for (place, octet) in octets.iter().enumerate() {
        let weight = if place % 2 == 0 { 256 } else { 1 };
        total = total.wrapping_add(u64::from(*octet) * weight);
    }
    total
}

/// Whether these octets have that sum.
fn is_summed(octets: &[u8]) -> bool
    requires { length octets.now ≤ 2 ^ 32 }
{
    ones_sum::sum(octets) == plain_sum(octets)
}

/// How many of the first octets, of each length below `lengths`, have that sum.
fn summed_from(octets: &[u8], lengths: u16) -> u64 {
    let mut count: u64 = 0;
    for length in 0..usize::from(lengths) {
        match octets.get(..length) {
            Some(part) if is_summed(part) => count = count.wrapping_add(1),
            _ => {}
        }
    }
    count
}

/// How many of the octets from each of the first places on have that sum.
fn summed(octets: &[u8], lengths: u16, places: u8) -> u64 {
    let mut count: u64 = 0;
    for place in 0..usize::from(places) {
        if let Some(rest) = octets.get(place..) {
            count = count.wrapping_add(summed_from(rest, lengths));
        }
    }
    count
}

pub fn sums(case: &mut Case) {
    let lengths: u16 = case.number();
    let places: u8 = case.number();
    match made(case.alloc, lengths.saturating_add(u16::from(places))) {
        Ok(octets) => case.tell(&summed(octets.as_slice(), lengths, places)),
        Err(_) => case.fail(),
    }
}
