//! `time marks PLACES`: in how many runs so many places are kept whose marks are one and the other in turn. `time sum LENGTH TIMES` and
//! `time copy LENGTH TIMES`: the sum in 16 bits where so many octets are summed up, or copied, so many times. `bench/marks` and
//! `bench/sums` tell how long that takes.

ghost use Rattle.std.specs.Prelude.{◌<◌, ◌^◌, length};

mod marks;
mod sums;

use case_fields::Case;
use marks::alternating;
use sums::{copied, octets, summed};

pub fn time(case: &mut Case) {
    match case.word() {
        "marks" => put_runs(case),
        "sum" => put_sum(case, false),
        "copy" => put_sum(case, true),
        _ => case.refuse(),
    }
}

/// In how many runs so many places are kept.
fn put_runs(case: &mut Case) {
    let places: u32 = case.number();
    match alternating(case.alloc, u64::from(places)) {
        Ok(marks) => case.say(&marks.runs().count()),
        Err(_) => case.fail(),
    }
}

/// The sum of so many octets, or of the first ones of their copies.
fn put_sum(case: &mut Case, copies: bool) {
    let (length, times): (u32, u32) = (case.number(), case.number());
    if length == 0 {
        return case.refuse();
    }
    match octets(case.alloc, length) {
        Ok(mut octets) => put_sum_of(case, octets.as_mut_slice(), copies, times),
        Err(_) => case.fail(),
    }
}

fn put_sum_of(case: &mut Case, octets: &mut [u8], copies: bool, times: u32)
    requires some { 0 < length octets.old }
    requires few { length octets.old < 2 ^ 32 }
{
    if !copies {
        return case.say(&summed(octets, times));
    }
    match Vec::from_slice(case.alloc, octets) {
        Ok(mut copy) => case.say(&copied(octets, copy.as_mut_slice(), times)),
        Err(_) => case.fail(),
    }
}
