//! Octets of a case.

use case_fields::Case;
use octet_text::Text;
use std::alloc::{AllocError, Global};

/// The longest octets that are printed as they are.
const SHOWN: usize = 40;

/// The most octets that are made.
const MOST_MADE: u64 = 1_048_576;

/// The octets that `made` makes for the places from `place` on, at most 1,048,576.
pub fn made(alloc: Global, place: u64, count: u64) -> Result<Text, AllocError> {
    let mut octets = Vec::new(alloc);
    for step in 0..count.min(MOST_MADE) {
        octets.push((place.wrapping_add(step) % 251) as u8)?;
    }
    Ok(Text::from(octets))
}

/// The octets that the next fields tell, for the places from `place` on.
pub fn octets_of(case: &mut Case, place: u64) -> Text {
    let told = match case.word() {
        "made" => made(case.alloc, place, case.number()),
        word => Text::of(case.alloc, word.as_bytes()),
    };
    match told {
        Ok(octets) => octets,
        Err(_) => {
            case.fail();
            Text::new(case.alloc)
        }
    }
}

/// Whether these octets are those that `made` makes for the places from `place` on.
pub fn are_made(place: u64, octets: &[u8]) -> bool {
    octets.iter().enumerate().all(|(step, octet)| place.wrapping_add(step as u64) % 251
        == u64::from(*octet))
}

/// Puts octets as they are, or their number where there are many: `made` or `other`.
pub fn put_octets(case: &mut Case, place: u64, octets: &[u8]) {
    if are_made(place, octets) {
        return case.say_behind("made ", &octets.len());
    }
    if octets.len() > SHOWN {
        return case.say_behind("other ", &octets.len());
    }
    case.put_text(octets);
}
