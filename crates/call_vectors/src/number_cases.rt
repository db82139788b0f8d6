//! `number BASE POSITION`: the number of a position, modulo 2^32, where the base has that range, and modulo 2^64.
//!
//! `near32 BASE EXPECTED NUMBER` and `near64 BASE EXPECTED NUMBER`: the position that a number means beside an
//! expected one.
//!
//! `widen EXPECTED LOW`: the number of 64 bits that a low half means beside an expected one.

ghost use Rattle.std.specs.Prelude.{◌<◌, ◌^◌};

use case_fields::Case;
use seq_units::{POSITION_LIMIT, Seq32, Seq64, number32, number64};

pub fn number(case: &mut Case) {
    let (base, position): (u64, u64) = (case.number(), case.number());
    if let Ok(low) = u32::try_from(base) {
        case.tell(&number32(Seq32(low), position).0);
        case.put(" ");
    }
    case.tell(&number64(Seq64(base), position).0);
}

pub fn near32(case: &mut Case) {
    let base = Seq32(case.number());
    let expected: u64 = case.number();
    let raw = Seq32(case.number());
    if expected >= POSITION_LIMIT {
        return case.refuse();
    }
    case.tell(&seq_units::near32(base, expected, raw));
}

pub fn near64(case: &mut Case) {
    let base = Seq64(case.number());
    let expected: u64 = case.number();
    let raw = Seq64(case.number());
    case.tell(&seq_units::near64(base, expected, raw));
}

pub fn widen(case: &mut Case) {
    let expected = Seq64(case.number());
    let low: u32 = case.number();
    case.tell(&seq_units::widen(expected, low).0);
}
