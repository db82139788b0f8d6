//! The calls of an outside that are to fail.

use crate::fields::CaseFault;
use outside_kit::FailAt;
use std::alloc::Global;

/// The call that a field tells, and how many octets it keeps; none for `-`.
fn fail_at(field: &str) -> Option<FailAt> {
    let (call, kept) = field.split_once(" ")?;
    Some(FailAt {
        call: call.parse().ok()?,
        kept: kept.parse().ok()?,
    })
}

/// The call that fails, if any, and how many octets it keeps.
pub fn failing(alloc: Global, field: &str) -> Result<Vec<FailAt>, CaseFault> {
    match fail_at(field) {
        Some(call) => Ok(Vec::from_slice(alloc, &[call])?),
        None if field == "-" => Ok(Vec::new(alloc)),
        None => Err(CaseFault::Form),
    }
}
