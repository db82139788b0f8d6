//! Octets as hexadecimal digits, and why a case has no answer.

use std::alloc::{AllocError, Global};

/// Why a line has no answer.
#[derive(Clone, Copy)]
pub enum CaseFault {
    /// The line is no case: an unknown name, a field too few, or one out of its form or range.
    Form,
    /// Out of memory.
    Memory,
}

impl From<AllocError> for CaseFault {
    fn from(_: AllocError) -> Self {
        CaseFault::Memory
    }
}

/// The octets that a field tells: two hexadecimal digits each, or `-` for none.
pub fn octets_of(alloc: Global, word: &str) -> Result<Vec<u8>, CaseFault> {
    if word == "-" {
        return Ok(Vec::new(alloc));
    }
    match hex::decode(alloc, word) {
        Ok(octets) => Ok(octets),
        Err(hex::FromHexError::OutOfMemory) => Err(CaseFault::Memory),
        Err(_) => Err(CaseFault::Form),
    }
}

/// The hexadecimal digits of octets, or `-` where there are none.
pub fn digits(alloc: Global, octets: &[u8]) -> Result<String, AllocError> {
    if octets.is_empty() {
        return format!(in alloc; "-");
    }
    hex::encode(alloc, octets)
}
