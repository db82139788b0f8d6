//! How a connection comes to a table.

ghost use Rattle.std.specs.Prelude.{◌≡◌};
ghost use Rattle.connection_table.specs.declared.admitting.AdmitFault.TheVariants.{Memory};

use std::alloc::{AllocError, AllocFailed};

/// Why a connection wasn't admitted.
#[derive(Clone, Copy)]
pub enum AdmitFault {
    /// There are 64 connections.
    Full,
    /// The connection with this number has the same token, so that a join would name both.
    SameToken { holder: u8 },
    /// Out of memory.
    Memory,
}

impl From<AllocError> for AdmitFault {
    ghost from_gives = { λ _ fault. fault ≡ Memory };

    fn from(_: AllocError) -> Self {
        AdmitFault::Memory
    }
}

impl<T: Drop> From<AllocFailed<T>> for AdmitFault {
    ghost from_gives = { λ _ fault. fault ≡ Memory };

    fn from(_: AllocFailed<T>) -> Self {
        AdmitFault::Memory
    }
}
