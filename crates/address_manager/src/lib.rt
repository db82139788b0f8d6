//! The addresses of a connection: those that a side announced and which of these announcements have not ended, those of
//! the peer that it keeps, and which paths are backups (RFC 8684, sections 3.3.8 and 3.4).
#![tactic(auto)]

mod id_set;
mod manager;

pub use id_set::IdSet;
pub use manager::{AddressManager, Heard};
