//! What a connection touches of the world around it: the files that it reads, and the ports that it writes.
//!
//! An [`Outside`] is told to contracts by what it tells: the content of each name, what each port holds, how many
//! faults there were, and the calls that were made on it. [`MemoryOutside`] tells all of it; an outside over real files
//! tells none but the faults.
#![tactic(auto)]

mod calls;
mod files;
mod memory;
mod outside;
mod port;

pub use calls::{OutsideCall, RecordedCall};
pub use files::{FailAt, NamedFile};
pub use memory::MemoryOutside;
pub use outside::{LoadFault, Outside, PutFault};
pub use port::Port;
