//! Why words weren't read.

use thiserror::Error;

/// Why the words of a command line weren't read.
#[derive(Clone, Copy, Debug, Error)]
pub enum WordsFault {
    /// The words break the line form.
    #[error("words out of form")]
    Usage,
    /// Memory ran out.
    #[error("out of memory")]
    Memory,
}
