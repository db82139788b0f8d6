//! The keys of both sides.

/// The key of the own side, and the peer's (RFC 8684, section 3.1).
#[derive(Clone, Copy)]
pub struct KeyPair {
    /// The own side's.
    pub own: u64,
    /// The peer's.
    pub peer: u64,
}
