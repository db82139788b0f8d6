//! How far the places of a stream go.

/// The bytes of a stream have places below this: 2^62.
pub const PLACE_LIMIT: u64 = 1 << 62;
