use seq_units::Pos;

/// What a hearer counts from, in its own subflow end and streams: each number is read beside one of these, all of
/// which are at most 2^62 + 2^20, with room for a buffer past the last position and the last place.
#[derive(Clone, Copy)]
pub struct Expected {
    /// The position of the next octet to receive, for sequence numbers and relative numbers.
    pub edge: Pos,
    /// The least position that is not acknowledged, for acknowledgement numbers.
    pub unacknowledged: Pos,
    /// How many bytes of the hearer's stream the peer has told to have come in order, for Data ACKs and MP_FAIL.
    pub told: u64,
    /// The next place of the peer's stream, for data numbers.
    pub place: u64,
}
