use seq_units::Pos;

/// What becomes of a mapping that is told.
#[derive(Clone, Copy, Debug)]
pub enum Learn {
    /// The mapping is kept now: some position of it had no place.
    New,
    /// Each of its positions has that place already; all stays as it was.
    Same,
    /// A position has another place; all stays as it was.
    Clash {
        /// The first such position.
        pos: Pos,
        /// The place that it has.
        kept: u64,
        /// The place that was told.
        told: u64,
    },
}
