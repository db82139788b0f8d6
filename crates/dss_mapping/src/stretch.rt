use seq_units::Pos;

/// Positions side by side from one on: either all have places, side by side too, or none has one.
#[derive(Clone, Copy)]
pub(crate) struct Stretch {
    /// The place of the first position.
    pub place: Option<u64>,
    /// The position after the last one.
    pub to: Pos,
}
