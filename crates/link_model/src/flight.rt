use sides::Side;

/// A copy of a segment under way.
#[derive(Clone, Copy)]
pub struct Flight<C> {
    /// The tick at which it arrives.
    pub tick: u64,
    /// The side that it goes to.
    pub to: Side,
    /// The number of the segment among those that the link took in this direction, the first being 1.
    pub number: u64,
    /// What arrives.
    pub carried: C,
}

/// An arrival: which copy arrives where, and when.
#[derive(Clone, Copy)]
pub struct Due {
    /// The tick at which it arrives.
    pub tick: u64,
    /// The side that it goes to.
    pub to: Side,
    /// The number of the segment in its direction, the first being 1. Both copies of a repeated segment have it.
    pub copy: u64,
}
