//! A segment as its end handed it to its link.

use link_model::SegmentFate;
use octet_text::Text;
use sides::Side;

/// A segment as its end handed it to its link.
#[derive(Drop)]
pub struct Sent {
    /// When, in ticks of a millisecond from the run's beginning.
    pub tick: u64,
    /// The number of the path.
    pub path: u8,
    /// The side that sent it.
    pub from: Side,
    /// Its number in its direction, the first being 1.
    pub number: u64,
    /// Its octets, as the link takes them.
    pub octets: Text,
    /// What becomes of it on the link.
    pub fate: SegmentFate,
}
