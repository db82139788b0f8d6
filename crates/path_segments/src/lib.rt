//! The segments of a path as values, and their octets: positions and places where octets have wrapped numbers, a window
//! in octets, options over places (RFC 9293, section 3.1; RFC 8684, section 3).
//!
//! A `Spelling` has what both ends need to say a segment. `write` makes the octets in one allocation, and `sum` tells
//! their checksum field without making them.
#![tactic(auto)]

mod expected;
mod heard;
mod hearing;
mod laws;
mod listening;
mod position;
mod sayable;
mod segment;
mod spelling;
mod wire;
mod writing;

pub use expected::Expected;
pub use heard::{HeardOptions, HeardSegment};
pub use hearing::{HeardMapping, HeardOption};
pub use laws::{
    altered_is_said, octets_tell_the_segment, stripped_is_heard_without_options,
    written_is_heard_as_meant,
};
pub use listening::parse_segment;
pub use position::HeardPosition;
pub use sayable::can_say;
pub use segment::{PathMapping, PathOption, PathSegment, SaidOption, SaidSegment};
pub use spelling::{EndNumbers, Spelling};
pub use wire::relative_number;
pub use writing::{sum, write};
