//! Bytes by position, of which some have come and some have not: what a receiver keeps of a stream that arrives out of
//! order. A byte that is kept stays; one that comes later for its position is passed over. Bytes that came side by side
//! lie in one piece, so that neither time nor memory is spent on positions without a byte. A byte that is kept is copied
//! once, or shared with who brought it.
#![tactic(auto)]

mod changes;
mod kept;
mod parts;
mod piece;

pub use kept::BytePieces;
pub use parts::Parts;
