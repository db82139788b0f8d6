//! The sender's side of a stream: the bytes that an application wrote, and what has become of each of them on the
//! paths of a connection (RFC 8684, section 3.3). Every byte has one mark: it is acknowledged, or held by a path
//! that sends it, or free for a path that hasn't tried it.
//!
//! The book knows no segments and no numbers of the protocol. Places count the bytes of the stream from 0, and paths
//! have the numbers 0 to 15.
#![tactic(auto)]

mod book;
mod call;
mod kept;
mod laws;
mod mark;
mod runs;
mod tried;
mod written;

pub use book::{SendBook, marks_tile};
pub use call::{SendCall, SendReply, Span, Why};
pub use laws::{
    acknowledged_stays, granted_at_most_once, granted_pieces_are_whole, nothing_after_an_abort,
};
pub use mark::ByteMark;
pub use tried::Tried;
