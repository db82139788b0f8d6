//! The receiver's side of a stream: the bytes that have arrived, in any order and from any path, and how far the
//! application has read them (RFC 8684, section 3.3.1). A place keeps the byte that came first.
//!
//! The book knows no segments and no numbers of the protocol. Places count the bytes of the stream from 0.
#![tactic(auto)]

mod book;
mod call;
mod laws;

pub use book::ReassemblyBook;
pub use call::{ReassemblyCall, ReassemblyReply};
pub use laws::{
    known_end_stays, nothing_lies_past_the_end, read_is_what_came_first, some_bytes_are_read,
    told_window_stays,
};
