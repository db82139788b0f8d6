//! What both sides of a connection sent, and what both ends of a flow.

ghost use Rattle.std.specs.Prelude.{◌≡◌};
ghost use Rattle.rule_book.specs.Judged.{empty_book, empty_lanes};
ghost use Rattle.rule_book.specs.State.{book_of, lanes_of};

use seen_streams::{Lane, Stream};
use std::alloc::Global;

/// What both sides of a connection sent.
#[derive(Drop)]
pub struct Book<'a> {
    pub a: Stream<'a>,
    pub b: Stream<'a>,
    /// How many segments acknowledged positions that weren't seen.
    pub gaps: u64,
}

impl<'a> Book<'a> {
    /// Nothing was sent.
    pub fn new(alloc: Global) -> Self
        ensures { book_of result ≡ empty_book }
    {
        Book {
            a: Stream::new(alloc),
            b: Stream::new(alloc),
            gaps: 0,
        }
    }
}

/// What the opener of a flow sent, and the other end.
#[derive(Drop)]
pub struct Lanes {
    pub opener: Lane,
    pub other: Lane,
}

impl Lanes {
    /// Nothing was sent.
    pub fn new(alloc: Global) -> Self
        ensures { lanes_of result ≡ empty_lanes }
    {
        Lanes {
            opener: Lane::new(alloc),
            other: Lane::new(alloc),
        }
    }
}
