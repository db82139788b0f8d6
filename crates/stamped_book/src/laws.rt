ghost use Rattle.std.specs.Prelude.{◌≡◌, ◌^◌, ◌<◌};
ghost use Rattle.stamped_book.specs.Journal.{Rise, last_stamp};

use crate::book::Book;
use crate::stamped::Stamped;

/// A law: the stamps of a journal rise, and none is 2^62 or more.
pub fn stamps_rise<O: Book>(stamped: &Stamped<O>)
    ensures rise { Rise 0 stamped.now.journal }
    ensures small { last_stamp 0 stamped.now.journal < 2 ^ 62 }
{
    // For the proof: the journal is one of its book.
    let _journal = stamped.journal();
}

/// A law: the book that a journal begins with is one that was just opened.
pub fn journals_begin_at_an_opening<O: Book>(stamped: &Stamped<O>)
    ensures { O.opening stamped.now.opening ≡ stamped.now.opening }
{
    // For the proof: the book is the replay of its journal.
    let _book = stamped.book();
}
