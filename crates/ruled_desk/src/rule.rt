//! The rule of a book's table: which seat has the book, and which entries its journal has.
//!
//! The table has three words, which count modulo 2^64: the next ticket, the ticket that is served, and how many entries were
//! added. Its slot has the book, or nothing while the seat that is served has it.

use crate::held::Held;
use actor_desk::Kept;
use atomic_table::{Join, Play, Split, TableRule};
use stamped_book::{Book, Entry};
use std::collections::LinkedList;
use std::snapshot::Snapshot;

/// What a seat at the table knows. No value of it is made.
pub struct View<B, E> {
    /// How many of the table's 1,024 parts it has. A seat has one at least, and who has all is alone.
    pub parts: u64,
    /// The ticket with which it waits; none where it doesn't.
    pub tickets: LinkedList<u64>,
    /// The book that it has; none where it has none.
    pub took: LinkedList<B>,
    /// The entries that it added to the journal.
    pub own: LinkedList<E>,
    /// The seat saw the journal's last stamp used up.
    pub full: bool,
}

/// What a seat at the table of a book knows.
pub type BookView<O> = View<Held<O>, Entry<<O as Book>::Call, <O as Book>::Reply>>;

/// The rule of a book's table, whose key is the book as it was put there.
pub struct Ruled;

impl<O: Kept> TableRule<Option<Held<O>>, BookView<O>, Snapshot<Held<O>>> for Ruled {
    ghost use Rattle.ruled_desk.specs.Rule.{IsRuled, first_view};

    ghost holds = { λ key. IsRuled key.value };

    ghost first = { λ key. first_view };
}

/// One part is cut off.
pub struct OnePart;

impl<B, E> Split<View<B, E>> for OnePart {
    ghost use Rattle.ruled_desk.specs.Rule.{newcomer, without_part};

    ghost left = { without_part };

    ghost right = { λ v. newcomer };
}

/// A seat's parts, entries and notes go over to another.
pub struct AllParts;

impl<B, E> Join<View<B, E>> for AllParts {
    ghost use Rattle.ruled_desk.specs.Rule.{joined, spent};

    ghost both = { joined };

    ghost spent = { spent };
}

/// A ticket is drawn.
pub struct Draw;

impl<B, E> Play<Option<B>, View<B, E>> for Draw {
    ghost use Rattle.ruled_desk.specs.Rule.{Draws};

    ghost then = { Draws };
}

/// The number that is served is looked at. Where it is one's own, one has the book.
pub struct Look;

impl<B, E> Play<Option<B>, View<B, E>> for Look {
    ghost use Rattle.ruled_desk.specs.Rule.{Looks};

    ghost then = { Looks };
}

/// The entry that the book has more is one's own.
pub struct Add;

impl<O: Kept> Play<Option<Held<O>>, BookView<O>> for Add {
    ghost use Rattle.ruled_desk.specs.Rule.{Adds};

    ghost then = { Adds };
}

/// The book is back, and the next ticket is served.
pub struct Serve;

impl<B, E> Play<Option<B>, View<B, E>> for Serve {
    ghost use Rattle.std.specs.Prelude.{false};
    ghost use Rattle.ruled_desk.specs.Rule.{Serves};

    ghost then = { Serves false };
}

/// The book is back, the next ticket is served, and the journal is noted to be full.
pub struct ServeFull;

impl<B, E> Play<Option<B>, View<B, E>> for ServeFull {
    ghost use Rattle.std.specs.Prelude.{true};
    ghost use Rattle.ruled_desk.specs.Rule.{Serves};

    ghost then = { Serves true };
}
