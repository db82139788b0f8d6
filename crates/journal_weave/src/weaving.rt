//! Lists and journals in one order.
ghost use Rattle.std.specs.Prelude.{◌≡◌, map, IfOk};
ghost use Rattle.actor_desk.specs.Journals.{ArePaired, above, in_order, order_of};
ghost use Rattle.world_laws.specs.StampedBooks.{journals_of};
ghost use Rattle.journal_weave.specs.Weaving.{AreAllAsked, AreOwn, lists_in};

use crate::journals::journals_rise;
use crate::ordering::order_above;
use actor_desk::{Books, Crew, Note};
use std::alloc::{AllocError, Global};

// The actors of these notes.
fn actors_of(alloc: Global, order: &[&Note]) -> Result<Vec<u8>, AllocError>
    ensures { IfOk result (λ actors. actors.items ≡ map (λ note. note.now.actor) order.now) }
{
    let mut actors = Vec::new(alloc);
    for note in order {
        actors.push(note.actor)?;
    }
    Ok(actors)
}

/// The actors of all notes above a stamp, by stamp, then by actor, where lists and journals are paired at every stamp. The notes
/// of the i-th list are actor i's, and their stamps rise. In this order each book's notes above that stamp are its journal's.
///
/// # Errors
///
/// Only where there is no memory.
pub fn weave<A>(
    alloc: Global,
    books: &Books,
    crew: &[Crew<A>],
    after: u64,
) -> Result<Vec<u8>, AllocError>
    requires own { AreOwn 0 (lists_in crew.now) }
    requires paired { ArePaired 0 (lists_in crew.now) (journals_of books.now) }
    ensures order { IfOk result (λ order. order.items ≡ order_of after (lists_in crew.now)) }
    ensures journals { AreAllAsked (in_order after (lists_in crew.now))
        (map (above after) (journals_of books.now)) }
{
    // For the proof: the stamps of each journal rise.
    journals_rise(books);
    let order = order_above(alloc, crew, after)?;
    actors_of(alloc, &order)
}
