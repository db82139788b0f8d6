//! Rounds in which each actor takes its turn in a thread of its own, and their steps in one order.

ghost use Rattle.std.specs.Prelude.{◌≡◌, ◌⊎◌, Err, None, All, length, IfOk, IfErr, OnOk};
ghost use Rattle.std.specs.List.{slice_get};
ghost use Rattle.stamped_book.specs.declared.stamped.Refusal.TheVariants.{Memory, Stamps};
ghost use Rattle.actor_desk.specs.Journals.{ArePaired, order_of};
ghost use Rattle.ruled_desk.specs.WholeRounds.{OneIsFull, OneKnowsLast};
ghost use Rattle.world_laws.specs.StampedBooks.{journals_of};
ghost use Rattle.world_laws.specs.Weaving.{Begins};
ghost use Rattle.world_laws.specs.Worlds.{greatest};
ghost use Rattle.journal_weave.specs.Rounds.{HaveTurned, WeavesTo, known_by};
ghost use Rattle.journal_weave.specs.Weaving.{AreOwn, lists_in};

use crate::journals::are_journals;
use crate::weaving::weave;
use actor_desk::{Books, Crew};
use actor_turn::Gate;
use path_core::Path;
use ruled_desk::{TurnGiver, gaining_alike_stays_paired, round_at_tables};
use stamped_book::Refusal;
use std::alloc::Global;
use std::sync::Wait;
use stream_apps::App;
use world_laws::Member;

/// The stamp that the first actor knows, and with it each as a round begins.
fn known_stamp<A>(crew: &[Crew<A>]) -> u64
    ensures { result ≡ known_by (slice_get crew.now 0) }
{
    match crew.first() {
        Some(actor) => actor.pass.stamp,
        None => 0,
    }
}

/// The actors of the steps above a stamp, of lists and journals that are paired.
fn put_in_order<A>(
    alloc: Global,
    books: &Books,
    crew: &[Crew<A>],
    stamp: u64,
) -> Result<Vec<u8>, Refusal>
    requires own { AreOwn 0 (lists_in crew.now) }
    requires paired { ArePaired 0 (lists_in crew.now) (journals_of books.now) }
    ensures order { IfOk result (λ order. order.items ≡ order_of stamp (lists_in crew.now)) }
    ensures err { IfErr result (λ refusal. refusal ≡ Memory) }
{
    Ok(weave(alloc, books, crew, stamp)?)
}

/// A round by threads, up to its end, over these books: the books after it, and the actors of its steps, by stamp, then
/// actor. Each actor takes its turn at a worker, as far as workers have come and begin in time; the others do one after the other. The
/// books lie in tables for as long as the round takes, so each call that an actor notes stands in the called book's journal.
///
/// After an error actors and books are of no use, but they are as many.
///
/// # Errors
///
/// `Stamps` only where stamps were used up: where an actor knows the stamp 2^62 - 1, or an entry of a journal has it. `Memory`
/// where there is none.
pub fn woven_round<G: Gate, R: Wait>(
    rt: &R,
    alloc: Global,
    crew: &mut Vec<Crew<Member<App, Path>>>,
    books: Books,
    gate: &G,
    givers: &mut [TurnGiver<Member<App, Path>>],
) -> (Books, Result<Vec<u8>, Refusal>)
    requires rest { All (λ giver. giver ≡ None) givers.old }
    requires begins { Begins (greatest 0 crew.old.items)
        (record { crew = crew.old.items; books = books }) }
    ensures many { length crew.new.items ≡ length crew.old.items }
    ensures turned { OnOk result.1 (HaveTurned crew.old.items crew.new.items) }
    ensures order { IfOk result.1 (λ order. WeavesTo
        (record { crew = crew.old.items; books = books })
        (record { crew = crew.new.items; books = result.0 }) order.items) }
    ensures used_up { result.1 ≡ Err Stamps → OneKnowsLast crew.new.items ⊎ OneIsFull result.0 }
    ensures rest { All (λ giver. giver ≡ None) givers.new }
{
    let stamp = known_stamp(crew);
    let (told, books) = round_at_tables(rt, alloc, crew, books, gate, givers);
    // For the proof: the journals are those of their books, and stay paired.
    are_journals(&books);
    gaining_alike_stays_paired();
    match told {
        Ok(()) => {
            let order = put_in_order(alloc, &books, crew, stamp);
            (books, order)
        }
        Err(refusal) => (books, Err(refusal)),
    }
}
