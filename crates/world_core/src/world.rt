//! A connection at a moment.

ghost use Rattle.std.specs.Prelude.{◌≡◌, ◌<◌, false, length};
ghost use Rattle.std.specs.List.{list_all};
ghost use Rattle.sides.specs.declared.side.Side.TheVariants.{A, B};
ghost use Rattle.world_core.specs.Hearing.{WasHeard, heard_by};
ghost use Rattle.world_core.specs.Kept.{HasFewNotes, IsSound, standing, world};
ghost use Rattle.world_laws.specs.Outcomes.{are_all_dead, is_no_live_path, notes_at, notes_of, outcome_of};
ghost use Rattle.world_laws.specs.Serial.{goes_on};

use crate::hearing::{Heard, Hearing, notes_at};
use crate::member::{Crew, is_no_live_path};
use actor_desk::{Books, Note};
use control_book::ControlBook;
use reassembly_book::ReassemblyBook;
use send_book::SendBook;
use sides::Side;
use stamped_book::Stamped;
use std::marker::Model;
use world_laws::Outcome;

/// A connection: its actors and the books. The actor of number n is the n-th of them, the first being 0: 0 and 1 are the
/// applications of A and B, and 2 + i is path i.
///
/// Unless it failed for want of memory, its lists and journals are paired at every stamp, stamps rise in each, and they are
/// chained above the greatest stamp at the last round's end.
#[derive(Drop)]
pub struct World {
    pub(crate) crew: Vec<Crew>,
    pub(crate) books: Books,
    pub(crate) hearing: Hearing,
    /// A step wanted memory: the last entry of a book may stand without its actor having taken the reply.
    pub(crate) failed: bool,
}

// Each book goes by a call of its own, since what drops a book is long.
fn close_send(_book: Stamped<SendBook>) {}

fn close_reassembly(_book: Stamped<ReassemblyBook>) {}

fn close_control(_book: Stamped<ControlBook>) {}

fn close_books(books: Books) {
    let Books {
        send_a,
        send_b,
        reassembly_a,
        reassembly_b,
        control_a,
        control_b,
    } = books;
    close_send(send_a);
    close_send(send_b);
    close_reassembly(reassembly_a);
    close_reassembly(reassembly_b);
    close_control(control_a);
    close_control(control_b);
}

impl Model for World {
    ghost use Rattle.dss_mapping.specs.Mappings.{mappings_code};
    ghost use Rattle.std.specs.Coded.{codes};
    ghost use Rattle.world_core.specs.Kept.{Kept, IsKept, world};

    ghost Value = { Kept };

    ghost coded = { Prim.hlevel (codes, mappings_code) };

    ghost view = { λ w. record { failed = w.failed; state = world w.crew.items w.books } };

    ghost invariant = { λ w. IsKept w.failed (world w.crew.items w.books) w.hearing };
}

// Whether the actor is no path, or a dead one.
fn is_no_live_crew(crew: &Crew) -> bool
    ensures { result ≡ is_no_live_path crew.now.member }
{
    is_no_live_path(&crew.member)
}

fn none_is_live(crew: &[Crew]) -> bool
    ensures { result ≡ list_all (λ c. is_no_live_path c.member) crew.now }
{
    crew.iter().all(|crew| is_no_live_crew(crew))
}

// Whether each path is dead.
fn are_all_dead(crew: &[Crew]) -> bool
    ensures { result ≡ are_all_dead crew.now }
{
    none_is_live(crew)
}

// What the readers among these were told. Unless the connection failed, their first steps told so much.
fn heard_now(crew: &[Crew], failed: bool, heard: Heard) -> Hearing
    requires { failed ≡ false → WasHeard heard crew.now }
    ensures { result ≡ heard_by crew.now }
{
    if failed {
        Hearing::of(crew)
    } else {
        heard.and_later(crew)
    }
}

impl World {
    /// How the connection stands. Takes no memory. Unless the connection failed, each actor has fewer than 2^57 notes.
    pub fn outcome(&self) -> Outcome
        ensures value { result ≡ outcome_of self.now.state.crew }
        ensures few { self.now.failed ≡ false → HasFewNotes self.now.state }
    {
        if self.hearing.a.abort {
            Outcome::Aborted(Side::A)
        } else if self.hearing.b.abort {
            Outcome::Aborted(Side::B)
        } else if self.hearing.a.end && self.hearing.b.end {
            Outcome::Delivered
        } else if are_all_dead(&self.crew) {
            Outcome::NoPath
        } else {
            Outcome::Going
        }
    }

    /// Whether the connection goes on. Takes no memory.
    pub fn goes_on(&self) -> bool
        ensures { result ≡ goes_on (outcome_of self.now.state.crew) }
    {
        matches!(self.outcome(), Outcome::Going)
    }

    /// The steps that an actor made, in order; none where there is no such actor.
    pub fn notes(&self, actor: u8) -> &[Note]
        ensures { result.now ≡ notes_at actor self.now.state.crew }
    {
        notes_at(&self.crew, usize::from(actor))
    }

    /// How many actors there are.
    pub fn actors(&self) -> u8
        ensures { result ≡ length self.now.state.crew }
    {
        self.crew.len() as u8
    }

    /// Lets the connection go, with all that it holds.
    pub fn close(self) {
        let World { books, .. } = self;
        close_books(books);
    }

    /// What its readers were told by their steps so far, and how many these are. Takes no memory.
    pub fn heard(&self) -> Heard
        ensures heard { WasHeard result self.now.state.crew }
        ensures steps_a { result.steps_a ≡ length (notes_of A self.now.state.crew) }
        ensures steps_b { result.steps_b ≡ length (notes_of B self.now.state.crew) }
    {
        Heard {
            told: self.hearing,
            steps_a: notes_at(&self.crew, 0).len(),
            steps_b: notes_at(&self.crew, 1).len(),
        }
    }

    /// Its books and its actors. It hasn't failed.
    pub fn into_parts(self) -> (Books, Vec<Crew>)
        requires { self.failed ≡ false }
        ensures parts { self ≡ standing (world result.1.items result.0) }
        ensures sound { IsSound (world result.1.items result.0) }
        ensures few { length result.1.items < 32 }
    {
        (self.books, self.crew)
    }

    /// The connection of these parts. Unless it has failed, lists and journals are paired at every stamp, rise, and are chained
    /// above the greatest stamp at the last round's end, and each actor has fewer than 2^57 notes and began no more rounds.
    /// There are fewer than 32 actors.
    pub fn from_parts(books: Books, crew: Vec<Crew>, failed: bool) -> World
        requires sound { failed ≡ false → IsSound (world crew.items books) }
        requires few { length crew.items < 32 }
        ensures { result ≡ record { failed = failed; state = world crew.items books } }
    {
        let hearing = Hearing::of(&crew);
        World {
            crew,
            books,
            hearing,
            failed,
        }
    }

    /// The connection of these parts, as `from_parts` makes it, where what the readers were told by their first steps is known. Where it
    /// hasn't failed, only the steps behind these are looked at.
    pub fn from_parts_since(books: Books, crew: Vec<Crew>, failed: bool, heard: Heard) -> World
        requires sound { failed ≡ false → IsSound (world crew.items books) }
        requires few { length crew.items < 32 }
        requires heard { failed ≡ false → WasHeard heard crew.items }
        ensures { result ≡ record { failed = failed; state = world crew.items books } }
    {
        let hearing = heard_now(&crew, failed, heard);
        World {
            crew,
            books,
            hearing,
            failed,
        }
    }
}
