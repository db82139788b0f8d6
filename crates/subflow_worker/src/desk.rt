//! The six books, each behind a lock of its own.
ghost use Rattle.std.specs.Prelude.{◌≡◌};
ghost use Rattle.actor_turn.specs.Extending.{Extends};

use crate::held::{Held, Start};
use actor_desk::Books;
use control_book::ControlBook;
use reassembly_book::ReassemblyBook;
use send_book::SendBook;
use std::marker::{Brand, PhantomData};
use std::sync::Mutex;

/// Names the six books that a desk was given. A call of [`Brand`] picks them.
pub trait Naming {
    ghost use Rattle.actor_desk.specs.Books.{StampedBooks};

    /// The books as they were given.
    ghost given: { StampedBooks };
}

impl Naming for Brand {
    ghost use Rattle.actor_desk.specs.Books.{unasked};
    ghost use Rattle.actor_desk.specs.Desk.{opened_books};

    ghost given = { unasked (opened_books 1 0 0) };
}

/// The send book of A.
pub struct SendA<N> {
    of: PhantomData<N>,
}

/// The send book of B.
pub struct SendB<N> {
    of: PhantomData<N>,
}

/// The reassembly book of A.
pub struct ReassemblyA<N> {
    of: PhantomData<N>,
}

/// The reassembly book of B.
pub struct ReassemblyB<N> {
    of: PhantomData<N>,
}

/// The control book of A.
pub struct ControlA<N> {
    of: PhantomData<N>,
}

/// The control book of B.
pub struct ControlB<N> {
    of: PhantomData<N>,
}

impl<N: Naming> Start<SendBook> for SendA<N> {
    ghost start = { N.given.send_a };
}

impl<N: Naming> Start<SendBook> for SendB<N> {
    ghost start = { N.given.send_b };
}

impl<N: Naming> Start<ReassemblyBook> for ReassemblyA<N> {
    ghost start = { N.given.reassembly_a };
}

impl<N: Naming> Start<ReassemblyBook> for ReassemblyB<N> {
    ghost start = { N.given.reassembly_b };
}

impl<N: Naming> Start<ControlBook> for ControlA<N> {
    ghost start = { N.given.control_a };
}

impl<N: Naming> Start<ControlBook> for ControlB<N> {
    ghost start = { N.given.control_b };
}

/// The six books of a connection, each behind one lock. Each began with the book of its kind and side that N names, so
/// whenever its lock is free it is the replay of a journal that begins with that book's.
#[derive(Drop)]
pub struct LockedDesk<N: Naming> {
    pub(crate) send_a: Mutex<Held<SendBook, SendA<N>>>,
    pub(crate) send_b: Mutex<Held<SendBook, SendB<N>>>,
    pub(crate) reassembly_a: Mutex<Held<ReassemblyBook, ReassemblyA<N>>>,
    pub(crate) reassembly_b: Mutex<Held<ReassemblyBook, ReassemblyB<N>>>,
    pub(crate) control_a: Mutex<Held<ControlBook, ControlA<N>>>,
    pub(crate) control_b: Mutex<Held<ControlBook, ControlB<N>>>,
}

impl<N: Naming> LockedDesk<N> {
    /// Puts each book behind its lock. It takes no memory.
    pub fn new(books: Books) -> LockedDesk<N>
        requires { books ≡ N.given }
    {
        LockedDesk {
            send_a: Mutex::new(Held::new(books.send_a)),
            send_b: Mutex::new(Held::new(books.send_b)),
            reassembly_a: Mutex::new(Held::new(books.reassembly_a)),
            reassembly_b: Mutex::new(Held::new(books.reassembly_b)),
            control_a: Mutex::new(Held::new(books.control_a)),
            control_b: Mutex::new(Held::new(books.control_b)),
        }
    }

    /// The books, no more behind locks. The journal of each begins with that which it had as it was given.
    pub fn into_books(self) -> Books
        ensures send_a { Extends N.given.send_a result.send_a }
        ensures send_b { Extends N.given.send_b result.send_b }
        ensures reassembly_a { Extends N.given.reassembly_a result.reassembly_a }
        ensures reassembly_b { Extends N.given.reassembly_b result.reassembly_b }
        ensures control_a { Extends N.given.control_a result.control_a }
        ensures control_b { Extends N.given.control_b result.control_b }
    {
        let LockedDesk {
            send_a,
            send_b,
            reassembly_a,
            reassembly_b,
            control_a,
            control_b,
        } = self;
        Books {
            send_a: send_a.into_inner().into_book(),
            send_b: send_b.into_inner().into_book(),
            reassembly_a: reassembly_a.into_inner().into_book(),
            reassembly_b: reassembly_b.into_inner().into_book(),
            control_a: control_a.into_inner().into_book(),
            control_b: control_b.into_inner().into_book(),
        }
    }
}
