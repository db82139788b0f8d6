//! A book that lies under a lock.
ghost use Rattle.std.specs.Prelude.{◌≡◌, IfOk, OnOk, OnErr};
ghost use Rattle.stamped_book.specs.Journal.{book_of};
ghost use Rattle.actor_desk.specs.Noted.{Rises};
ghost use Rattle.actor_turn.specs.Extending.{Extends};

use actor_desk::Kept;
use stamped_book::{Book, Pass, Refusal, Stamped};
use std::marker::{Model, PhantomData};

/// Names the book that a lock was given, with its journal.
pub trait Start<O: Book> {
    ghost use Rattle.stamped_book.specs.Journal.{Journaled};

    /// The book as it was given.
    ghost start: { Journaled O O.Call O.Reply };
}

/// A book under a lock. Its journal begins with that of the book that S names, and its numbers are small.
#[derive(Drop)]
pub(crate) struct Held<O: Kept, S: Start<O>> {
    book: Stamped<O>,
    of: PhantomData<S>,
}

impl<O: Kept, S: Start<O>> Model for Held<O, S> {
    ghost use Rattle.stamped_book.specs.Journal.{Journaled, book_of};
    ghost use Rattle.actor_turn.specs.Extending.{Extends};

    ghost Value = { Journaled O O.Call O.Reply };

    ghost view = { λ h. h.book };

    ghost invariant = { λ h. Extends S.start h.book × O.sound (book_of O.reply_to O.after h.book) };
}

impl<O: Kept, S: Start<O>> Held<O, S> {
    /// The book that S names, as it is put under its lock.
    pub fn new(book: Stamped<O>) -> Self
        requires start { book ≡ S.start }
        requires sound { O.sound (book_of O.reply_to O.after book) }
        ensures { result ≡ book }
    {
        Held {
            book,
            of: PhantomData,
        }
    }

    /// The book, lent.
    pub fn book(&self) -> &O
        ensures value { result.now ≡ book_of O.reply_to O.after self.now }
        ensures sound { O.sound result.now }
    {
        self.book.book()
    }

    /// The book as its lock gives it back.
    pub fn into_book(self) -> Stamped<O>
        ensures value { result ≡ self }
        ensures extends { Extends S.start result }
        ensures sound { O.sound (book_of O.reply_to O.after result) }
    {
        self.book
    }

    /// Asks the book. After a refusal the pass is as before.
    pub fn enter(&mut self, pass: &mut Pass, call: &O::Call) -> Result<O::Reply, Refusal>
        requires { O.can_ask call.now }
        ensures reply { IfOk result (λ reply. reply ≡
            O.reply_to (book_of O.reply_to O.after self.old) call.now) }
        ensures rises { OnOk result (Rises pass.old pass.new) }
        ensures pass_err { OnErr result (pass.new ≡ pass.old) }
    {
        // For the proof: what the call makes of a sound book is sound.
        O::stays();
        self.book.enter(pass, call)
    }
}
