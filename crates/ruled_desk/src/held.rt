//! A book as it lies in its slot.
ghost use Rattle.std.specs.Prelude.{◌≡◌, ◌^◌, ◌≤◌, ◌-◌, ◌⊎◌, ◌↔◌, ◌∷◌, [], true, IfOk, OnOk, OnErr};
ghost use Rattle.stamped_book.specs.Journal.{book_of};
ghost use Rattle.stamped_book.specs.declared.stamped.Refusal.TheVariants as refusals;
ghost use Rattle.actor_desk.specs.Noted.{Rises};
ghost use Rattle.ruled_desk.specs.Growing.{HasLastStamp, entry_by, grown};

use crate::answering::Answering;
use actor_desk::Kept;
use stamped_book::{Book, LAST_STAMP, Pass, Refusal, Stamped, stamps_rise};
use std::marker::Model;

/// A book of which nothing is known but that it is sound. Contracts see its opening value and its journal.
#[derive(Drop)]
pub struct Held<O: Kept> {
    book: Stamped<O>,
}

impl<O: Kept> Model for Held<O> {
    ghost use Rattle.stamped_book.specs.Journal.{Journaled, book_of};

    ghost Value = { Journaled O O.Call O.Reply };

    ghost view = { λ h. h.book };

    ghost invariant = { λ h. O.sound (book_of O.reply_to O.after h.book) };
}

impl<O: Answering> Held<O> {
    /// Holds a sound book as it is.
    pub fn new(book: Stamped<O>) -> Self
        requires { O.sound (book_of O.reply_to O.after book) }
        ensures { result ≡ book }
    {
        Held { book }
    }

    /// Gives the book back, which is sound.
    pub fn into_book(self) -> Stamped<O>
        ensures value { result ≡ self }
        ensures sound { O.sound (book_of O.reply_to O.after result) }
    {
        self.book
    }

    /// Asks the book. Its journal gains the entry of the call, and the pass its stamp; after a refusal both are as before.
    pub fn enter(&mut self, pass: &mut Pass, call: &O::Call) -> Result<O::Reply, Refusal>
        requires { O.can_ask call.now }
        ensures meets { IfOk result (λ reply. O.meets call.now reply) }
        ensures grown { IfOk result (λ reply. self.new ≡
            grown self.old (entry_by pass.old pass.new call.now reply ∷ [])) }
        ensures rises { OnOk result (Rises pass.old pass.new) }
        ensures stamps { result ≡ Err refusals.Stamps →
            (2 ^ 62 - 1 ≤ pass.old.stamp) ⊎ HasLastStamp self.new.journal }
        ensures err { OnErr result (self.new ≡ self.old) }
        ensures pass_err { OnErr result (pass.new ≡ pass.old) }
    {
        // For the proof: what the call makes of a sound book is sound, and its stamp is in order.
        O::stays();
        self.book.book().answers();
        stamps_rise(&self.book);
        self.book.enter(pass, call)
    }

    /// Whether the last stamp that there is was given to an entry.
    pub fn is_full(&self) -> bool
        ensures { result ≡ true ↔ HasLastStamp self.now.journal }
    {
        // For the proof: no stamp is greater than the last one that there is.
        stamps_rise(&self.book);
        self.book.last_stamp() == LAST_STAMP
    }
}
