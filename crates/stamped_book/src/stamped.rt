ghost use Rattle.std.specs.Prelude.{◌≡◌, ◌+◌, ◌^◌, ◌<◌, ◌≤◌, ◌↔◌, [], ◌∷◌, ◌++◌, IsOk, IfOk, OnOk, OnErr, vec_len, vec_capacity};
ghost use Rattle.std.specs.Option.{SomeIff};
ghost use Rattle.stamped_book.specs.Entering.{gone_on, raised};

use crate::book::Book;
use std::alloc::{AllocError, Global};
use std::marker::Model;
use thiserror::Error;

/// One call that a book took.
#[derive(Drop)]
pub struct Entry<C, R> {
    /// The place of the call among all: one more than the greater of `seen` and the book's stamp before.
    pub stamp: u64,
    /// The greatest stamp that the asker knew before.
    pub seen: u64,
    /// The number of the asker.
    pub actor: u8,
    /// What was asked.
    pub call: C,
    /// What the book answered.
    pub reply: R,
}

/// What an actor shows when it asks: its number, and the greatest stamp that it knows.
#[derive(Clone, Copy)]
pub struct Pass {
    /// The number of the actor.
    pub actor: u8,
    /// The greatest stamp that the actor knows.
    pub stamp: u64,
}

/// Why a call isn't entered.
#[derive(Clone, Copy, Debug, Error)]
pub enum Refusal {
    /// There is no memory for the entry.
    #[error("out of memory")]
    Memory,
    /// The stamp of the entry would be 2^62 or more.
    #[error("out of stamps")]
    Stamps,
}

impl From<AllocError> for Refusal {
    ghost use Rattle.std.specs.Prelude.{◌≡◌};
    ghost use Rattle.stamped_book.specs.declared.stamped.Refusal.TheVariants.{Memory};

    ghost from_gives = { λ _ refusal. refusal ≡ Memory };

    fn from(_: AllocError) -> Self {
        Refusal::Memory
    }
}

/// The greatest stamp that a call can have: 2^62 - 1.
pub const LAST_STAMP: u64 = (1 << 62) - 1;

/// Gives the pass this stamp where it is greater than its own.
pub fn raise(pass: &mut Pass, stamp: u64)
    ensures { pass.new ≡ raised pass.old stamp }
{
    pass.stamp = pass.stamp.max(stamp);
}

/// Gives the pass the stamp after its own, for a step that no book takes. Stamps are 1 to 2^62 - 1; after a refusal the
/// pass is as before.
pub fn go_on(pass: &mut Pass) -> Result<(), Refusal>
    ensures ok { IsOk result ↔ (pass.old.stamp + 1 < 2 ^ 62) }
    ensures pass { OnOk result (pass.new ≡ gone_on pass.old) }
    ensures stamps { (result ≡ Err Refusal.Stamps) ↔ (2 ^ 62 ≤ pass.old.stamp + 1) }
    ensures err { OnErr result (pass.new ≡ pass.old) }
{
    let Some(stamp) = stamp_after(pass.stamp) else {
        return Err(Refusal::Stamps);
    };
    pass.stamp = stamp;
    Ok(())
}

/// A book with its journal.
#[derive(Drop)]
pub struct Stamped<O: Book> {
    book: O,
    journal: Vec<Entry<O::Call, O::Reply>>,
}

impl<O: Book> Model for Stamped<O> {
    ghost use Rattle.std.specs.Prelude.{◌≡◌};
    ghost use Rattle.stamped_book.specs.Journal.{Journaled, IsReplay};

    ghost Value = { Journaled O O.Call O.Reply };

    ghost view = { λ s. record { opening = O.opening s.book; journal = s.journal.items } };

    ghost invariant = { λ s.
        IsReplay O.reply_to O.after (O.opening s.book) s.journal.items s.book };
}

// The stamp that follows this one.
fn stamp_after(stamp: u64) -> Option<u64>
    ensures { SomeIff result (stamp + 1 < 2 ^ 62) (stamp + 1) }
{
    if stamp < LAST_STAMP {
        Some(stamp + 1)
    } else {
        None
    }
}

// Appends where room was reserved.
fn push_reserved<T: Drop>(items: &mut Vec<T>, item: T)
    requires { vec_len items.old < vec_capacity items.old }
    ensures { items.new.items ≡ items.old.items ++ item ∷ [] }
{
    match items.push(item) {
        Ok(()) => {}
        Err(_) => unreachable!(),
    }
}

impl<O: Book> Stamped<O> {
    ghost use Rattle.stamped_book.specs.Journal.{IsJournal, book_of, last_stamp};
    ghost use Rattle.stamped_book.specs.Entering.{next_stamp, after_entering};

    /// A book that was just opened, with an empty journal, which takes no memory.
    pub fn new(alloc: Global, book: O) -> Self
        requires { O.opening book ≡ book }
        ensures { result ≡ record { opening = book; journal = [] } }
    {
        Stamped {
            book,
            journal: Vec::new(alloc),
        }
    }

    /// Asks the book, and notes the call with its reply and its stamp. After a refusal the book, its journal and the
    /// pass are as before. Stamps are 1 to 2^62 - 1.
    pub fn enter(&mut self, pass: &mut Pass, call: &O::Call) -> Result<O::Reply, Refusal>
        requires { O.can_ask call.now }
        ensures reply { IfOk result (λ reply. reply ≡
            O.reply_to (book_of O.reply_to O.after self.old) call.now) }
        ensures entry { OnOk result (self.new ≡
            after_entering O.reply_to O.after self.old pass.old call.now) }
        ensures pass { OnOk result (pass.new ≡
            record pass.old { stamp = next_stamp self.old pass.old }) }
        ensures stamps { (result ≡ Err Refusal.Stamps) ↔ (2 ^ 62 ≤ next_stamp self.old pass.old) }
        ensures err { OnErr result (self.new ≡ self.old) }
        ensures pass_err { OnErr result (pass.new ≡ pass.old) }
    {
        let Some(stamp) = stamp_after(self.last_stamp().max(pass.stamp)) else {
            return Err(Refusal::Stamps);
        };
        let reply = self.take(stamp, *pass, call)?;
        pass.stamp = stamp;
        Ok(reply)
    }

    // Takes all memory first, so that the book's own call is the last one that can be refused.
    fn take(&mut self, stamp: u64, pass: Pass, call: &O::Call) -> Result<O::Reply, AllocError>
        requires can_ask { O.can_ask call.now }
        requires next { stamp ≡ next_stamp self.old pass }
        requires small { stamp < 2 ^ 62 }
        ensures reply { IfOk result (λ reply. reply ≡
            O.reply_to (book_of O.reply_to O.after self.old) call.now) }
        ensures entry { OnOk result (self.new ≡
            after_entering O.reply_to O.after self.old pass call.now) }
        ensures err { OnErr result (self.new ≡ self.old) }
    {
        let kept_call = O::copy(call)?;
        let kept_reply = self.book.answer(call)?;
        self.journal.reserve(1)?;
        let reply = self.book.apply_answered(call, &kept_reply)?;
        push_reserved(
            &mut self.journal,
            Entry {
                stamp,
                seen: pass.stamp,
                actor: pass.actor,
                call: kept_call,
                reply: kept_reply,
            },
        );
        Ok(reply)
    }

    /// Every call that the book took, in order, lent.
    pub fn journal(&self) -> &[Entry<O::Call, O::Reply>]
        ensures value { result.now ≡ self.now.journal }
        ensures journal { IsJournal O.reply_to O.after self.now.opening 0 self.now.journal }
    {
        self.journal.as_slice()
    }

    /// The book, lent.
    pub fn book(&self) -> &O
        ensures replay { result.now ≡ book_of O.reply_to O.after self.now }
        ensures opening { O.opening result.now ≡ self.now.opening }
    {
        &self.book
    }

    /// The greatest stamp of the journal, or 0 where it is empty.
    pub fn last_stamp(&self) -> u64
        ensures { result ≡ last_stamp 0 self.now.journal }
    {
        match self.journal.last() {
            Some(entry) => entry.stamp,
            None => 0,
        }
    }
}
