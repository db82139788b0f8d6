//! The six books of a connection, each with its journal.
ghost use Rattle.std.specs.Prelude.{◌≡◌, ◌^◌, ◌≤◌, ◌↔◌, ℕ, false, [], Some, IfOk, OnOk, OnErr};
ghost use Rattle.send_book.specs.Steps as sending;
ghost use Rattle.reassembly_book.specs.Steps as arriving;
ghost use Rattle.control_book.specs.Calls as controlling;
ghost use Rattle.control_book.specs.Replies as control_replies;
ghost use Rattle.control_book.specs.Control.{new_control};
ghost use Rattle.sides.specs.declared.side.Side.TheVariants.{A, B};
ghost use Rattle.stamped_book.specs.Entering.{next_stamp};
ghost use Rattle.stamped_book.specs.declared.stamped.Refusal.TheVariants as refusals;

use crate::ask::{Ask, Reply};
use crate::desk::Desk;
use control_book::{ControlBook, ControlCall, ControlReply};
use reassembly_book::{ReassemblyBook, ReassemblyCall, ReassemblyReply};
use send_book::{SendBook, SendCall, SendReply, marks_tile};
use sides::Side;
use stamped_book::{Pass, Refusal, Stamped};
use std::alloc::{AllocError, Global};
use std::marker::Model;

/// The send book, the reassembly book and the control book of each side, with their journals. Contracts see the six
/// opening values and journals.
///
/// What the books hold is small: no more than 2^62 - 3 bytes are written, no place or known end is past 2^62, no more than
/// 1,048,576 bytes are taken past those read, and each row that is kept can be linked.
#[derive(Drop)]
pub struct Books {
    pub send_a: Stamped<SendBook>,
    pub send_b: Stamped<SendBook>,
    pub reassembly_a: Stamped<ReassemblyBook>,
    pub reassembly_b: Stamped<ReassemblyBook>,
    pub control_a: Stamped<ControlBook>,
    pub control_b: Stamped<ControlBook>,
}

impl Model for Books {
    ghost use Rattle.actor_desk.specs.Books.{StampedBooks, books_in, all_six};
    ghost use Rattle.actor_desk.specs.Bounds.{AreSmall};

    ghost Value = { StampedBooks };

    ghost view = { λ b.
        all_six b.send_a b.send_b b.reassembly_a b.reassembly_b b.control_a b.control_b };

    ghost invariant = { λ b.
        AreSmall
        (books_in
        (all_six b.send_a b.send_b b.reassembly_a b.reassembly_b b.control_a b.control_b)) };
}

// A control book for A and one for B.
fn open_control(
    alloc: Global,
    key_a: u64,
    key_b: u64,
) -> Result<(ControlBook, ControlBook), AllocError>
    ensures a { IfOk result (λ books. books.0 ≡ new_control A key_a) }
    ensures b { IfOk result (λ books. books.1 ≡ new_control B key_b) }
{
    let a = ControlBook::new(alloc, Side::A, key_a)?;
    let b = ControlBook::new(alloc, Side::B, key_b)?;
    Ok((a, b))
}

impl Books {
    ghost use Rattle.actor_desk.specs.Bounds.{AreSmall};
    ghost use Rattle.actor_desk.specs.Books.{books_in, unasked, after_send_entry, after_reassembly_entry, after_control_entry, after_entry, stamp_of};
    ghost use Rattle.actor_desk.specs.Desk.{send_of, reassembly_of, control_of, opened_books, reply_of};
    ghost use Rattle.actor_desk.specs.Journals.{is_local};
    ghost use Rattle.actor_desk.specs.Kinds.{CanBeAsked, AreTiled};
    ghost use Rattle.actor_desk.specs.Words.{pick};

    /// The books of a connection that opens. Each side buffers `buffer` octets, 1 to 1,048,576, and has its own key.
    pub fn open(alloc: Global, buffer: u64, key_a: u64, key_b: u64) -> Result<Self, AllocError>
        requires some { 1 ≤ buffer }
        requires most { buffer ≤ 1048576 }
        ensures { IfOk result (λ books. books ≡ unasked (opened_books buffer key_a key_b)) }
    {
        let (control_a, control_b) = open_control(alloc, key_a, key_b)?;
        Ok(Books {
            send_a: Stamped::new(alloc, SendBook::new(alloc, buffer)),
            send_b: Stamped::new(alloc, SendBook::new(alloc, buffer)),
            reassembly_a: Stamped::new(alloc, ReassemblyBook::new(alloc, buffer)),
            reassembly_b: Stamped::new(alloc, ReassemblyBook::new(alloc, buffer)),
            control_a: Stamped::new(alloc, control_a),
            control_b: Stamped::new(alloc, control_b),
        })
    }

    // A law: the marks of both send books are as many as their bytes, and the numbers of all six are small.
    fn sound(&self)
        ensures tiled { AreTiled (books_in self.now) }
        ensures small { AreSmall (books_in self.now) }
    {
        marks_tile(self.send_a.book());
        marks_tile(self.send_b.book());
    }

    fn ask_send(
        &mut self,
        pass: &mut Pass,
        side: Side,
        call: &SendCall,
    ) -> Result<SendReply, Refusal>
        requires { sending.CanAsk call.now }
        ensures reply { IfOk result (λ reply. reply ≡
            sending.reply_to (send_of side (books_in self.old)) call.now) }
        ensures ok { OnOk result (self.new ≡ after_send_entry side call.now pass.old self.old) }
        ensures pass { OnOk result (pass.new ≡
            record pass.old
            { stamp = next_stamp (pick side self.old.send_a self.old.send_b) pass.old }) }
        ensures stamps { (result ≡ Err refusals.Stamps) ↔
            (2 ^ 62 ≤ next_stamp (pick side self.old.send_a self.old.send_b) pass.old) }
        ensures err { OnErr result (self.new ≡ self.old) }
        ensures pass_err { OnErr result (pass.new ≡ pass.old) }
    {
        match side {
            Side::A => self.send_a.enter(pass, call),
            Side::B => self.send_b.enter(pass, call),
        }
    }

    fn ask_reassembly(
        &mut self,
        pass: &mut Pass,
        side: Side,
        call: &ReassemblyCall,
    ) -> Result<ReassemblyReply, Refusal>
        requires { arriving.CanAsk call.now }
        ensures reply { IfOk result (λ reply. reply ≡
            arriving.reply_to (reassembly_of side (books_in self.old)) call.now) }
        ensures ok { OnOk result (self.new ≡
            after_reassembly_entry side call.now pass.old self.old) }
        ensures pass { OnOk result (pass.new ≡
            record pass.old {
              stamp = next_stamp (pick side self.old.reassembly_a self.old.reassembly_b)
                  pass.old;
            }) }
        ensures stamps { (result ≡ Err refusals.Stamps) ↔
            (2 ^ 62 ≤ next_stamp (pick side self.old.reassembly_a self.old.reassembly_b) pass.old) }
        ensures err { OnErr result (self.new ≡ self.old) }
        ensures pass_err { OnErr result (pass.new ≡ pass.old) }
    {
        match side {
            Side::A => self.reassembly_a.enter(pass, call),
            Side::B => self.reassembly_b.enter(pass, call),
        }
    }

    fn ask_control(
        &mut self,
        pass: &mut Pass,
        side: Side,
        call: &ControlCall,
    ) -> Result<ControlReply, Refusal>
        requires { controlling.can_ask call.now }
        ensures reply { IfOk result (λ reply. reply ≡
            control_replies.reply_to (control_of side (books_in self.old)) call.now) }
        ensures ok { OnOk result (self.new ≡ after_control_entry side call.now pass.old self.old) }
        ensures pass { OnOk result (pass.new ≡
            record pass.old
            { stamp = next_stamp (pick side self.old.control_a self.old.control_b) pass.old }) }
        ensures stamps { (result ≡ Err refusals.Stamps) ↔
            (2 ^ 62 ≤ next_stamp (pick side self.old.control_a self.old.control_b) pass.old) }
        ensures err { OnErr result (self.new ≡ self.old) }
        ensures pass_err { OnErr result (pass.new ≡ pass.old) }
    {
        match side {
            Side::A => self.control_a.enter(pass, call),
            Side::B => self.control_b.enter(pass, call),
        }
    }

    // Asks the book that is meant.
    fn enter(&mut self, pass: &mut Pass, ask: &Ask) -> Result<Reply, Refusal>
        requires book { is_local ask.now ≡ false }
        requires conditions { CanBeAsked ask.now }
        ensures reply { IfOk result (λ reply. reply ≡ reply_of (books_in self.old) ask.now) }
        ensures ok { OnOk result (self.new ≡ after_entry ask.now pass.old self.old) }
        ensures pass { OnOk result (pass.new ≡
            record pass.old { stamp = stamp_of ask.now self.old pass.old }) }
        ensures stamps { (result ≡ Err refusals.Stamps) ↔
            (2 ^ 62 ≤ stamp_of ask.now self.old pass.old) }
        ensures err { OnErr result (self.new ≡ self.old) }
        ensures pass_err { OnErr result (pass.new ≡ pass.old) }
    {
        match ask {
            Ask::Send(side, call) => Ok(Reply::Send(self.ask_send(pass, *side, call)?)),
            Ask::Reassembly(side, call) => {
                Ok(Reply::Reassembly(self.ask_reassembly(pass, *side, call)?))
            }
            Ask::Control(side, call) => Ok(Reply::Control(self.ask_control(pass, *side, call)?)),
            Ask::Local(_) => unreachable!(),
        }
    }
}

impl Desk for Books {
    ghost use Rattle.actor_desk.specs.Books.{Answers, books_in, origin_of, after_entry, stamp_of};
    ghost use Rattle.actor_desk.specs.Bounds.{IsBounded};
    ghost use Rattle.actor_desk.specs.Desk.{reply_of};
    ghost use Rattle.actor_desk.specs.Journals.{is_local};
    ghost use Rattle.actor_desk.specs.Kinds.{CanBeAsked, IsOfKind};
    ghost use Rattle.actor_desk.specs.Noted.{Rises, notes_in, note_of, noted};

    ghost serves = { λ books actor. Unit {0} };

    ghost is_full = { λ books ask pass. 2 ^ 62 ≤ stamp_of ask books pass };

    ghost notes = { λ books. Some (notes_in books) };

    ghost answers = { Answers };

    ghost origin = { origin_of };

    ghost root = { λ books. [] };

    /// Asks a book. What it answers is the book's own reply; its journal has one entry more, and the other five books stay.
    /// Every actor is served. After a refusal all is as before.
    fn call(&mut self, pass: &mut Pass, ask: &Ask) -> Result<Reply, Refusal>
        requires book { is_local ask.now ≡ false }
        requires conditions { CanBeAsked ask.now }
        ensures reply { IfOk result (λ reply. reply ≡ reply_of (books_in self.old) ask.now) }
        ensures ok { OnOk result (self.new ≡ after_entry ask.now pass.old self.old) }
        ensures pass { OnOk result (pass.new ≡
            record pass.old { stamp = stamp_of ask.now self.old pass.old }) }
        ensures stamps { (result ≡ Err refusals.Stamps) ↔
            (2 ^ 62 ≤ stamp_of ask.now self.old pass.old) }
        ensures err { OnErr result (self.new ≡ self.old) }
        ensures pass_err { OnErr result (pass.new ≡ pass.old) }
        ensures kind { IfOk result (λ reply. IsOfKind ask.now reply) }
        ensures bounds { IfOk result (λ reply. IsBounded ask.now reply) }
        ensures rises { OnOk result (Rises pass.old pass.new) }
        ensures notes { IfOk result (λ reply. Some (notes_in self.new) ≡
            noted (Some (notes_in self.old)) (note_of pass.old pass.new ask.now reply)) }
        ensures origin { origin_of self.new ≡ origin_of self.old }
    {
        self.sound();
        self.enter(pass, ask)
    }
}
