//! Seats at the locks, and rounds by threads: the calls that may wait.
ghost use Rattle.std.specs.Prelude.{◌≡◌, ◌<◌, ◌↔◌, ℕ, true, false, None, [], All, length, IfOk, OnOk, OnErr};
ghost use Rattle.std.specs.List.{list_any, slice_index_or};
ghost use Rattle.stamped_book.specs.declared.stamped.Refusal.TheVariants.{Memory, Stamps};
ghost use Rattle.send_book.specs.Steps as sending;
ghost use Rattle.reassembly_book.specs.Steps as arriving;
ghost use Rattle.control_book.specs.Calls as controlling;
ghost use Rattle.actor_desk.specs.declared.actor.Crew.{Crew};
ghost use Rattle.actor_desk.specs.declared.ask.Ask.TheVariants as asks;
ghost use Rattle.actor_desk.specs.Bounds.{IsBounded};
ghost use Rattle.actor_desk.specs.Kinds.{IsOfKind};
ghost use Rattle.actor_desk.specs.Noted.{Rises};
ghost use Rattle.actor_turn.specs.Turns.{Turned, is_refused};
ghost use Rattle.actor_turn.specs.Extending.{BooksExtend};

use crate::asking::{ask_control, ask_reassembly, ask_send};
use crate::desk::{LockedDesk, Naming};
use crate::held::{Held, Start};
use crate::refusing::outcome_of;
use actor_desk::{Actor, Ask, Books, Crew, Desk, Reply};
use actor_turn::{Gate, turn};
use control_book::{ControlBook, ControlCall};
use reassembly_book::{ReassemblyBook, ReassemblyCall};
use send_book::{SendBook, SendCall};
use sides::{Object, Side};
use stamped_book::{Pass, Refusal};
use std::alloc::Global;
use std::marker::Brand;
use std::sync::{Mutex, Wait};
use std::thread;
use std::thread::Threads;

/// A seat at a desk of locks: it takes one lock for one call, and tells the gate so before the call is made.
#[derive(Drop)]
pub struct LockedSeat<'a, N: Naming, G: Gate, R: Wait> {
    desk: &'a LockedDesk<N>,
    gate: &'a G,
    rt: &'a R,
}

impl<N: Naming> LockedDesk<N> {
    /// A seat for an actor. It takes no memory.
    pub fn seat<'a, G: Gate, R: Wait>(&'a self, rt: &'a R, gate: &'a G) -> LockedSeat<'a, N, G, R> {
        LockedSeat {
            desk: self,
            gate,
            rt,
        }
    }
}

impl<N: Naming, G: Gate, R: Wait> LockedSeat<'_, N, G, R> {
    // One call at a send book, whose lock is held no longer than that.
    fn at_send<S: Start<SendBook>>(
        &self,
        lock: &Mutex<Held<SendBook, S>>,
        side: Side,
        pass: &mut Pass,
        call: &SendCall,
    ) -> Result<Reply, Refusal>
        requires { sending.CanAsk call.now }
        ensures kind { IfOk result (λ reply. IsOfKind (asks.Send side call.now) reply) }
        ensures bounds { IfOk result (λ reply. IsBounded (asks.Send side call.now) reply) }
        ensures rises { OnOk result (Rises pass.old pass.new) }
        ensures pass_err { OnErr result (pass.new ≡ pass.old) }
    {
        let mut held = lock.lock(self.rt);
        self.gate.held(pass.actor, Object::Send(side));
        Ok(Reply::Send(ask_send(&mut held, pass, call)?))
    }

    // One call at a reassembly book, whose lock is held no longer than that.
    fn at_reassembly<S: Start<ReassemblyBook>>(
        &self,
        lock: &Mutex<Held<ReassemblyBook, S>>,
        side: Side,
        pass: &mut Pass,
        call: &ReassemblyCall,
    ) -> Result<Reply, Refusal>
        requires { arriving.CanAsk call.now }
        ensures kind { IfOk result (λ reply. IsOfKind (asks.Reassembly side call.now) reply) }
        ensures bounds { IfOk result (λ reply. IsBounded (asks.Reassembly side call.now) reply) }
        ensures rises { OnOk result (Rises pass.old pass.new) }
        ensures pass_err { OnErr result (pass.new ≡ pass.old) }
    {
        let mut held = lock.lock(self.rt);
        self.gate.held(pass.actor, Object::Reassembly(side));
        Ok(Reply::Reassembly(ask_reassembly(&mut held, pass, call)?))
    }

    // One call at a control book, whose lock is held no longer than that.
    fn at_control<S: Start<ControlBook>>(
        &self,
        lock: &Mutex<Held<ControlBook, S>>,
        side: Side,
        pass: &mut Pass,
        call: &ControlCall,
    ) -> Result<Reply, Refusal>
        requires { controlling.can_ask call.now }
        ensures kind { IfOk result (λ reply. IsOfKind (asks.Control side call.now) reply) }
        ensures bounds { IfOk result (λ reply. IsBounded (asks.Control side call.now) reply) }
        ensures rises { OnOk result (Rises pass.old pass.new) }
        ensures pass_err { OnErr result (pass.new ≡ pass.old) }
    {
        let mut held = lock.lock(self.rt);
        self.gate.held(pass.actor, Object::Control(side));
        Ok(Reply::Control(ask_control(&mut held, pass, call)?))
    }
}

impl<N: Naming, G: Gate, R: Wait> Desk for LockedSeat<'_, N, G, R> {
    ghost use Rattle.std.specs.Prelude.{Option};
    ghost use Rattle.actor_desk.specs.Books.{origin_of};
    ghost use Rattle.actor_desk.specs.Bounds.{IsBounded};
    ghost use Rattle.actor_desk.specs.Journals.{is_local};
    ghost use Rattle.actor_desk.specs.Kinds.{CanBeAsked, IsOfKind};
    ghost use Rattle.actor_desk.specs.Noted.{Rises, note_of, noted};
    ghost use Rattle.actor_turn.specs.Turns.{unnoted};

    ghost serves = { λ seat actor. Unit {0} };

    ghost is_full = { λ seat ask pass. Unit {0} };

    ghost notes = { λ seat. unnoted };

    ghost answers = { λ before after was now ask reply. Unit {0} };

    ghost origin = { λ seat. origin_of N.given };

    ghost root = { λ seat. [] };

    /// Asks a book, which may wait for its lock. Every actor is served. After a refusal the pass is as before; no clause says
    /// what it was refused for.
    fn call(&mut self, pass: &mut Pass, ask: &Ask) -> Result<Reply, Refusal>
        requires book { is_local ask.now ≡ false }
        requires conditions { CanBeAsked ask.now }
        ensures kind { IfOk result (λ reply. IsOfKind ask.now reply) }
        ensures bounds { IfOk result (λ reply. IsBounded ask.now reply) }
        ensures rises { OnOk result (Rises pass.old pass.new) }
        ensures answers { IfOk result (λ reply. Unit {0}) }
        ensures notes { IfOk result (λ reply. unnoted ≡
            noted unnoted (note_of pass.old pass.new ask.now reply)) }
        ensures err { OnErr result (unnoted ≡ unnoted) }
        ensures pass_err { OnErr result (pass.new ≡ pass.old) }
    {
        match ask {
            Ask::Send(Side::A, call) => self.at_send(&self.desk.send_a, Side::A, pass, call),
            Ask::Send(Side::B, call) => self.at_send(&self.desk.send_b, Side::B, pass, call),
            Ask::Reassembly(Side::A, call) => self.at_reassembly(
                &self.desk.reassembly_a,
                Side::A,
                pass,
                call,
            ),
            Ask::Reassembly(Side::B, call) => self.at_reassembly(
                &self.desk.reassembly_b,
                Side::B,
                pass,
                call,
            ),
            Ask::Control(Side::A, call) => self.at_control(
                &self.desk.control_a,
                Side::A,
                pass,
                call,
            ),
            Ask::Control(Side::B, call) => self.at_control(
                &self.desk.control_b,
                Side::B,
                pass,
                call,
            ),
            Ask::Local(_) => unreachable!(),
        }
    }
}

// The turn of one actor, at a seat of its own.
fn turn_at<A: Actor, N: Naming, G: Gate, R: Wait>(
    rt: &R,
    alloc: Global,
    crew: &mut Crew<A>,
    desk: &LockedDesk<N>,
    gate: &G,
)
    ensures { Turned A.asks A.takes crew.old crew.new }
{
    let mut seat = desk.seat(rt, gate);
    let _told = turn(alloc, crew, &mut seat, gate);
}

/// A round: the turns of all actors, each in a thread of its own, or one after the other where no thread can be made. The
/// steps that were made so far stand, whatever the answer.
///
/// # Errors
///
/// `Memory` where a turn was refused with it; else `Stamps` where one was. No clause says that stamps were used up then: what a
/// seat saw of a book can't be named once its lock is free.
pub fn round<A: Actor + Send, N: Naming + Send + Sync, G: Gate + Sync, R: Threads + Wait + Sync>(
    rt: &R,
    alloc: Global,
    crew: &mut [Crew<A>],
    desk: &LockedDesk<N>,
    gate: &G,
) -> Result<(), Refusal>
    ensures turned { (i : ℕ) (d : Crew A) → i < length crew.old →
        Turned A.asks A.takes (slice_index_or crew.old i d) (slice_index_or crew.new i d) }
    ensures done { OnOk result (All (λ c. c.refused ≡ None) crew.new) }
    ensures memory { (result ≡ Err Memory) ↔ (list_any (is_refused Memory) crew.new ≡ true) }
    ensures stamps { (result ≡ Err Stamps) ↔
        ((list_any (is_refused Memory) crew.new ≡ false) ×
        (list_any (is_refused Stamps) crew.new ≡ true)) }
{
    let threads = crew.len().max(1);
    thread::for_each_mut(
        rt,
        crew,
        threads,
        &|_, crew| turn_at(rt, alloc, crew, desk, gate),
    );
    outcome_of(crew)
}

// A round over the books that N names.
fn round_at<A: Actor + Send, N: Naming + Send + Sync, G: Gate + Sync, R: Threads + Wait + Sync>(
    rt: &R,
    alloc: Global,
    crew: &mut [Crew<A>],
    books: Books,
    gate: &G,
) -> (Result<(), Refusal>, Books)
    requires { books ≡ N.given }
    ensures turned { (i : ℕ) (d : Crew A) → i < length crew.old →
        Turned A.asks A.takes (slice_index_or crew.old i d) (slice_index_or crew.new i d) }
    ensures done { OnOk result.0 (All (λ c. c.refused ≡ None) crew.new) }
    ensures memory { (result.0 ≡ Err Memory) ↔ (list_any (is_refused Memory) crew.new ≡ true) }
    ensures stamps { (result.0 ≡ Err Stamps) ↔
        ((list_any (is_refused Memory) crew.new ≡ false) ×
        (list_any (is_refused Stamps) crew.new ≡ true)) }
    ensures books { BooksExtend N.given result.1 }
{
    let desk: LockedDesk<N> = LockedDesk::new(books);
    let told = round(rt, alloc, crew, &desk, gate);
    (told, desk.into_books())
}

// A round over the books that are named as they are.
fn round_of<A: Actor + Send, G: Gate + Sync, R: Threads + Wait + Sync>(
    rt: &R,
    alloc: Global,
    crew: &mut [Crew<A>],
    books: Books,
    gate: &G,
) -> (Result<(), Refusal>, Books)
    ensures many { length crew.new ≡ length crew.old }
    ensures turned { (i : ℕ) (d : Crew A) → i < length crew.old →
        Turned A.asks A.takes (slice_index_or crew.old i d) (slice_index_or crew.new i d) }
    ensures done { OnOk result.0 (All (λ c. c.refused ≡ None) crew.new) }
    ensures memory { (result.0 ≡ Err Memory) ↔ (list_any (is_refused Memory) crew.new ≡ true) }
    ensures stamps { (result.0 ≡ Err Stamps) ↔
        ((list_any (is_refused Memory) crew.new ≡ false) ×
        (list_any (is_refused Stamps) crew.new ≡ true)) }
    ensures books { BooksExtend books result.1 }
{
    round_at::<A, Brand, G, R>(rt, alloc, crew, books, gate)
}

/// A round over these books, each behind a lock of its own for as long as the round takes: what [`round`] answers, and the
/// books, whose journals begin with those that they had.
pub fn threaded_round<A: Actor + Send, G: Gate + Sync, R: Threads + Wait + Sync>(
    rt: &R,
    alloc: Global,
    crew: &mut Vec<Crew<A>>,
    books: Books,
    gate: &G,
) -> (Result<(), Refusal>, Books)
    ensures many { length crew.new.items ≡ length crew.old.items }
    ensures turned { (i : ℕ) (d : Crew A) → i < length crew.old.items →
        Turned A.asks A.takes (slice_index_or crew.old.items i d)
        (slice_index_or crew.new.items i d) }
    ensures done { OnOk result.0 (All (λ c. c.refused ≡ None) crew.new.items) }
    ensures memory { (result.0 ≡ Err Memory) ↔
        (list_any (is_refused Memory) crew.new.items ≡ true) }
    ensures stamps { (result.0 ≡ Err Stamps) ↔
        ((list_any (is_refused Memory) crew.new.items ≡ false) ×
        (list_any (is_refused Stamps) crew.new.items ≡ true)) }
    ensures books { BooksExtend books result.1 }
{
    round_of(rt, alloc, crew, books, gate)
}
