//! Seats at a ruled desk, and rounds by threads: the calls that may wait.
ghost use Rattle.std.specs.Prelude.{◌≡◌, ◌+◌, ◌-◌, ◌^◌, ◌<◌, ◌≤◌, ◌↔◌, ◌⊎◌, ◌++◌, ◌∷◌, ℕ, true, false, None, Some, [], All, length, map, IfOk, OnOk, OnErr};
ghost use Rattle.std.specs.List.{list_any, slice_index_or};
ghost use Rattle.stamped_book.specs.declared.stamped.Refusal.TheVariants as refusals;
ghost use Rattle.actor_desk.specs.Noted.{Rises};
ghost use Rattle.stamped_book.specs.declared.stamped.Refusal.TheVariants.{Memory, Stamps};
ghost use Rattle.send_book.specs.Steps as sending;
ghost use Rattle.reassembly_book.specs.Steps as arriving;
ghost use Rattle.control_book.specs.Calls as controlling;
ghost use Rattle.actor_desk.specs.declared.ask.Ask.TheVariants as asks;
ghost use Rattle.actor_desk.specs.declared.ask.Reply.TheVariants as replies;
ghost use Rattle.actor_desk.specs.Bounds.{IsSmallControl, IsSmallReassembly, IsSmallSend};
ghost use Rattle.actor_desk.specs.Kinds.{IsControlKind, IsReassemblyKind, IsSendKind};
ghost use Rattle.actor_desk.specs.Noted.{note_of, with_note};
ghost use Rattle.ruled_desk.specs.declared.rider.Rider.{Rider};
ghost use Rattle.ruled_desk.specs.Riding.{AreNumbered, HasPass, OneIsUsedUp, Rode, all_joined, given_pass, is_rider_refused, pass_taken};
ghost use Rattle.ruled_desk.specs.SixSeats.{AreOf, given_to, is_out, nobody_out, nothing_known, notes_by, notes_full};
ghost use Rattle.ruled_desk.specs.WholeRounds.{AreActors, EndsAsTurns, IsWholeRound, NoTurnMade, OneIsFull, OneKnowsLast, crew_of};
ghost use Rattle.actor_turn.specs.Extending.{BooksExtend};

use crate::desk::{OpenFault, RootPass, RuledDesk, RuledPass};
use crate::errands::{TurnGiver, ride_out};
use crate::mounting::{dismount, mount};
use crate::refusing::outcome_of;
use crate::rider::Mounted;
use actor_desk::{Actor, Ask, Books, Crew, Desk, Reply};
use actor_turn::{Gate, turn};
use control_book::{ControlCall, ControlReply};
use reassembly_book::{ReassemblyCall, ReassemblyReply};
use send_book::{SendCall, SendReply};
use sides::{Object, Side};
use stamped_book::{Pass, Refusal};
use std::alloc::Global;
use std::sync::Wait;

/// A seat at a desk of tables: it waits for its turn at one book for one call, and tells the gate while it has the book.
#[derive(Drop)]
pub struct RuledSeat<'a, G: Gate, R: Wait> {
    desk: &'a RuledDesk,
    pass: RuledPass,
    gate: &'a G,
    rt: &'a R,
}

impl RuledDesk {
    ghost use Rattle.ruled_desk.specs.SixSeats.{AreOf};

    /// A seat for the actor of a pass. It takes no memory.
    pub fn seat<'a, G: Gate, R: Wait>(
        &'a self,
        rt: &'a R,
        pass: RuledPass,
        gate: &'a G,
    ) -> RuledSeat<'a, G, R>
        requires { AreOf self.now pass.books }
        ensures desk { result.desk.now ≡ self.entry.now }
        ensures pass { result.pass ≡ pass }
    {
        RuledSeat {
            desk: self,
            pass,
            gate,
            rt,
        }
    }
}

impl<'a, G: Gate, R: Wait> RuledSeat<'a, G, R> {
    /// The pass as it stands.
    pub fn into_pass(self) -> RuledPass
        ensures { result ≡ self.entry.pass }
    {
        let RuledSeat {
            desk: _,
            pass,
            gate: _,
            rt: _,
        } = self;
        pass
    }
}

impl RuledPass {
    // Asks the send book of a side.
    fn ask_send<G: Gate, R: Wait>(
        &mut self,
        rt: &R,
        desk: &RuledDesk,
        gate: &G,
        pass: &mut Pass,
        side: Side,
        call: &SendCall,
    ) -> Result<SendReply, Refusal>
        requires can_ask { sending.CanAsk call.now }
        requires of { AreOf desk.now self.old.books }
        ensures kind { IfOk result (λ reply. IsSendKind call.now reply) }
        ensures bounds { IfOk result (λ reply. IsSmallSend reply) }
        ensures notes { IfOk result (λ reply. notes_by self.new.books ≡
            with_note (asks.Send side call.now)
            (note_of pass.old pass.new (asks.Send side call.now) (replies.Send reply))
            (notes_by self.old.books)) }
        ensures rises { OnOk result (Rises pass.old pass.new) }
        ensures err { OnErr result (notes_by self.new.books ≡ notes_by self.old.books) }
        ensures pass_err { OnErr result (pass.new ≡ pass.old) }
        ensures actor { self.new.actor ≡ self.old.actor }
        ensures of { AreOf desk.now self.new.books }
        ensures stamps { result ≡ Err refusals.Stamps →
            (2 ^ 62 - 1 ≤ pass.old.stamp) ⊎
            (notes_full (asks.Send side call.now) self.new.books ≡ true) }
    {
        let object = Object::Send(side);
        match side {
            Side::A => desk
                .send_a
                .call(rt, gate, object, &mut self.seats.send_a, pass, call),
            Side::B => desk
                .send_b
                .call(rt, gate, object, &mut self.seats.send_b, pass, call),
        }
    }

    // Asks the reassembly book of a side.
    fn ask_reassembly<G: Gate, R: Wait>(
        &mut self,
        rt: &R,
        desk: &RuledDesk,
        gate: &G,
        pass: &mut Pass,
        side: Side,
        call: &ReassemblyCall,
    ) -> Result<ReassemblyReply, Refusal>
        requires can_ask { arriving.CanAsk call.now }
        requires of { AreOf desk.now self.old.books }
        ensures kind { IfOk result (λ reply. IsReassemblyKind call.now reply) }
        ensures bounds { IfOk result (λ reply. IsSmallReassembly reply) }
        ensures notes { IfOk result (λ reply. notes_by self.new.books ≡
            with_note (asks.Reassembly side call.now)
            (note_of pass.old pass.new (asks.Reassembly side call.now) (replies.Reassembly reply))
            (notes_by self.old.books)) }
        ensures rises { OnOk result (Rises pass.old pass.new) }
        ensures err { OnErr result (notes_by self.new.books ≡ notes_by self.old.books) }
        ensures pass_err { OnErr result (pass.new ≡ pass.old) }
        ensures actor { self.new.actor ≡ self.old.actor }
        ensures of { AreOf desk.now self.new.books }
        ensures stamps { result ≡ Err refusals.Stamps →
            (2 ^ 62 - 1 ≤ pass.old.stamp) ⊎
            (notes_full (asks.Reassembly side call.now) self.new.books ≡ true) }
    {
        let object = Object::Reassembly(side);
        match side {
            Side::A => desk
                .reassembly_a
                .call(rt, gate, object, &mut self.seats.reassembly_a, pass, call),
            Side::B => desk
                .reassembly_b
                .call(rt, gate, object, &mut self.seats.reassembly_b, pass, call),
        }
    }

    // Asks the control book of a side.
    fn ask_control<G: Gate, R: Wait>(
        &mut self,
        rt: &R,
        desk: &RuledDesk,
        gate: &G,
        pass: &mut Pass,
        side: Side,
        call: &ControlCall,
    ) -> Result<ControlReply, Refusal>
        requires can_ask { controlling.can_ask call.now }
        requires of { AreOf desk.now self.old.books }
        ensures kind { IfOk result (λ reply. IsControlKind call.now reply) }
        ensures bounds { IfOk result (λ reply. IsSmallControl call.now reply) }
        ensures notes { IfOk result (λ reply. notes_by self.new.books ≡
            with_note (asks.Control side call.now)
            (note_of pass.old pass.new (asks.Control side call.now) (replies.Control reply))
            (notes_by self.old.books)) }
        ensures rises { OnOk result (Rises pass.old pass.new) }
        ensures err { OnErr result (notes_by self.new.books ≡ notes_by self.old.books) }
        ensures pass_err { OnErr result (pass.new ≡ pass.old) }
        ensures actor { self.new.actor ≡ self.old.actor }
        ensures of { AreOf desk.now self.new.books }
        ensures stamps { result ≡ Err refusals.Stamps →
            (2 ^ 62 - 1 ≤ pass.old.stamp) ⊎
            (notes_full (asks.Control side call.now) self.new.books ≡ true) }
    {
        let object = Object::Control(side);
        match side {
            Side::A => desk
                .control_a
                .call(rt, gate, object, &mut self.seats.control_a, pass, call),
            Side::B => desk
                .control_b
                .call(rt, gate, object, &mut self.seats.control_b, pass, call),
        }
    }
}

impl<G: Gate, R: Wait> Desk for RuledSeat<'_, G, R> {
    ghost use Rattle.std.specs.Prelude.{Option, Some};
    ghost use Rattle.actor_desk.specs.Bounds.{IsBounded};
    ghost use Rattle.actor_desk.specs.Journals.{is_local};
    ghost use Rattle.actor_desk.specs.Kinds.{CanBeAsked, IsOfKind};
    ghost use Rattle.actor_desk.specs.Noted.{Rises, note_of, noted};
    ghost use Rattle.ruled_desk.specs.SixSeats.{AreOf, names_of, notes_by, notes_full, origin_at};

    ghost serves = { λ seat actor.
        (seat.pass.actor ≡ actor) × AreOf seat.desk.now seat.pass.books };

    ghost is_full = { λ seat ask pass.
        (2 ^ 62 - 1 ≤ pass.stamp) ⊎ (notes_full ask seat.pass.books ≡ true) };

    ghost notes = { λ seat. Some (notes_by seat.pass.books) };

    ghost answers = { λ before after was now ask reply. Unit {0} };

    ghost origin = { λ seat. origin_at seat.desk.now };

    ghost root = { λ seat. names_of seat.desk.now };

    /// Asks a book, which may wait for its turn there. The actor of the pass is served. Its pass notes the entry of the call,
    /// which stands in the book's journal; after a refusal the book is as it was, and so are the pass's entries.
    fn call(&mut self, pass: &mut Pass, ask: &Ask) -> Result<Reply, Refusal> {
        let desk = self.desk;
        let gate = self.gate;
        match ask {
            Ask::Send(side, call) => Ok(Reply::Send(
                self.pass.ask_send(self.rt, desk, gate, pass, *side, call)?,
            )),
            Ask::Reassembly(side, call) => Ok(Reply::Reassembly(
                self.pass
                    .ask_reassembly(self.rt, desk, gate, pass, *side, call)?,
            )),
            Ask::Control(side, call) => Ok(Reply::Control(
                self.pass
                    .ask_control(self.rt, desk, gate, pass, *side, call)?,
            )),
            Ask::Local(_) => unreachable!(),
        }
    }
}

// The turn of one actor, at a seat with its pass.
fn turn_with<A: Actor, G: Gate, R: Wait>(
    rt: &R,
    alloc: Global,
    crew: &mut Crew<A>,
    pass: RuledPass,
    desk: &RuledDesk,
    gate: &G,
) -> RuledPass
    requires actor { pass.actor ≡ crew.old.pass.actor }
    requires of { AreOf desk.now pass.books }
    ensures { Rode A.asks A.takes desk.now
        (record { crew = crew.old; pass = Some pass })
        (record { crew = crew.new; pass = Some result }) }
{
    let mut seat = desk.seat(rt, pass, gate);
    let _told = turn(alloc, crew, &mut seat, gate);
    seat.into_pass()
}

/// The turn of one rider.
pub(crate) fn ride<A: Actor, G: Gate, R: Wait>(
    rt: &R,
    alloc: Global,
    rider: &mut Mounted<A>,
    desk: &RuledDesk,
    gate: &G,
)
    requires { HasPass desk.now rider.old }
    ensures { Rode A.asks A.takes desk.now rider.old rider.new }
{
    let rider = &mut *rider.rider;
    match rider.pass.take() {
        Some(pass) => {
            rider.pass = Some(turn_with(rt, alloc, &mut rider.crew, pass, desk, gate));
        }
        None => unreachable!(),
    }
}

/// A round: the turns of all riders, each at a worker with a seat of its pass, as far as workers have come and begin before this
/// thread is free, or else one after the other here, where the last one always is. The steps that were made so far stand, whatever the answer, each rider
/// has its pass again, no rider is out, and the desk comes back as it was.
///
/// # Errors
///
/// `Memory` where a turn stopped for want of memory; else `Stamps` where one stopped since stamps were used up: then the pass
/// of some actor stands at 2^62 - 1 or more, or its pass at the desk notes a full journal.
pub fn ruled_round<A: Actor + Drop, G: Gate, R: Wait>(
    rt: &R,
    alloc: Global,
    riders: &mut Vec<Mounted<A>>,
    desk: RuledDesk,
    gate: &G,
    givers: &mut [TurnGiver<A>],
) -> (Result<(), Refusal>, RuledDesk)
    requires passes { All (HasPass desk) riders.old.items }
    requires rest { All (λ giver. giver ≡ None) givers.old }
    ensures many { length riders.new.items ≡ length riders.old.items }
    ensures rode { (i : ℕ) (d : Rider A) → i < length riders.old.items →
        Rode A.asks A.takes desk
        (slice_index_or riders.old.items i d) (slice_index_or riders.new.items i d) }
    ensures done { OnOk result.0 (All (λ rider. rider.crew.refused ≡ None) riders.new.items) }
    ensures memory { (result.0 ≡ Err Memory) ↔
        (list_any (is_rider_refused Memory) riders.new.items ≡ true) }
    ensures stamps { (result.0 ≡ Err Stamps) ↔
        ((list_any (is_rider_refused Memory) riders.new.items ≡ false) ×
        (list_any (is_rider_refused Stamps) riders.new.items ≡ true)) }
    ensures used_up { result.0 ≡ Err Stamps → OneIsUsedUp riders.new.items }
    ensures desk { result.1 ≡ desk }
    ensures rest { All (λ giver. giver ≡ None) givers.new }
{
    let desk = ride_out(rt, alloc, givers, riders, desk, gate);
    (outcome_of(riders.as_slice()), desk)
}

// A pass for each rider. The riders are the actors from 0 on, and no pass is out.
fn give_passes<A>(desk: &RuledDesk, root: &mut RootPass, riders: &mut Vec<Mounted<A>>)
    requires root { AreOf desk.now root.old.books }
    requires home { (actor : ℕ) → is_out root.old.out actor ≡ false }
    requires numbered { AreNumbered 0 riders.old.items }
    ensures riders { riders.new.items ≡ map (given_pass desk.now) riders.old.items }
    ensures books { root.new.books ≡ root.old.books }
    ensures others { (actor : ℕ) → length riders.old.items ≤ actor →
        is_out root.new.out actor ≡ false }
{
    desk.split_all(root, riders.as_mut_slice());
}

// The pass of each rider comes back. The riders are the actors from 0 on, and no other pass is out.
fn take_passes<A>(desk: &RuledDesk, root: &mut RootPass, riders: &mut Vec<Mounted<A>>)
    requires root { AreOf desk.now root.old.books }
    requires passes { All (HasPass desk.now) riders.old.items }
    requires numbered { AreNumbered 0 riders.old.items }
    requires others { (actor : ℕ) → length riders.old.items ≤ actor →
        is_out root.old.out actor ≡ false }
    ensures riders { riders.new.items ≡ map pass_taken riders.old.items }
    ensures books { root.new.books ≡ all_joined root.old.books riders.old.items }
    ensures root { AreOf desk.now root.new.books }
    ensures home { (actor : ℕ) → is_out root.new.out actor ≡ false }
{
    desk.join_all(root, riders.as_mut_slice());
}

// A round of riders at a desk that was just opened: a pass for each, the round, the passes back, and the books out of their
// tables.
fn ride_at<A: Actor + Drop, G: Gate, R: Wait>(
    rt: &R,
    alloc: Global,
    riders: &mut Vec<Mounted<A>>,
    desk: RuledDesk,
    root: RootPass,
    gate: &G,
    givers: &mut [TurnGiver<A>],
) -> (Result<(), Refusal>, Books)
    requires numbered { AreNumbered 0 riders.old.items }
    requires root { root ≡ record { out = nobody_out; books = nothing_known desk } }
    requires rest { All (λ giver. giver ≡ None) givers.old }
    ensures ok { OnOk result.0
        (IsWholeRound A.asks A.takes (crew_of riders.old.items) (crew_of riders.new.items)
        (given_to desk) result.1) }
    ensures used_up { result.0 ≡ Err Stamps →
        OneKnowsLast (crew_of riders.new.items) ⊎ OneIsFull result.1 }
    ensures many { length riders.new.items ≡ length riders.old.items }
    ensures turned { EndsAsTurns A.asks A.takes
        (crew_of riders.old.items) (crew_of riders.new.items) result.0 }
    ensures extend { BooksExtend (given_to desk) result.1 }
    ensures rest { All (λ giver. giver ≡ None) givers.new }
{
    let mut root = root;
    give_passes(&desk, &mut root, riders);
    let (told, desk) = ruled_round(rt, alloc, riders, desk, gate, givers);
    take_passes(&desk, &mut root, riders);
    (told, desk.close(root))
}

// A round of riders over these books.
fn ride_all<A: Actor + Drop, G: Gate, R: Wait>(
    rt: &R,
    alloc: Global,
    riders: &mut Vec<Mounted<A>>,
    books: Books,
    gate: &G,
    givers: &mut [TurnGiver<A>],
) -> (Result<(), Refusal>, Books)
    requires numbered { AreNumbered 0 riders.old.items }
    requires rest { All (λ giver. giver ≡ None) givers.old }
    ensures ok { OnOk result.0
        (IsWholeRound A.asks A.takes (crew_of riders.old.items) (crew_of riders.new.items)
        books result.1) }
    ensures used_up { result.0 ≡ Err Stamps →
        OneKnowsLast (crew_of riders.new.items) ⊎ OneIsFull result.1 }
    ensures many { length riders.new.items ≡ length riders.old.items }
    ensures turned { EndsAsTurns A.asks A.takes
        (crew_of riders.old.items) (crew_of riders.new.items) result.0 ⊎
        NoTurnMade (crew_of riders.old.items) (crew_of riders.new.items) books result.1 result.0 }
    ensures extend { BooksExtend books result.1 }
    ensures rest { All (λ giver. giver ≡ None) givers.new }
{
    match RuledDesk::open(alloc, books) {
        Ok((desk, root)) => ride_at(rt, alloc, riders, desk, root, gate, givers),
        Err(OpenFault { books, fault: _ }) => (Err(Refusal::Memory), books),
    }
}

/// A round over these books, each in a table of its own for as long as the round takes: how [`ruled_round`] ended, and the books.
/// The actors are those from 0 on, and they are there again afterwards. At Ok each made its turn to its end, and each entry
/// that a journal gained is a note of an actor's list, and each note of a call at a book that a list gained is an entry.
/// Whatever the answer, each journal goes on from the one that was given, and the steps that were made stand.
///
/// # Errors
///
/// `Memory` where there is none for the tables, and then actors and books are as they were, or where a turn stopped for want of
/// it; else `Stamps` where one stopped since stamps were used up: then an actor knows the last stamp, 2^62 - 1, or an entry of a
/// journal has it.
pub fn round_at_tables<A: Actor + Drop, G: Gate, R: Wait>(
    rt: &R,
    alloc: Global,
    crew: &mut Vec<Crew<A>>,
    books: Books,
    gate: &G,
    givers: &mut [TurnGiver<A>],
) -> (Result<(), Refusal>, Books)
    requires numbered { AreActors 0 crew.old.items }
    requires rest { All (λ giver. giver ≡ None) givers.old }
    ensures many { length crew.new.items ≡ length crew.old.items }
    ensures ok { OnOk result.0
        (IsWholeRound A.asks A.takes crew.old.items crew.new.items books result.1) }
    ensures used_up { result.0 ≡ Err Stamps → OneKnowsLast crew.new.items ⊎ OneIsFull result.1 }
    ensures turned { EndsAsTurns A.asks A.takes crew.old.items crew.new.items result.0 ⊎
        NoTurnMade crew.old.items crew.new.items books result.1 result.0 }
    ensures extend { BooksExtend books result.1 }
    ensures rest { All (λ giver. giver ≡ None) givers.new }
{
    let mut riders = match mount(alloc, crew) {
        Ok(riders) => riders,
        Err(_) => return (Err(Refusal::Memory), books),
    };
    let told = ride_all(rt, alloc, &mut riders, books, gate, givers);
    dismount(crew, riders);
    told
}
