//! A call at a book's table: the one that may wait.
ghost use Rattle.std.specs.Prelude.{◌≡◌, ◌-◌, ◌^◌, ◌≤◌, ◌⊎◌, ◌++◌, ◌∷◌, true, false, [], IfOk, OnOk, OnErr, Err};
ghost use Rattle.stamped_book.specs.declared.stamped.Refusal.TheVariants as refusals;
ghost use Rattle.actor_desk.specs.Noted.{Rises};
ghost use Rattle.ruled_desk.specs.Growing.{entry_by};

use crate::answering::Answering;
use crate::held::Held;
use crate::lock::{BookSeat, RestingSeat, RuledLock};
use actor_turn::Gate;
use sides::Object;
use stamped_book::{Pass, Refusal};
use std::sync::Wait;
use std::thread;

impl<O: Answering + Drop> RuledLock<O> {
    ghost use Rattle.ruled_desk.specs.Called.{IsCalled, IsRefused};
    ghost use Rattle.ruled_desk.specs.Rule.{HasTaken, IsAtRest, IsOut, IsWaiting};

    // Waits until the ticket is served. Then the seat has the book.
    fn wait<R: Wait>(&self, rt: &R, seat: &mut BookSeat<O>, ticket: u64)
        requires table { seat.old.table_id ≡ self.now.table }
        requires waits { IsWaiting seat.old.me ticket }
        ensures table { seat.new.table_id ≡ seat.old.table_id }
        ensures taken { HasTaken seat.old.me seat.new.me }
    {
        for _ in rt.forever() {
            if self.look(seat, ticket) {
                return;
            }
            thread::yield_now();
        }
        unreachable!()
    }

    // Draws a ticket, waits until it is served, and takes the book.
    fn take<R: Wait>(&self, rt: &R, seat: &mut BookSeat<O>) -> Held<O>
        requires table { seat.old.table_id ≡ self.now.table }
        requires rests { IsAtRest seat.old.me.0 }
        requires holds { seat.old.me.1 ≡ [] }
        requires parts { 1 ≤ seat.old.me.0.parts }
        ensures table { seat.new.table_id ≡ seat.old.table_id }
        ensures out { IsOut result seat.old.me seat.new.me }
    {
        let ticket = self.draw(seat);
        self.wait(rt, seat, ticket);
        self.take_out(seat)
    }

    // Asks the book with a seat at rest, which is at rest again afterwards. The entry of the call is the seat's own; after a
    // refusal the book is put back as it was.
    fn call_at<G: Gate, R: Wait>(
        &self,
        rt: &R,
        gate: &G,
        object: Object,
        seat: &mut BookSeat<O>,
        pass: &mut Pass,
        call: &O::Call,
    ) -> Result<O::Reply, Refusal>
        requires table { seat.old.table_id ≡ self.now.table }
        requires rests { IsAtRest seat.old.me.0 }
        requires holds { seat.old.me.1 ≡ [] }
        requires parts { 1 ≤ seat.old.me.0.parts }
        requires can_ask { O.can_ask call.now }
        ensures meets { IfOk result (λ reply. O.meets call.now reply) }
        ensures done { IfOk result (λ reply.
            IsCalled (entry_by pass.old pass.new call.now reply ∷ []) false
            seat.old.me seat.new.me) }
        ensures rises { OnOk result (Rises pass.old pass.new) }
        ensures err { OnErr result (IsRefused seat.old.me seat.new.me) }
        ensures pass_err { OnErr result (pass.new ≡ pass.old) }
        ensures table { seat.new.table_id ≡ seat.old.table_id }
        ensures stamps { result ≡ Err refusals.Stamps →
            (2 ^ 62 - 1 ≤ pass.old.stamp) ⊎ (seat.new.me.0.full ≡ true) }
    {
        let mut held = self.take(rt, seat);
        gate.held(pass.actor, object);
        match held.enter(pass, call) {
            Ok(reply) => {
                self.put_entry(seat, held);
                Ok(reply)
            }
            Err(Refusal::Stamps) => {
                self.put_refused(seat, held);
                Err(Refusal::Stamps)
            }
            Err(Refusal::Memory) => {
                self.put_back(seat, held);
                Err(Refusal::Memory)
            }
        }
    }

    /// Asks the book, which may wait for its turn. The gate is told while the seat has the book. The entry of the call is the seat's own. After a refusal the book is put
    /// back as it was.
    pub fn call<G: Gate, R: Wait>(
        &self,
        rt: &R,
        gate: &G,
        object: Object,
        seat: &mut RestingSeat<O>,
        pass: &mut Pass,
        call: &O::Call,
    ) -> Result<O::Reply, Refusal>
        requires table { seat.old.table ≡ self.now.table }
        requires parts { 1 ≤ seat.old.parts }
        requires can_ask { O.can_ask call.now }
        ensures meets { IfOk result (λ reply. O.meets call.now reply) }
        ensures own { IfOk result (λ reply. seat.new ≡ record seat.old {
          own = seat.old.own ++ entry_by pass.old pass.new call.now reply ∷ [];
        }) }
        ensures rises { OnOk result (Rises pass.old pass.new) }
        ensures err { OnErr result (seat.new.own ≡ seat.old.own) }
        ensures pass_err { OnErr result (pass.new ≡ pass.old) }
        ensures table { seat.new.table ≡ seat.old.table }
        ensures parts { seat.new.parts ≡ seat.old.parts }
        ensures stamps { result ≡ Err refusals.Stamps →
            (2 ^ 62 - 1 ≤ pass.old.stamp) ⊎ (seat.new.full ≡ true) }
    {
        let _past = self.pass_door(rt);
        self.call_at(rt, gate, object, &mut seat.seat, pass, call)
    }
}
