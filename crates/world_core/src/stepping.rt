//! The steps of a connection.

ghost use Rattle.std.specs.Prelude.{◌≡◌, ◌^◌, ◌<◌, length, true, false, is_some, None, IfOk, OnOk, OnErr, option_map};
ghost use Rattle.path_core.specs.Octets.{octets};
ghost use Rattle.world_core.specs.AsValues.{StepsAsValues};
ghost use Rattle.world_core.specs.Hearing.{ShowsTheSame, heard_by, heard_with};
ghost use Rattle.world_core.specs.Kept.{IsSound, standing, world};
ghost use Rattle.world_core.specs.Steps.{StampRises, next_note, stepped_by, is_made};
ghost use Rattle.world_laws.specs.Fine.{lists_of};
ghost use Rattle.world_laws.specs.Outcomes.{outcome_of};
ghost use Rattle.world_laws.specs.Worlds.{world_step, is_going};
ghost use Rattle.world_core.specs.declared.stepped.Stepped.TheVariants.{Ended};

use crate::crew;
use crate::hearing::{Told, told_of};
use crate::member::Crew;
use crate::stepped::Stepped;
use crate::world::World;
use actor_desk::{Books, Note};
use actor_turn::Report;
use stamped_book::Refusal;
use std::alloc::{AllocError, Global};

// One step of this actor, where there is such a one, and what is wanted of its note.
fn advance<R: Report + Drop>(
    alloc: Global,
    crew: &mut Vec<Crew>,
    books: &mut Books,
    actor: u8,
) -> Result<Option<R>, Refusal>
    ensures report { IfOk result (λ report. report ≡
        option_map R.of (next_note actor (world crew.old.items books.old))) }
    ensures going { IfOk result (λ report. is_some report ≡
        is_going actor (world crew.old.items books.old)) }
    ensures ok { OnOk result (world crew.new.items books.new ≡
        world_step octets actor (world crew.old.items books.old)) }
    ensures still { IfOk result (λ report. report ≡ None → world crew.new.items books.new ≡
        world crew.old.items books.old) }
    ensures rises { OnOk result
        (StampRises actor (world crew.old.items books.old) (world crew.new.items books.new)) }
    ensures hears { OnOk result (heard_by crew.new.items ≡
        heard_with (next_note actor (world crew.old.items books.old)) actor (heard_by crew.old.items)) }
    ensures sound { OnOk result (IsSound (world crew.old.items books.old) →
        IsSound (world crew.new.items books.new)) }
    ensures many { length crew.new.items ≡ length crew.old.items }
    ensures err { OnErr result (ShowsTheSame crew.old.items crew.new.items) }
{
    match crew.get_mut(usize::from(actor)) {
        Some(actor) => crew::step::<R>(alloc, actor, books),
        None => Ok(None),
    }
}

impl World {
    /// Makes one step of an actor and answers its note, or that its turn has ended.
    ///
    /// # Errors
    ///
    /// Where there is no memory. The world has failed then: every later step answers so too, and the outcome stays, and the list
    /// of each actor.
    pub fn step(&mut self, actor: u8) -> Result<Stepped, AllocError>
        ensures told { IfOk result (λ stepped. stepped ≡
            stepped_by (next_note actor self.old.state)) }
        ensures going { IfOk result (λ stepped. is_made stepped ≡ is_going actor self.old.state) }
        ensures ok { OnOk result (self.new ≡ standing (world_step octets actor self.old.state)) }
        ensures values { OnOk result (StepsAsValues actor self.old.state self.new.state) }
        ensures still { IfOk result (λ stepped. stepped ≡ Ended → self.new.state ≡ self.old.state) }
        ensures rises { OnOk result (StampRises actor self.old.state self.new.state) }
        ensures was { OnOk result (self.old.failed ≡ false) }
        ensures err { OnErr result (self.new.failed ≡ true) }
        ensures outcome { OnErr result (outcome_of self.new.state.crew ≡
            outcome_of self.old.state.crew) }
        ensures lists { OnErr result (lists_of self.new.state.crew ≡ lists_of self.old.state.crew) }
    {
        if self.failed {
            return Err(AllocError);
        }
        let alloc = *self.crew.allocator();
        match advance::<Note>(alloc, &mut self.crew, &mut self.books, actor) {
            Ok(Some(note)) => {
                self.hearing.take_told(actor, told_of(&note.reply));
                Ok(Stepped::Made(note))
            }
            Ok(None) => Ok(Stepped::Ended),
            Err(_) => {
                self.failed = true;
                Err(AllocError)
            }
        }
    }

    /// Makes one step of an actor as `step` does, and answers whether its turn hadn't ended. No note is given.
    ///
    /// # Errors
    ///
    /// Where there is no memory. The world has failed then, and the outcome stays, and the list of each actor.
    pub fn go(&mut self, actor: u8) -> Result<bool, AllocError>
        ensures going { IfOk result (λ went. went ≡ is_going actor self.old.state) }
        ensures ok { OnOk result (self.new ≡ standing (world_step octets actor self.old.state)) }
        ensures still { IfOk result (λ went. went ≡ false → self.new.state ≡ self.old.state) }
        ensures rises { OnOk result (StampRises actor self.old.state self.new.state) }
        ensures was { OnOk result (self.old.failed ≡ false) }
        ensures err { OnErr result (self.new.failed ≡ true) }
        ensures outcome { OnErr result (outcome_of self.new.state.crew ≡
            outcome_of self.old.state.crew) }
        ensures lists { OnErr result (lists_of self.new.state.crew ≡ lists_of self.old.state.crew) }
    {
        if self.failed {
            return Err(AllocError);
        }
        let alloc = *self.crew.allocator();
        match advance::<Told>(alloc, &mut self.crew, &mut self.books, actor) {
            Ok(Some(told)) => {
                self.hearing.take_told(actor, told);
                Ok(true)
            }
            Ok(None) => Ok(false),
            Err(_) => {
                self.failed = true;
                Err(AllocError)
            }
        }
    }
}
