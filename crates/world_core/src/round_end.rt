//! The end of a round.

ghost use Rattle.std.specs.Prelude.{◌≡◌, ◌+◌, ◌++◌, max, take, drop, map, true, false, not, ◌&&◌, if◌then◌else◌};
ghost use Rattle.std.specs.List.{list_all};
ghost use Rattle.stamped_book.specs.Entering.{raised};
ghost use Rattle.world_core.specs.AsValues.{EndsAsValues};
ghost use Rattle.world_core.specs.Kept.{standing};
ghost use Rattle.world_core.specs.Timely.{AreReady, AreTimely};
ghost use Rattle.world_laws.specs.Actors.{is_over};
ghost use Rattle.world_laws.specs.Timely.{CanBegin};
ghost use Rattle.world_laws.specs.Worlds.{all_over, greatest, begins, end_round};

use crate::member::{Crew, is_over};
use crate::world::World;
use actor_desk::Actor;
use stamped_book::raise;

// Whether the actor's turn has ended.
fn is_crew_over(crew: &Crew) -> bool
    ensures { result ≡ is_over crew.now.member }
{
    is_over(&crew.member)
}

fn each_is_over(crew: &[Crew]) -> bool
    ensures { result ≡ list_all (λ c. is_over c.member) crew.now }
{
    crew.iter().all(|crew| is_crew_over(crew))
}

// Whether each turn has ended.
fn all_over(crew: &[Crew]) -> bool
    ensures { result ≡ all_over crew.now }
{
    each_is_over(crew)
}

// The greatest stamp that an actor knows.
fn greatest(crew: &[Crew]) -> u64
    ensures { result ≡ greatest 0 crew.now }
{
    let mut stamp = 0;
    for actor in crew {
        stamp = stamp.max(actor.pass.stamp);
    }
    stamp
}

// The actor begins a round, and knows this stamp.
#[tactic(auto, using(crate::proofs::StepMade::over_asks_none))]
fn begin(crew: &mut Crew, stamp: u64)
    requires over { is_over crew.old.member ≡ true }
    requires rounds { CanBegin crew.old.member }
    ensures { crew.new ≡ begins stamp crew.old }
{
    crew.member.next_round();
    raise(&mut crew.pass, stamp);
}

// Each actor does.
fn begin_each(crew: &mut [Crew], stamp: u64)
    requires { AreReady crew.old }
    ensures { crew.new ≡ map (begins stamp) crew.old }
{
    for actor in crew.iter_mut() {
        begin(actor, stamp);
    }
}

fn begin_all(crew: &mut Vec<Crew>, stamp: u64)
    requires { AreReady crew.old.items }
    ensures { crew.new.items ≡ map (begins stamp) crew.old.items }
{
    begin_each(crew, stamp);
}

// The round ends where each turn has ended; else nothing changes.
fn end(crew: &mut Vec<Crew>) -> bool
    requires { AreTimely crew.old.items }
    ensures over { result ≡ all_over crew.old.items }
    ensures crew { crew.new.items ≡
        (if all_over crew.old.items then map (begins (greatest 0 crew.old.items)) crew.old.items
        else crew.old.items) }
{
    if !all_over(crew) {
        return false;
    }
    let stamp = greatest(crew);
    begin_all(crew, stamp);
    true
}

impl World {
    /// Where each turn has ended and the world hasn't failed, each actor knows the greatest stamp so far and begins the next
    /// round. Else the answer is false, and nothing changes. Takes no memory.
    pub fn end_round(&mut self) -> bool
        ensures over { result ≡ (not self.old.failed && all_over self.old.state.crew) }
        ensures next { self.old.failed ≡ false → self.new ≡ standing (end_round self.old.state) }
        ensures values { self.old.failed ≡ false → EndsAsValues self.old.state self.new.state }
        ensures failed { self.old.failed ≡ true → self.new ≡ self.old }
    {
        if self.failed {
            return false;
        }
        end(&mut self.crew)
    }
}
