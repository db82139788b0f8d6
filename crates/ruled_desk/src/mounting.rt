//! Actors as riders of a round, and back.
ghost use Rattle.std.specs.Prelude.{◌≡◌, ◌≤◌, ◌+◌, ◌++◌, [], map, reverse, IfOk, OnOk, OnErr, vec_len, vec_capacity};
ghost use Rattle.ruled_desk.specs.WholeRounds.{crew_of, without_pass};

use crate::rider::Mounted;
use actor_desk::Crew;
use std::alloc::{AllocError, Global};

// The actors of riders that stand in reverse order, behind those in the vector, which has room for them.
fn put_behind<A: Drop>(crew: &mut Vec<Crew<A>>, riders: Vec<Mounted<A>>)
    requires room { vec_len crew.old + vec_len riders ≤ vec_capacity crew.old }
    ensures { crew.new.items ≡ crew.old.items ++ crew_of (reverse riders.items) }
{
    let mut riders = riders;
    while let Some(rider) = riders.pop() {
        crew.push_reserved(rider.into_crew());
    }
}

/// The actors as riders without passes. The vector is empty then and keeps its room; without memory it stays as it was.
#[tactic(auto, using(crate::proofs::WholeRounds::put_again))]
pub(crate) fn mount<A: Drop>(
    alloc: Global,
    crew: &mut Vec<Crew<A>>,
) -> Result<Vec<Mounted<A>>, AllocError>
    ensures riders { IfOk result (λ riders. riders.items ≡ map without_pass crew.old.items) }
    ensures empty { OnOk result (crew.new.items ≡ []) }
    ensures room { IfOk result (λ riders. vec_len riders ≤ vec_capacity crew.new) }
    ensures err { OnErr result (crew.new.items ≡ crew.old.items) }
{
    let mut riders = Vec::with_capacity(alloc, crew.len())?;
    while let Some(last) = crew.pop() {
        match Mounted::new(alloc, last) {
            Ok(rider) => riders.push_reserved(rider),
            Err(last) => {
                crew.push_reserved(last);
                put_behind(crew, riders);
                return Err(AllocError);
            }
        }
    }
    riders.reverse();
    Ok(riders)
}

/// The actors without their passes, in the vector that has room for them.
pub(crate) fn dismount<A: Drop>(crew: &mut Vec<Crew<A>>, riders: Vec<Mounted<A>>)
    requires empty { crew.old.items ≡ [] }
    requires room { vec_len riders ≤ vec_capacity crew.old }
    ensures { crew.new.items ≡ crew_of riders.items }
{
    let mut riders = riders;
    riders.reverse();
    put_behind(crew, riders);
}
