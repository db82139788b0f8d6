//! How a round ended, by how its turns ended.
ghost use Rattle.std.specs.Prelude.{◌≡◌, ◌↔◌, true, false, None, All, OnOk};
ghost use Rattle.std.specs.List.{list_any};
ghost use Rattle.stamped_book.specs.declared.stamped.Refusal.TheVariants.{Memory, Stamps};
ghost use Rattle.actor_turn.specs.Turns.{is_refused};

use actor_desk::Crew;
use stamped_book::Refusal;

fn lacks_memory<A>(crew: &Crew<A>) -> bool
    ensures { result ≡ is_refused Memory crew.now }
{
    matches!(crew.refused, Some(Refusal::Memory))
}

fn lacks_stamps<A>(crew: &Crew<A>) -> bool
    ensures { result ≡ is_refused Stamps crew.now }
{
    matches!(crew.refused, Some(Refusal::Stamps))
}

fn one_lacks_memory<A>(crew: &[Crew<A>]) -> bool
    ensures { result ≡ list_any (is_refused Memory) crew.now }
{
    crew.iter().any(|crew| lacks_memory(crew))
}

fn one_lacks_stamps<A>(crew: &[Crew<A>]) -> bool
    ensures { result ≡ list_any (is_refused Stamps) crew.now }
{
    crew.iter().any(|crew| lacks_stamps(crew))
}

/// Want of memory before want of stamps.
pub(crate) fn outcome_of<A>(crew: &[Crew<A>]) -> Result<(), Refusal>
    ensures done { OnOk result (All (λ c. c.refused ≡ None) crew.now) }
    ensures memory { (result ≡ Err Memory) ↔ (list_any (is_refused Memory) crew.now ≡ true) }
    ensures stamps { (result ≡ Err Stamps) ↔
        ((list_any (is_refused Memory) crew.now ≡ false) ×
        (list_any (is_refused Stamps) crew.now ≡ true)) }
{
    if one_lacks_memory(crew) {
        return Err(Refusal::Memory);
    }
    if one_lacks_stamps(crew) {
        return Err(Refusal::Stamps);
    }
    Ok(())
}
