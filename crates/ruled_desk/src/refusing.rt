//! How a round ended, by how its turns ended.
ghost use Rattle.std.specs.Prelude.{◌≡◌, ◌↔◌, true, false, None, All, OnOk};
ghost use Rattle.std.specs.List.{list_any};
ghost use Rattle.stamped_book.specs.declared.stamped.Refusal.TheVariants.{Memory, Stamps};
ghost use Rattle.ruled_desk.specs.Riding.{is_rider_refused};

use crate::rider::Mounted;
use stamped_book::Refusal;

fn lacks_memory<A>(rider: &Mounted<A>) -> bool
    ensures { result ≡ is_rider_refused Memory rider.now }
{
    matches!(rider.rider.crew.refused, Some(Refusal::Memory))
}

fn lacks_stamps<A>(rider: &Mounted<A>) -> bool
    ensures { result ≡ is_rider_refused Stamps rider.now }
{
    matches!(rider.rider.crew.refused, Some(Refusal::Stamps))
}

fn one_lacks_memory<A>(riders: &[Mounted<A>]) -> bool
    ensures { result ≡ list_any (is_rider_refused Memory) riders.now }
{
    riders.iter().any(|rider| lacks_memory(rider))
}

fn one_lacks_stamps<A>(riders: &[Mounted<A>]) -> bool
    ensures { result ≡ list_any (is_rider_refused Stamps) riders.now }
{
    riders.iter().any(|rider| lacks_stamps(rider))
}

/// Want of memory before want of stamps.
pub(crate) fn outcome_of<A>(riders: &[Mounted<A>]) -> Result<(), Refusal>
    ensures done { OnOk result (All (λ rider. rider.crew.refused ≡ None) riders.now) }
    ensures memory { (result ≡ Err Memory) ↔
        (list_any (is_rider_refused Memory) riders.now ≡ true) }
    ensures stamps { (result ≡ Err Stamps) ↔
        ((list_any (is_rider_refused Memory) riders.now ≡ false) ×
        (list_any (is_rider_refused Stamps) riders.now ≡ true)) }
{
    if one_lacks_memory(riders) {
        return Err(Refusal::Memory);
    }
    if one_lacks_stamps(riders) {
        return Err(Refusal::Stamps);
    }
    Ok(())
}
