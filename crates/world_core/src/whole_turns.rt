//! Whole turns in order of number, and rounds of them.

ghost use Rattle.std.specs.Prelude.{◌≡◌, false, true, OnOk, OnErr};
ghost use Rattle.path_core.specs.Octets.{octets};
ghost use Rattle.world_core.specs.Cuts.{RoundCut, TurnCut};
ghost use Rattle.world_core.specs.Rounds.{RoundTo, TurnsTo};
ghost use Rattle.world_laws.specs.Serial.{TurnTo};

use crate::world::World;
use std::alloc::AllocError;

/// The steps of an actor up to the end of its turn.
///
/// # Errors
///
/// Where there is no memory. The world has failed then, and the outcome and the list of each actor are as after some first steps
/// of the turn.
pub fn turn(world: &mut World, actor: u8) -> Result<(), AllocError>
    requires { world.old.failed ≡ false }
    ensures ok { OnOk result (TurnTo octets actor world.old.state world.new.state) }
    ensures stands { OnOk result (world.new.failed ≡ false) }
    ensures err { OnErr result (world.new.failed ≡ true) }
    ensures cut { OnErr result (TurnCut octets actor world.old.state world.new.state) }
{
    while world.go(actor)? {}
    Ok(())
}

// The turns of all actors.
fn turns(world: &mut World) -> Result<(), AllocError>
    requires { world.old.failed ≡ false }
    ensures ok { OnOk result (TurnsTo octets world.old.state world.new.state) }
    ensures stands { OnOk result (world.new.failed ≡ false) }
    ensures err { OnErr result (world.new.failed ≡ true) }
    ensures cut { OnErr result (RoundCut octets world.old.state world.new.state) }
{
    let actors = world.actors();
    for actor in 0..actors {
        turn(world, actor)?;
    }
    Ok(())
}

/// A round: the turns of all actors, one after the other, and its end.
///
/// # Errors
///
/// Where there is no memory. The world has failed then, and the outcome and the list of each actor are as after the turns of some
/// first actors, and some first steps of the next one.
pub fn round(world: &mut World) -> Result<(), AllocError>
    requires { world.old.failed ≡ false }
    ensures ok { OnOk result (RoundTo octets world.old.state world.new.state) }
    ensures stands { OnOk result (world.new.failed ≡ false) }
    ensures err { OnErr result (world.new.failed ≡ true) }
    ensures cut { OnErr result (RoundCut octets world.old.state world.new.state) }
{
    turns(world)?;
    world.end_round();
    Ok(())
}
