//! Serial rounds of many connections, whose steps are those of their table.

ghost use Rattle.std.specs.Prelude.{◌≡◌, ◌<◌, ◌≤◌, All, IfOk, OnOk, length};
ghost use Rattle.path_core.specs.Octets.{octets};
ghost use Rattle.world_core.specs.Rounds.{RoundTo};
ghost use Rattle.world_core.specs.Steps.{is_made};
ghost use Rattle.connection_table.specs.ManyRounds.{Changes, EachRound, IsSerialEnd, Made, RoundIfGoing, RoundMade, Runs, StepMade, TurnMade, TurnsMade};

use crate::table::ConnectionTable;
use std::alloc::AllocError;
use world_core::Stepped;

// Whether a step was made. What drops a note stands here alone.
fn was_made(stepped: Stepped) -> bool
    ensures { result ≡ is_made stepped }
{
    matches!(stepped, Stepped::Made(_))
}

/// Makes a step of an actor of a connection, and answers whether its turn hadn't ended.
fn go(table: &mut ConnectionTable, connection: u8, actor: u8) -> Result<bool, AllocError>
    requires there { connection < length table.old }
    requires run { All Runs table.old }
    ensures made { IfOk result
        (λ went. Changes (StepMade actor went) connection table.old table.new) }
{
    match table.step(connection, actor) {
        Ok(stepped) => Ok(was_made(stepped)),
        Err(fault) => Err(fault),
    }
}

/// The steps of an actor of a connection, up to the end of its turn.
fn make_turn(table: &mut ConnectionTable, connection: u8, actor: u8) -> Result<(), AllocError>
    requires there { connection < length table.old }
    requires run { All Runs table.old }
    ensures made { OnOk result (Changes (TurnMade actor) connection table.old table.new) }
{
    while go(table, connection, actor)? {}
    Ok(())
}

/// The turns of its actors, one after the other.
fn make_turns(table: &mut ConnectionTable, connection: u8) -> Result<(), AllocError>
    requires there { connection < length table.old }
    requires run { All Runs table.old }
    ensures made { OnOk result (Changes TurnsMade connection table.old table.new) }
{
    let actors = table.world(connection).actors();
    for actor in 0..actors {
        make_turn(table, connection, actor)?;
    }
    Ok(())
}

/// A round: the turns of its actors, and its end.
fn make_round(table: &mut ConnectionTable, connection: u8) -> Result<(), AllocError>
    requires there { connection < length table.old }
    requires run { All Runs table.old }
    ensures made { OnOk result (Changes RoundMade connection table.old table.new) }
{
    make_turns(table, connection)?;
    table.end_round(connection);
    Ok(())
}

/// A round where the connection goes on.
fn go_on(table: &mut ConnectionTable, connection: u8) -> Result<(), AllocError>
    requires there { connection < length table.old }
    requires run { All Runs table.old }
    ensures made { OnOk result (Changes (Made RoundIfGoing) connection table.old table.new) }
{
    if table.world(connection).goes_on() {
        make_round(table, connection)
    } else {
        Ok(())
    }
}

/// The first round of each connection, numbers rising.
fn begin_each(table: &mut ConnectionTable) -> Result<(), AllocError>
    requires { All Runs table.old }
    ensures made { OnOk result (EachRound (RoundTo octets) table.old table.new) }
    ensures run { OnOk result (All Runs table.new) }
{
    for connection in 0..table.len() {
        make_round(table, connection)?;
    }
    Ok(())
}

/// A round of each connection that goes on, numbers rising.
fn go_on_each(table: &mut ConnectionTable) -> Result<(), AllocError>
    requires { All Runs table.old }
    ensures made { OnOk result (EachRound RoundIfGoing table.old table.new) }
    ensures run { OnOk result (All Runs table.new) }
{
    for connection in 0..table.len() {
        go_on(table, connection)?;
    }
    Ok(())
}

/// At most so many serial rounds of each connection that has made no turn, up to the first round behind which it doesn't go on. Each
/// step is one of the table.
pub(crate) fn make_rounds(table: &mut ConnectionTable, most: u32) -> Result<(), AllocError>
    requires some { 1 ≤ most }
    requires run { All Runs table.old }
    ensures made { OnOk result (EachRound (IsSerialEnd most) table.old table.new) }
{
    begin_each(table)?;
    for _round in 1..most {
        go_on_each(table)?;
    }
    Ok(())
}
