//! The line of a connection.

ghost use Rattle.std.specs.Prelude.{◌≡◌, ◌<◌, length, IfOk, string_bytes};
ghost use Rattle.world_core.specs.Logged.{told_outcome};
ghost use Rattle.sides.specs.declared.side.Side.TheVariants.{A, B};
ghost use Rattle.run_log.specs.Lines.{outcome_word};
ghost use Rattle.world_laws.specs.Outcomes.{outcome_of, output_of};
ghost use Rattle.connection_table.specs.ManyLines.{connection_line, line_at, shown};

use crate::table::ConnectionTable;
use std::alloc::{AllocError, Global};
use world_core::{World, read_since, told_outcome};

/// Octets in hexadecimal digits, or `-` for none.
fn shown(alloc: Global, octets: &[u8]) -> Result<String, AllocError>
    ensures { IfOk result (λ text. string_bytes text ≡ shown octets.now) }
{
    if octets.is_empty() {
        return String::from_str(alloc, "-");
    }
    hex::encode(alloc, octets)
}

/// What B has read.
fn read_by_b(alloc: Global, world: &World) -> Result<String, AllocError>
    ensures { IfOk result (λ text. string_bytes text ≡ shown (output_of B world.now.state)) }
{
    let read = read_since(alloc, world, &[], 1)?;
    shown(alloc, read.as_bytes())
}

/// What A has read.
fn read_by_a(alloc: Global, world: &World) -> Result<String, AllocError>
    ensures { IfOk result (λ text. string_bytes text ≡ shown (output_of A world.now.state)) }
{
    let read = read_since(alloc, world, &[], 0)?;
    shown(alloc, read.as_bytes())
}

/// How a connection stands, in a word.
fn word_of(world: &World) -> &'static str
    ensures { result.now ≡ outcome_word (told_outcome (outcome_of world.now.state.crew)) }
{
    told_outcome(world.outcome()).word()
}

/// The line of a connection with this number: its outcome, what B read and what A read.
#[tactic(auto, unfolding(crate::specs::ManyLines::connection_line))]
fn line_of(alloc: Global, connection: u8, world: &World) -> Result<String, AllocError>
    ensures { IfOk result (λ text. string_bytes text ≡ connection_line connection world.now.state) }
{
    let word = word_of(world);
    let b = read_by_b(alloc, world)?;
    let a = read_by_a(alloc, world)?;
    format!(in alloc; "connection {connection} {word} {b} {a}\n")
}

/// The line of a connection of a table.
pub(crate) fn line(
    alloc: Global,
    table: &ConnectionTable,
    connection: u8,
) -> Result<String, AllocError>
    requires { connection < length table.now }
    ensures { IfOk result (λ text. string_bytes text ≡ line_at connection table.now) }
{
    line_of(alloc, connection, table.world(connection))
}
