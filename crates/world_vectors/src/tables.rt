//! Calls of a table of connections: `table CALL ..`, each call a word with `:` between its fields.
//!
//! `admit:SEED:PATHS` admits a connection of so many paths, each of which joins at tick 100 but the first, with 20,000 octets each way;
//! `admits:FROM:TO` does so for each of these seeds, with one path. `route:SOURCE:DESTINATION:OCTETS` asks where octets go that came
//! between these addresses, all in hexadecimal digits. `rounds:CONNECTION:COUNT` makes serial rounds of a connection by `step` and
//! `end_round`, and shows where each segment goes that comes to B and asks to join, which seed the connection has, and how many
//! rounds its list of turns has.

ghost use Rattle.std.specs.Prelude.{IfOk};
ghost use Rattle.link_script.specs.Scripts.{HasRanges};

use crate::inputs::input_of;
use case_fields::{Case, CaseFault};
use connection_table::{AdmitFault, ConnectionTable, Route};
use run_log::Turn;
use run_outside::Input;
use segment_wire::Addresses;
use sides::Side;
use std::alloc::{AllocError, Global};
use world_core::Stepped;

/// The most steps that a turn is given.
const MOST_STEPS: u32 = 10_000;

/// Puts the answers to the calls of a line.
pub fn table(case: &mut Case, line: &str) {
    let mut table = ConnectionTable::new(case.alloc);
    case.put(line);
    case.put("\n ");
    for call in case.rest().split(' ') {
        case.read(call, ":");
        put_call(case, &mut table);
    }
    table.close();
}

/// One call.
fn put_call(case: &mut Case, table: &mut ConnectionTable) {
    match case.word() {
        "admit" => {
            let (seed, paths) = (case.number(), case.number());
            admit(case, table, seed, paths);
        }
        "admits" => admit_each(case, table),
        "rounds" => rounds(case, table),
        "route" => route(case, table),
        _ => case.refuse(),
    }
}

/// A script with this seed and so many paths, its lines between `;`.
fn script_text(alloc: Global, seed: u64, paths: u8) -> Result<String, AllocError> {
    let mut text = format!(in alloc; "mptcp-script 1;seed {seed};path 0 mss 1000 delay 10")?;
    for path in 1..paths {
        let line = format!(in alloc; ";path {path} mss 1000 delay 10 join 100")?;
        text.push_str(line.as_str())?;
    }
    text.push_str(";end")?;
    Ok(text)
}

/// What such a connection begins with.
fn input_with(alloc: Global, seed: u64, paths: u8) -> Result<Input, CaseFault>
    ensures { IfOk result (λ input. HasRanges input.script) }
{
    let text = script_text(alloc, seed, paths)?;
    let file_a = vec![in alloc; 120; 20_000]?;
    let file_b = vec![in alloc; 120; 20_000]?;
    input_of(alloc, text.as_str(), file_a, file_b)
}

/// Admits a connection, and shows its number, or why it isn't.
fn admit(case: &mut Case, table: &mut ConnectionTable, seed: u64, paths: u8) {
    case.put(" ");
    match input_with(case.alloc, seed, paths) {
        Ok(input) => put_admitted(case, table.admit(&input)),
        Err(_) => case.fail(),
    }
}

fn put_admitted(case: &mut Case, admitted: Result<u8, AdmitFault>) {
    match admitted {
        Ok(number) => case.say(&number),
        Err(AdmitFault::Full) => case.put("full"),
        Err(AdmitFault::SameToken { holder }) => {
            case.say_behind("same:", &holder);
        }
        Err(AdmitFault::Memory) => case.fail(),
    }
}

/// Admits a connection for each of these seeds.
fn admit_each(case: &mut Case, table: &mut ConnectionTable) {
    let (from, to): (u64, u64) = (case.number(), case.number());
    for seed in from..=to {
        admit(case, table, seed, 1);
    }
}

/// Shows where a segment goes.
fn put_route(case: &mut Case, route: Route) {
    match route {
        Route::To(home) => {
            case.say_behind(" to:", &home);
        }
        Route::Unknown { token } => {
            case.say_behind(" unknown:", &token);
        }
        Route::NotJoin => case.put(" not-join"),
    }
}

/// Shows where octets go.
fn route(case: &mut Case, table: &ConnectionTable) {
    let addresses = Addresses {
        source: case.four(),
        destination: case.four(),
    };
    let octets = case.octets();
    put_route(case, table.route(&octets, &addresses));
}

/// Shows where the segment goes that comes to B by the actor's next step, if one comes that asks to join.
fn put_join(case: &mut Case, table: &ConnectionTable, connection: u8, actor: u8) {
    if connection >= table.len() {
        return case.refuse();
    }
    match table.world(connection).arriving(actor) {
        Some(arriving) if arriving.to == Side::B => {
            match table.route(arriving.octets, &arriving.addresses) {
                Route::NotJoin => {}
                route => put_route(case, route),
            }
        }
        _ => {}
    }
}

/// Whether a step was made.
fn is_made(stepped: &Stepped) -> bool {
    matches!(stepped, Stepped::Made(_))
}

/// Makes a step, and answers whether the turn hadn't ended.
fn step(case: &mut Case, table: &mut ConnectionTable, connection: u8, actor: u8) -> bool {
    if connection >= table.len() {
        case.refuse();
        return false;
    }
    match table.step(connection, actor) {
        Ok(stepped) => is_made(&stepped),
        Err(_) => {
            case.fail();
            false
        }
    }
}

/// The steps of an actor, up to the end of its turn.
fn turn(case: &mut Case, table: &mut ConnectionTable, connection: u8, actor: u8) {
    for _ in 0..MOST_STEPS {
        put_join(case, table, connection, actor);
        if !step(case, table, connection, actor) {
            return;
        }
    }
}

/// A serial round of a connection.
fn round(case: &mut Case, table: &mut ConnectionTable, connection: u8) {
    if connection >= table.len() {
        return case.refuse();
    }
    let actors = table.world(connection).actors();
    for actor in 0..actors {
        turn(case, table, connection, actor);
    }
    if connection >= table.len() || !table.end_round(connection) {
        case.refuse();
    }
}

/// Shows the seed of a connection, and how many rounds its list of turns has.
fn put_turns(case: &mut Case, table: &ConnectionTable, connection: u8) {
    if connection >= table.len() {
        return case.refuse();
    }
    let turns = table.turns(connection);
    let rounds = turns
        .iter()
        .filter(|turn| matches!(turn, Turn::Round))
        .count();
    case.say_behind(" seed:", &table.input(connection).script.seed);
    case.say_behind(" rounds:", &rounds);
}

/// Serial rounds of a connection.
fn rounds(case: &mut Case, table: &mut ConnectionTable) {
    let connection: u8 = case.number();
    let count: u16 = case.number();
    for _ in 0..count {
        round(case, table, connection);
    }
    put_turns(case, table, connection);
}
