//! What a run puts to the port of the log: a log, or one line in its place.

ghost use Rattle.std.specs.Prelude.{◌≡◌, ◌+◌, ◌≤◌, ◌*◌, ◌^◌, length, map, sum, take, IfOk};
ghost use Rattle.world_core.specs.Logged.{told_outcome};
ghost use Rattle.world_laws.specs.Fine.{lists_of};
ghost use Rattle.run_log.specs.Lines.{ended, outcome_text};
ghost use Rattle.mptcp_run.specs.Putting.{summary_text, last_line_of};
ghost use Rattle.world_laws.specs.Outcomes.{outcome_of};
ghost use Rattle.mptcp_run.specs.Putting.{steps_made};

use crate::rounds::Run;
use octet_text::Text;
use std::alloc::{AllocError, Global};
use world_core::{World, told_outcome};

/// What the port of the log gets.
#[derive(Clone, Copy)]
pub enum Report {
    /// A log: the lines that open it, those of each round, and last the outcome.
    Log,
    /// One line, last: what came of the made input of this number.
    Summary { number: u16 },
}

/// How many steps the actors have made.
fn steps_made(world: &World) -> u128
    ensures { result ≡ steps_made world.now.state }
{
    let mut steps = 0;
    for actor in 0..world.actors() {
        steps += world.notes(actor).len() as u128;
    }
    steps
}

/// The line that tells what came of the made input of this number.
fn summary(
    alloc: Global,
    number: u16,
    rounds: u64,
    steps: u128,
    outcome: run_log::Outcome,
) -> Result<Text, AllocError>
    ensures { IfOk result (λ line. line ≡ ended (summary_text number rounds steps outcome)) }
{
    let mut text = String::new(alloc);
    writeln!(
        text,
        "bench {number} rounds {rounds} steps {steps} outcome {}",
        outcome.word(),
    )?;
    Ok(Text::from(text.into_bytes()))
}

/// The last line of a run whose rounds were made.
pub fn last_line(alloc: Global, run: &Run, report: Report) -> Result<Text, AllocError>
    ensures { IfOk result (λ line. line ≡ last_line_of report run.now.rounds run.now.world.state) }
{
    let outcome = told_outcome(run.world.outcome());
    match report {
        Report::Log => run_log::outcome_line(alloc, outcome),
        Report::Summary { number } => {
            let steps = steps_made(&run.world);
            summary(alloc, number, run.rounds, steps, outcome)
        }
    }
}
