//! The outcome of a run as a log tells it.

ghost use Rattle.std.specs.Prelude.{◌≡◌};
ghost use Rattle.world_core.specs.Logged.{told_outcome};

use world_laws::Outcome;

/// The outcome as a log tells it: a run that still goes ends with its rounds.
pub fn told_outcome(outcome: Outcome) -> run_log::Outcome
    ensures { result ≡ told_outcome outcome }
{
    match outcome {
        Outcome::Going => run_log::Outcome::Rounds,
        Outcome::Delivered => run_log::Outcome::Delivered,
        Outcome::Aborted(_) => run_log::Outcome::Aborted,
        Outcome::NoPath => run_log::Outcome::NoPath,
    }
}
