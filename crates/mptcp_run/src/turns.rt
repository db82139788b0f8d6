//! Which turns a run takes.

ghost use Rattle.std.specs.Prelude.{◌≡◌};
ghost use Rattle.mptcp_run.specs.Taken.{report_in};

use crate::report::Report;
use crate::schedule::Schedule;
use run_outside::Replay;

/// Which turns a run takes.
#[derive(Drop)]
pub enum Turns<'a> {
    /// The turns of a schedule, of at most so many rounds.
    Scheduled {
        schedule: Schedule,
        rounds: u32,
        report: Report,
    },
    /// The turns of a log; the run keeps a log itself.
    Logged(&'a Replay),
}

impl Turns<'_> {
    /// What the port of the log gets.
    pub fn report(&self) -> Report
        ensures { result ≡ report_in self.now }
    {
        match self {
            Turns::Scheduled { report, .. } => *report,
            Turns::Logged(_) => Report::Log,
        }
    }
}
