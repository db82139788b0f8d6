//! Of each place the image that was told first, run by run.
#![tactic(auto)]

mod kept;
mod run;
mod runs;

pub use run::Run;
pub use runs::FirstRuns;
