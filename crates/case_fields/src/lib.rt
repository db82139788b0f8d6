//! A case as the programs take it that print what the calls of other crates answer: a line of fields, read one after the other, and
//! what is answered; and a run that a case tells, with an outside that notes its calls.
#![tactic(auto)]

mod case;
mod fails;
mod fields;
mod files;
mod listed;
mod meet;
mod meeting;
mod order;
mod recorder;
mod report;
mod task;

pub use case::{Case, kept_line};
pub use fails::failing;
pub use fields::{CaseFault, digits, octets_of};
pub use files::{content, lines_in, with_line_ends};
pub use listed::{files_of, words_of};
pub use meeting::{CountingGate, gate_of, put_meeting};
pub use recorder::Recorder;
pub use report::{put_log, put_port, put_report};
pub use task::{Shown, Task};
