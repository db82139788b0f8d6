//! What helps with a script or a log that is refused at a line: where the line leaves its form and what stands there, what the kind of the
//! fault means, or what the log's steps are made as. Each text stands behind the words of the fault.
#![tactic(auto)]

mod log_forms;
mod log_help;
mod log_steps;
mod script_help;
mod words;

pub use log_forms::put_form_fault;
pub use log_help::{put_framed_log_help, put_log_help, put_turn_fault};
pub use script_help::put_script_help;
pub use words::{line_at, put_found};
