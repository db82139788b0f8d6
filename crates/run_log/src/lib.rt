//! The log of a run: a text that tells each step of each actor, round by round, and how the run ended.
//!
//! `line` and its kin write the lines of a log. `read_log` reads the turns of a log, or tells the first line that is
//! refused. Both go by one definition of a log's text. Nothing is run here.
#![tactic(auto)]

mod control_call;
mod control_reply;
mod fault;
mod field;
mod form;
mod laws;
mod local;
mod name;
mod number;
mod outcome;
mod reading;
mod reassembly;
mod send;
mod turn;
mod writing;

pub use fault::LogFault;
pub use laws::{a_line_tells_its_note, a_log_reads_to_its_turns, the_first_refused_line_is_told};
pub use outcome::Outcome;
pub use reading::read_log;
pub use turn::Turn;
pub use writing::{line, opening, outcome_line, round_line, round_lines};
