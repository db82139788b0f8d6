//! The words of a command line: which mode of work they ask for, and the names of what is read and written.
//!
//! The line form is
//! `--mode run|serial|timed|replay|bench SCRIPT FILE_A FILE_B READ_BY_B READ_BY_A [--rounds N] [--order LOG] [--number N]`.
//! Its options stand in any order before, between or after the five names. `clap` takes the words apart; what a value
//! may be is checked here.
#![tactic(auto)]

mod command_line;
mod fault;
mod form;
mod number;
mod reading;

pub use command_line::{CommandLine, Mode};
pub use fault::WordsFault;
pub use number::read_number;
pub use reading::read;
