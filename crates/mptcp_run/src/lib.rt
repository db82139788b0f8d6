//! The top call: from the words of a command line to what the two readers read and the log of the run, of bytes or of messages.
#![tactic(auto)]

mod enough;
mod laws;
mod messages;
mod outcome;
mod replay;
mod report;
mod rounds;
mod schedule;
mod scheduled;
mod telling;
mod threads;
mod top_call;
mod turns;

pub use enough::rounds_enough;
pub use laws::{
    clean_runs_deliver, enough_runs_deliver, few_runs_deliver, loaded_tasks_are_plain,
    logs_tell_their_runs, plain_runs_keep_their_word, runs_keep_their_promises,
    valid_inputs_are_run,
};
pub use messages::run_messages;
pub use run_outside::{Named, ScriptKind, Status, fault_text};
pub use telling::tell_enough;
pub use top_call::run;
