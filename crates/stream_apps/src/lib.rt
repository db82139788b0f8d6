//! The two applications of a connection: each writes its file into its side's send book, says that it writes no more, and
//! reads from its side's reassembly book what has come.
#![tactic(auto)]

mod acting;
mod app;
mod duty;
mod laws;
mod starting;

pub use app::App;
pub use duty::AppDuty;
pub use laws::{
    applications_ask_what_can_be_asked, every_app_turn_ends, fast_closes_are_on_time,
    first_app_turns, turn_with_a_fast_close,
};
