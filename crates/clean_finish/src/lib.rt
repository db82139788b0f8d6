//! After how many rounds the run of a clean script has finished: one path, on which nothing happens.
//!
//! The bound, and that it is one: `pace` says after how many rounds both ends of a connection are told where its two
//! directions go on as lanes. A clean script's numbers meet what `pace` assumes, and each step of a connection by it, in whatever
//! order, is moves of two lanes. Nothing here takes memory.
#![tactic(auto)]

mod bound;
mod laws;

pub use bound::rounds_enough;
pub use laws::{
    applications_read_as_lanes_do, applications_write_as_lanes_do, books_answer_as_lanes_do,
    clean_lanes_finish, clean_links_are_lists, clean_scripts_finish, empty_files_go_on_as_lanes,
    examples_of_bounds, flights_are_small, timeouts_stay_long, timers_settle_as_in_lanes,
};
