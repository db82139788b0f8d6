//! The world of one connection: two applications and its paths, the six books with their journals, and what each step and each
//! end of a round makes of them.
//!
//! Definitions, and laws over every order of steps; no code. They are polymorphic in what the links of the paths carry.
//!
//! The folders of `proofs/` say which law stands where. `Lanes` shows a world on the lanes of its paths, step by step; from that
//! `Promises` has the laws on what is read, acknowledged and told, `Places` those on mappings and grants, `Falls` those on sides
//! that fall back, `Whole` that on connections whose options all arrive. `Keys` and `Joins` have those on keys, tokens and HMACs,
//! `Announcements` those on addresses, `Standby` that on backups, `Numbers` those over octets, `Rounds` those on serial turns and
//! on what is done by a round's end, `Weaving` that on woven rounds. `Asks`, `Worlds` and `Writes`, which has what a duty of a
//! path may write and ask, serve all of them.
#![tactic(auto)]

mod laws;
mod member;
mod outcome;

pub use laws::{
    aborted_readers_hear_that_alone, aborts_have_a_cause, addresses_are_right, announcements_end,
    backups_get_nothing, both_sides_keep_their_word, bytes_are_granted_once,
    checked_octets_are_right, checks_pass, counts_are_kept_whatever_is_altered,
    each_round_has_a_step, each_turn_is_one_pipe_step_or_none, files_are_written, grants_are_done,
    infinite_mappings_are_right, joins_are_right, joins_wait_for_their_answer, keys_never_differ,
    mappings_agree, nothing_due_is_left, nothing_follows_the_end, nothing_is_refused,
    octets_do_as_values, paths_ask_for_all, plain_scripts_keep_all_promises, readers_are_done,
    readers_catch_up, rounds_are_done, rounds_end_on_time, scripts_can_run,
    scripts_keep_promises_whatever_is_altered, serial_exists, serial_is_one,
    short_numbers_are_low_halves, sides_never_fall, turns_are_fresh, what_is_fine_stays_fine,
    woven_rounds_do_the_same,
};
pub use member::Member;
pub use outcome::Outcome;
