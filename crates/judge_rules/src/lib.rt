//! What the rules of Multipath TCP say of one option that was seen, given what is known of its connection (RFC 8684): whether it keeps
//! a rule, or what breaks it. Each answer is a function of its arguments, and takes no memory.
#![tactic(auto)]

mod acks;
mod broken;
mod clashes;
mod finding;
mod keys;
mod mappings;
mod numbers;

pub use acks::{AckFacts, ToldPlace, ack_place};
pub use broken::{Broken, Fault, tell};
pub use clashes::first_clash;
pub use finding::{Finding, Rule, Told, Verdict};
pub use keys::{judge_address, judge_fast_close, judge_join, judge_keys};
pub use mappings::{
    Line, Offer, fin_fault, goes_on_elsewhere, offer_of, position_near, within_fault,
};
pub use numbers::{first_number, place_near, told_number};
