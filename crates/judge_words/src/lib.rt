//! The words in which a rule of Multipath TCP that was broken is told.
#![tactic(auto)]

mod findings;
mod lines;
mod rules;

pub use findings::{put_finding, put_no_option};
pub use lines::{
    ConnectionLine, KeptLine, StrayLine, put_broke, put_connection, put_kept, put_stray,
};
pub use rules::word_of;
