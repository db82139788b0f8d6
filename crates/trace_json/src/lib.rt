//! A run as one JSON object, and as one page that shows it.
//!
//! Ticks are milliseconds from the beginning of the run, lengths are octets. What may have 64 bits, and each token, nonce, HMAC and
//! checksum, is a string of `0x` and hexadecimal digits, since a program that reads numbers as doubles would lose the low ones. An object
//! has its members in the order of their names.
#![tactic(auto)]

mod events;
mod fields;
mod laws;
mod multipath;
mod options;
mod page_head;
mod page_script;
mod paging;
mod script;
mod segments;
mod totals;
mod whole;

pub use laws::{json_in_html_has_no_tag, json_in_html_reads_alike};
pub use paging::page;
pub use whole::{Told, json};
