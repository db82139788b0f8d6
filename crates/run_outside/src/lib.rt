//! What a run has to do with its outside: the inputs that it loads, the ports that it binds and puts to, and how it has ended.
//!
//! Each fault of the outside is the `Status` that names it. What the parts leave behind is said of the ports, the counts of
//! faults and the calls that were made, as far as the outside tells them.
#![tactic(auto)]

mod device;
mod input;
mod lines;
mod made;
mod order;
mod parting;
mod pieces;
mod readers;
mod status;
mod words;

pub use device::put;
pub use input::{Input, Logged, Replay, load_input, load_logged, load_replay};
pub use lines::logged_text;
pub use link_script::ScriptKind;
pub use made::made_input;
pub use order::{opening_count, read_order, width_of};
pub use parting::split_at_first;
pub use pieces::Piece;
pub use readers::bind_readers;
pub use status::{Named, Status, fault_text};
pub use words::{command_words, read_words};
