//! The script of a run: the settings and paths of a connection, and what happens to its segments, paths and sides.
//!
//! A text says a script line by line. `parse` reads it, or tells the first line that is refused and why; `text` writes
//! the one text of a script. Nothing is run here.
#![tactic(auto)]

mod direction;
mod fault;
mod laws;
pub mod limits;
mod line;
mod lists;
mod number;
mod path;
mod place;
mod reading;
mod script;
mod seen;
mod segment;
mod settled;
mod tick;
mod version;
mod word;
mod writing;

pub use fault::{ScriptFault, ScriptKind};
pub use laws::{scripts_have_their_ranges, written_is_read_again};
pub use lists::{PathLines, ScriptLines};
pub use number::is_numeral;
pub use reading::parse;
pub use script::{Direction, Happens, Impairment, PathLine, Script, ScriptLine, Segment};
pub use writing::text;
