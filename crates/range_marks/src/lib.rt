//! Marks by place: each place of a stream has one mark, and places with the same mark that lie side by side are kept
//! as one run. Contracts see the marks of the places; the memory holds the runs, and a call takes no longer than
//! there are runs. The crate knows nothing of what the places or the marks mean.
#![tactic(auto)]

mod kept;
mod laws;
mod mark;
mod marks;
mod run;

pub use laws::{disjoint_marks_commute, forgotten_places_stay_forgotten, last_mark_stands};
pub use mark::Mark;
pub use marks::RangeMarks;
pub use run::{Run, Runs};
