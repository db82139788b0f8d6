//! The trace of a run: each segment as its end handed it to its link, with its tick and what becomes of it there, in the order of
//! the steps that a log tells; and what the ends measure as its rounds end.
#![tactic(auto)]

mod initials;
mod laws;
mod making;
mod next;
mod progress;
mod rates;

pub use initials::initials_in;
pub use laws::{each_path_has_its_rates, sent_lines_tell_the_trace, ticks_rise_by_path};
pub use link_trace::Sent;
pub use making::{Gathered, TraceFault, gather};
pub use next::sent_next;
pub use progress::Progress;
pub use rates::rates_of;
