//! How a connection closes: the data number of the DATA_FIN, when a path may send its subflow's FIN, and the options that
//! end a path and the whole connection (RFC 8684, sections 3.3.3, 3.5 and 3.6).
//!
//! Nothing here takes memory.
#![tactic(auto)]

mod close_state;
mod fin;
mod saying;

pub use close_state::CloseState;
pub use fin::fin_number;
pub use saying::{fast_close_option, reset_option};
