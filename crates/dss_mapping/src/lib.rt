//! The data sequence mappings of one direction of a subflow: which place of the data stream each position of the subflow
//! has, by the mappings that were learned and by an infinite one (RFC 8684, section 3.3.1). The crate knows nothing of
//! the octets; positions of the subflow are counted as `seq_units` counts them, places of the data stream from 0.
#![tactic(auto)]

mod kept;
mod laws;
mod learn;
mod live;
mod mappings;
mod ordered;
mod run;
mod stretch;

pub use kept::KeptMapping;
pub use laws::{forgetting_keeps_the_rest, learning_gives_places, one_record_never_clashes};
pub use learn::Learn;
pub use mappings::Mappings;
pub use run::Run;
