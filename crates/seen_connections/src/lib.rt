//! Which captured segments belong together: TCP flows with MP_CAPABLE or MP_JOIN in their SYN, and the connections of Multipath TCP
//! whose subflows they are (RFC 8684, sections 3.1 and 3.2).
#![tactic(auto)]

mod asked;
mod connections;
mod ends;
mod flow;
mod flow_list;
mod known_keys;
mod options;

pub use asked::{Answer, JoinAnswer, answer_in, asked_in};
pub use connections::{Answered, Keys, Place, SeenConnections, WrongToken};
pub use ends::Ends;
pub use flow::{Belongs, Flow, Opened, Opening};
pub use flow_list::{FlowList, Found};
pub use known_keys::{KnownKey, KnownKeys};
pub use options::{SeenOption, seen_options};
