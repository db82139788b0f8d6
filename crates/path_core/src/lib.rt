//! The paths of one connection: two ends, the link between them, and the rules that they go by. Each makes steps: it asks a book, or
//! does something by itself, and takes the reply.
//!
//! A turn of a path is an agenda of duties. The duty that stands first always comes to something: to an ask, or to a
//! segment. What the reply makes of the path is one rule a duty; then the duties that come to nothing are passed over.
//!
//! Code and definitions have a file of one name for each subject: for what an end keeps, for each section of RFC 8684, and for the path of two
//! ends. The definitions are polymorphic in what a copy on the link carries: over octets they are what the code does, over segments as values
//! the machine that theorems speak of. Each turn ends, whatever is answered.
#![tactic(auto)]

mod addresses;
mod arrival;
mod breaking;
mod data_fin;
mod deliver;
mod dss_in;
mod dss_out;
mod duties;
mod emission;
mod end;
mod events;
mod fallback;
mod fast_close;
mod handover;
mod judged;
mod laws;
mod looking;
mod modes;
mod mp_capable;
mod mp_join;
mod notices;
mod options_in;
mod options_out;
mod path;
mod profile;
mod rate;
mod said;
mod sending;
mod standing;
mod start;
mod state;
mod steps;
mod timer;
mod treated;
mod treating;
mod unnumbered;

pub use actor_desk::{Ask, LocalStep, Note, Reply};
pub use events::Event;
pub use judged::Judged;
pub use laws::{
    a_first_round, copies_say_few_things, each_segment_is_told, every_turn_ends,
    keys_are_those_of_the_handshake, octets_do_as_values, settled_turns_end,
};
pub use looking::{Arriving, Departing};
pub use modes::Modes;
pub use path::Path;
pub use path_agenda::{AskDuty, Duty, Heard, KeyPair, PeerNotice, SendDuty, SilentDuty, StepDuty};
pub use start::key_of;
