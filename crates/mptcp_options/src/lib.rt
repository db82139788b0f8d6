//! The options of Multipath TCP, both ways: the octets of a TCP option of kind 30 read as a value, and a value
//! written as its octets (RFC 8684, section 3). Reading takes no memory and lends what has no fixed length.
#![tactic(auto)]

mod address;
mod body;
mod capable;
mod dss;
mod fields;
mod join;
mod laws;
mod option;
mod reading;
mod signals;
mod subtype;
mod writing;

pub use capable::CapableKeys;
pub use dss::{DataNumber, DssMap};
pub use join::JoinForm;
pub use laws::{known_is_written, known_may_be_written, octets_tell_the_option, written_is_read};
pub use option::{KIND, MpOption, Read};
pub use reading::read;
pub use writing::{OptionOctets, octets_of, write};
