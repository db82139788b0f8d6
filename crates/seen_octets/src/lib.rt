//! Octets of a sequence that is seen in parts, in any order: of each place the octet that was held first, and which places were seen.
#![tactic(auto)]

mod octet;
mod octets;
mod places;

pub use octet::{Octet, OtherOctet};
pub use octets::SeenOctets;
pub use places::{SeenPlaces, Stretch};
