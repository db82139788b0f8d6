//! What a path and its ends keep, apart from the rules that a path goes by: the lines of the script that are its events, the
//! pieces granted to an end, what an end keeps of the peer's stream, and which of its octets pass.
#![tactic(auto)]

mod counts;
mod granted;
mod granted_piece;
mod in_order;
mod infinite_mapping;
mod lines;
mod mapped_data_fin;
mod places;
mod receiving;

pub use counts::one_more;
pub use granted::GrantedPieces;
pub use granted_piece::GrantedPiece;
pub use in_order::{InOrder, has_its_sum, is_there, passing};
pub use infinite_mapping::{InfiniteMapping, covers, fin_place, place_under};
pub use lines::{LineAction, LineLeft, events_of};
pub use mapped_data_fin::MappedDataFin;
pub use places::PLACE_LIMIT;
pub use receiving::Receiving;
