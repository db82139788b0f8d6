//! A listener with many connections: up to 64, whose B sides share it. A join finds its connection by its token (RFC 8684, section
//! 3.2): that of the first MP_JOIN of a SYN without ACK, which at every moment is that of B's key. And no connection can change another.
//!
//! `run_many` makes serial rounds of the connections of a list, and puts a line for each. The words are `LIST [--rounds N]`. The list has
//! one line `SCRIPT FILE_A FILE_B` for each connection: three names of the octets 0x21 to 0x7E, with one space between them. Lines end
//! with LF, and a last line may lack it. Each fault of the outside is the `Many` that names the line of the list.
#![tactic(auto)]

mod admitting;
mod copying;
mod inputs;
mod laws;
mod lines;
mod list;
mod list_words;
mod listed_run;
mod listed_script;
mod loading;
mod many;
mod rounds;
mod route;
mod routing;
mod slot;
mod stepping;
mod table;
mod turn_list;

pub use admitting::AdmitFault;
pub use laws::{
    asked_tokens_are_heard, connections_are_isolated, each_arrival_is_lent, joins_are_found,
    joins_ask_by_the_token, joins_find_their_connection, joins_show_the_token,
    written_joins_are_found,
};
pub use listed_run::run_many;
pub use many::Many;
pub use route::Route;
pub use table::ConnectionTable;
