//! The link of one path: what becomes of the segments that its two ends hand to it. Each arrives after the delay of
//! the path, unless a line of the script says that it is lost, late, repeated or changed on its way, or that
//! its direction loses some at random, hands on so many octets a tick or lets them wait.
//!
//! The rules speak of what a segment carries by a type of its own, so that they are the same for octets and for
//! segments as values; the link itself carries octets. It has no clock: whoever drives it tells the tick.
#![tactic(auto)]

mod fate;
mod flight;
mod flights;
mod laws;
mod lines;
mod link;
mod passage;

pub use fate::{Fate, SegmentFate};
pub use flight::{Due, Flight};
pub use laws::{
    copies_are_in_order, copies_arrive_later, plain_links_keep_their_order, queues_have_their_room,
    queues_keep_their_order, rates_are_kept, sending_commutes_with_showing,
};
pub use link::Link;
pub use passage::{Rate, Shape, Waiting};
