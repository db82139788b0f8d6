//! What was sent on the links of a run, and five views of it: a line for each segment, a capture, a table by path and direction, one
//! by 100 ticks too, a picture.
//!
//! A line has the segment in the words of tcpdump: its flags, its numbers, its window in octets, its options by name, the length of its
//! payload. Numbers of sequence are relative to those of the SYNs, as far as these are known, and data numbers to the initial ones, where
//! these are given. Options of Multipath TCP are those of RFC 8684, section 3, in the words of tcpdump's `print-mptcp.c`.
#![tactic(auto)]

mod carried;
mod drawing;
mod elements;
mod fate;
mod intervals;
mod laws;
mod marks;
mod meanings;
mod multipath;
mod numbers;
mod options;
mod packets;
mod panels;
mod places;
mod points;
mod rows;
mod segment;
mod sent;
mod shifts;
mod strokes;
mod table;
mod text;
mod ticks;
mod told;
mod windows;

pub use carried::{Base, Carried, PathInitials, all_carried};
pub use drawing::picture;
pub use intervals::rates;
pub use laws::first_octets_are_the_places;
pub use packets::capture;
pub use panels::Death;
pub use points::{arrival_tick, seen_at};
pub use rows::{Rate, Rates, Row, rows_of};
pub use sent::Sent;
pub use strokes::{Dot, Stroke, dots_of, strokes_of};
pub use table::summary;
pub use text::{InitialData, lines};
pub use ticks::put_by_tick;
pub use told::all_told;
