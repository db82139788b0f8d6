//! Octets in order, as a value: a text, its lines, the numbers that stand in it, and what it begins with.
#![tactic(auto)]

mod joined;
mod lines;
mod text;

pub use joined::JoinedText;
pub use lines::{are_digits, split_line};
pub use text::Text;
