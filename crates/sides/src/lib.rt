//! The two sides of a connection, and the objects that its actors make their steps on.
#![tactic(auto)]

mod object;
mod side;

pub use object::Object;
pub use side::Side;
