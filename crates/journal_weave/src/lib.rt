//! What workers did in a round, in one order: the notes of all actors by stamp, then actor, where each call at a book stands in
//! the book's journal too; and a round by threads with its order.
#![tactic(auto)]

mod journals;
mod laws;
mod ordering;
mod rounds;
mod weaving;

pub use laws::woven_orders_do_the_same;
pub use rounds::woven_round;
pub use weaving::weave;
