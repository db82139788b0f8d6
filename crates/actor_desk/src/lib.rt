//! What the actors of one connection ask, what they are answered, and the six books that answer them.
//!
//! An actor makes steps: it asks a book, or does something by itself, and takes the reply. Each step is noted with the stamp
//! that puts it after all that its actor and the book had seen.
#![tactic(auto)]

mod actor;
mod ask;
mod books;
mod copies;
mod desk;
mod kept;
mod laws;
mod notes;
mod ordering;

pub use actor::{Actor, Crew};
pub use ask::{Ask, LocalStep, Note, Reply};
pub use books::Books;
pub use desk::Desk;
pub use kept::Kept;
pub use laws::{books_answer_in_kind, books_answer_within_bounds};
pub use notes::Notes;
pub use ordering::{comes_first, put_notes};
