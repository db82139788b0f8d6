//! Journals of books. A book is an object that is asked by calls and answers each with a reply; a stamped book keeps
//! with it every call that it was asked, who asked, what was answered, and a stamp that puts the call after all that
//! its asker and the book had seen (L. Lamport, 'Time, clocks, and the ordering of events', 1978).
//!
//! A [`Stamped`] value always is the replay of its journal from the book that it was opened with: nothing that a
//! book holds came about in another way.
#![tactic(auto)]

mod book;
mod laws;
mod stamped;

pub use book::Book;
pub use laws::{journals_begin_at_an_opening, stamps_rise};
pub use stamped::{Entry, LAST_STAMP, Pass, Refusal, Stamped, go_on, raise};
