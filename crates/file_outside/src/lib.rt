//! The real outside of the program: files by their names, and standard output. It is the trusted edge: it tells contracts nothing
//! of what it holds.
#![tactic(auto)]

mod files;

pub use files::{FileOutside, SystemFault};
