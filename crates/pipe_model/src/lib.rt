//! One direction of a connection by what it means: a list of bytes that one side writes, and how far the other
//! side has read it, acknowledged it and been told its end. There are no segments, numbers or copies here: the
//! protocol's steps are right where each of them is one step of a pipe, or none.
#![tactic(auto)]

mod laws;
mod pipe;

pub use laws::{acknowledged_was_received, end_is_told_at_the_whole, read_is_a_prefix};
pub use pipe::{Pipe, PipeFault, PipeStep, pipe_step};
