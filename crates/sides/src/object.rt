use crate::side::Side;

/// What a step of an actor is made on: a book of one side, or the actor itself.
#[derive(Clone, Copy, PartialEq, Eq)]
pub enum Object {
    /// The bytes that a side sends.
    Send(Side),
    /// The bytes that a side receives.
    Reassembly(Side),
    /// The keys, modes and paths of a side.
    Control(Side),
    /// The actor itself, under no lock.
    Me,
}
