//! What the threads of a run pass on their way.

use sides::Object;

/// What the threads of a run pass on their way: a program's gate is open, a test's may hold some of them until
/// others have come.
pub trait Gate {
    /// An actor begins its turn, with no lock held.
    fn turn(&self, actor: u8);

    /// An actor holds the lock of an object.
    fn held(&self, actor: u8, object: Object);
}

/// A gate that holds nobody.
#[derive(Clone, Copy)]
pub struct OpenGate;

impl Gate for OpenGate {
    fn turn(&self, _actor: u8) {}

    fn held(&self, _actor: u8, _object: Object) {}
}
