//! Books whose numbers stay small, whatever they are asked.
ghost use Rattle.actor_desk.specs.Bounds.{IsReceivedSmall, IsWrittenSmall};
ghost use Rattle.actor_desk.specs.Keeping.{ControlStaysRight, HasRightRows, ReassemblyStaysSmall, SendStaysSmall};

use control_book::ControlBook;
use reassembly_book::ReassemblyBook;
use send_book::SendBook;
use stamped_book::Book;

/// A book of which a fact holds that no call ends. So it may lie under a lock, where nothing but what its type says is
/// known of it.
pub trait Kept: Book {
    /// The fact.
    ghost sound: { Self → Type 0 };

    /// A law: no call ends it.
    fn stays()
        ensures { (book : Self) (call : Self.Call) → Self.can_ask call → sound book →
            sound (Self.after book call) };
}

/// No more than 2^62 - 3 octets are written.
impl Kept for SendBook {
    ghost sound = { IsWrittenSmall };

    fn stays()
        ensures { SendStaysSmall }
    {}
}

/// No place and no known end is past 2^62, and no more than 1,048,576 octets are taken past those read.
impl Kept for ReassemblyBook {
    ghost sound = { IsReceivedSmall };

    fn stays()
        ensures { ReassemblyStaysSmall }
    {}
}

/// Each row of a path that is kept can be linked (RFC 6356, section 3).
impl Kept for ControlBook {
    ghost sound = { HasRightRows };

    fn stays()
        ensures { ControlStaysRight }
    {}
}
