//! Equal copies of what is asked, answered and noted.
ghost use Rattle.std.specs.Prelude.{◌≡◌, IfOk};

use crate::ask::{Ask, Note, Reply};
use reassembly_book::ReassemblyBook;
use send_book::SendBook;
use stamped_book::Book;
use std::alloc::AllocError;

impl Ask {
    /// An equal ask. It takes memory only for bytes that are written or placed.
    pub fn copy(&self) -> Result<Ask, AllocError>
        ensures { IfOk result (λ copy. copy ≡ self.now) }
    {
        match self {
            Ask::Send(side, call) => Ok(Ask::Send(*side, SendBook::copy(call)?)),
            Ask::Reassembly(side, call) => Ok(Ask::Reassembly(*side, ReassemblyBook::copy(call)?)),
            Ask::Control(side, call) => Ok(Ask::Control(*side, *call)),
            Ask::Local(step) => Ok(Ask::Local(*step)),
        }
    }
}

impl Reply {
    /// An equal reply. It takes memory only for bytes that are granted or read, and for rows.
    pub fn copy(&self) -> Result<Reply, AllocError>
        ensures { IfOk result (λ copy. copy ≡ self.now) }
    {
        match self {
            Reply::Send(reply) => Ok(Reply::Send(reply.copy()?)),
            Reply::Reassembly(reply) => Ok(Reply::Reassembly(reply.copy()?)),
            Reply::Control(reply) => Ok(Reply::Control(reply.copy()?)),
            Reply::Done => Ok(Reply::Done),
        }
    }
}

impl Note {
    /// An equal note. It takes memory only for the bytes of its ask and of its reply.
    pub fn copy(&self) -> Result<Note, AllocError>
        ensures { IfOk result (λ copy. copy ≡ self.now) }
    {
        Ok(Note {
            stamp: self.stamp,
            seen: self.seen,
            actor: self.actor,
            ask: self.ask.copy()?,
            reply: self.reply.copy()?,
        })
    }
}
