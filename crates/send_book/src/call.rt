ghost use Rattle.std.specs.Prelude.{◌≡◌, IfOk};

use octet_text::Text;
use std::alloc::AllocError;

/// A range of places: `from`, and all after it below `to`.
#[derive(Clone, Copy)]
pub struct Span {
    /// The first place.
    pub from: u64,
    /// The place after the last one.
    pub to: u64,
}

/// What a send book can be asked. Paths are 0 to 15.
#[derive(Drop)]
pub enum SendCall {
    /// The application writes these bytes.
    Write {
        /// The bytes.
        bytes: Text,
    },
    /// The application writes no more.
    Close,
    /// A path asks for bytes to send.
    Grant {
        /// The path.
        path: u8,
        /// The most bytes that it takes, at least 1.
        max: u32,
        /// Whether the path is a backup of other paths.
        standby: bool,
    },
    /// The peer has acknowledged the bytes below `next`, and takes `window` bytes more. The sum is below 2^63.
    AckIn {
        /// The first place that isn't acknowledged, or one past the last byte and DATA_FIN.
        next: u64,
        /// How many bytes it takes from there on.
        window: u64,
    },
    /// A path gives back what it holds.
    Return {
        /// The path.
        path: u8,
    },
    /// The connection has fallen back to plain TCP on path 0.
    GoIdentity,
    /// A path asks to send all that isn't acknowledged under an infinite mapping.
    GoInfinite {
        /// The path.
        path: u8,
    },
    /// The connection is aborted.
    Abort,
}

/// Why no bytes are granted, the first reason that holds.
#[derive(Clone, Copy, PartialEq, Eq)]
pub enum Why {
    /// The connection is aborted, or all bytes are acknowledged and no more are written.
    Ended,
    /// The path is a backup.
    Backup,
    /// No free byte is one that the path hasn't tried, or the book was given to another path alone.
    NothingFree,
    /// The first such byte is at or past the edge of the peer's window.
    WindowShut,
}

/// What a send book answers.
#[derive(Drop)]
pub enum SendReply {
    /// How many of the offered bytes were taken.
    Taken(u64),
    /// No more bytes are taken from now on.
    Closed,
    /// The book is closed or aborted.
    Shut,
    /// Bytes that are the path's to send.
    Granted {
        /// Their places.
        span: Span,
        /// The bytes.
        piece: Text,
    },
    /// There are no bytes for the path.
    NoGrant {
        /// The reason.
        why: Why,
        /// How many bytes there are in all, where no more are written.
        end: Option<u64>,
    },
    /// The acknowledgement was taken.
    Acked {
        /// How many bytes were acknowledged by it.
        bytes: u64,
        /// Whether DATA_FIN is acknowledged.
        fin: bool,
    },
    /// More was acknowledged than was written.
    AckFuture {
        /// How many bytes were written.
        written: u64,
    },
    /// The path held so many bytes.
    Returned(u64),
    /// The call was noted.
    Noted,
    /// The path alone sends, from this place on.
    Infinite {
        /// The first byte that isn't acknowledged.
        from: u64,
    },
    /// The book was given to a path alone before, or the bytes that aren't acknowledged are not those that this path
    /// tried and then those that no path tried.
    Scattered,
}

impl SendReply {
    /// An equal reply. Bytes that are granted are shared with it where they are shared, and else copied.
    pub fn copy(&self) -> Result<Self, AllocError>
        ensures { IfOk result (λ copy. copy ≡ self.now) }
    {
        Ok(match self {
            SendReply::Taken(count) => SendReply::Taken(*count),
            SendReply::Closed => SendReply::Closed,
            SendReply::Shut => SendReply::Shut,
            SendReply::Granted { span, piece } => SendReply::Granted {
                span: *span,
                piece: piece.copy()?,
            },
            SendReply::NoGrant { why, end } => SendReply::NoGrant {
                why: *why,
                end: *end,
            },
            SendReply::Acked { bytes, fin } => SendReply::Acked {
                bytes: *bytes,
                fin: *fin,
            },
            SendReply::AckFuture { written } => SendReply::AckFuture { written: *written },
            SendReply::Returned(count) => SendReply::Returned(*count),
            SendReply::Noted => SendReply::Noted,
            SendReply::Infinite { from } => SendReply::Infinite { from: *from },
            SendReply::Scattered => SendReply::Scattered,
        })
    }
}
