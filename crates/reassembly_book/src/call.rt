ghost use Rattle.std.specs.Prelude.{◌≡◌, IfOk};

use octet_text::{JoinedText, Text};
use std::alloc::AllocError;

/// What a reassembly book can be asked.
#[derive(Drop)]
pub enum ReassemblyCall {
    /// Bytes have arrived for the places from `at` on. `at` and their number add up to at most 2^62.
    Place {
        /// The place of the first byte.
        at: u64,
        /// The bytes.
        bytes: Text,
    },
    /// The stream ends before the place `at`, at most 2^62.
    Fin {
        /// How many bytes there are in all.
        at: u64,
    },
    /// The application takes the next bytes.
    Read {
        /// The most bytes that it takes, at least 1.
        max: u32,
    },
    /// What is to be acknowledged, and how much more is taken.
    AckOut,
    /// The connection is aborted.
    Abort {
        /// Whether the peer aborted it.
        by_peer: bool,
    },
}

/// What a reassembly book answers.
#[derive(Drop)]
pub enum ReassemblyReply {
    /// How many places were empty and have their byte now.
    Placed(u64),
    /// A byte is at or past the edge of what is taken.
    Beyond {
        /// The edge.
        edge: u64,
    },
    /// The end is known.
    FinSet,
    /// A byte and an end, or two ends, don't agree.
    FinClash {
        /// The end that is known, or the place after the last byte.
        fin: u64,
        /// The place that was told.
        at: u64,
    },
    /// The next bytes, in parts that are shared with the calls that brought them.
    Bytes(JoinedText),
    /// All bytes were read, and no more follow.
    End,
    /// The next byte has not arrived.
    NoneYet,
    /// The connection is aborted.
    Aborted {
        /// Whether the peer aborted it first.
        by_peer: bool,
    },
    /// What is to be acknowledged.
    Ack {
        /// The next place that is wanted, or one past the last byte where the end is reached.
        next: u64,
        /// How many bytes are taken from the next wanted one on.
        window: u64,
    },
    /// The call was noted.
    Noted,
}

impl ReassemblyReply {
    /// An equal reply. Bytes that are read are shared with it.
    pub fn copy(&self) -> Result<Self, AllocError>
        ensures { IfOk result (λ copy. copy ≡ self.now) }
    {
        Ok(match self {
            ReassemblyReply::Placed(count) => ReassemblyReply::Placed(*count),
            ReassemblyReply::Beyond { edge } => ReassemblyReply::Beyond { edge: *edge },
            ReassemblyReply::FinSet => ReassemblyReply::FinSet,
            ReassemblyReply::FinClash { fin, at } => ReassemblyReply::FinClash {
                fin: *fin,
                at: *at,
            },
            ReassemblyReply::Bytes(bytes) => ReassemblyReply::Bytes(bytes.copy()?),
            ReassemblyReply::End => ReassemblyReply::End,
            ReassemblyReply::NoneYet => ReassemblyReply::NoneYet,
            ReassemblyReply::Aborted { by_peer } => ReassemblyReply::Aborted { by_peer: *by_peer },
            ReassemblyReply::Ack { next, window } => ReassemblyReply::Ack {
                next: *next,
                window: *window,
            },
            ReassemblyReply::Noted => ReassemblyReply::Noted,
        })
    }
}
