//! What a segment that arrives means for an end, and what the end answers.
ghost use Rattle.std.specs.Prelude.{◌≡◌};
ghost use Rattle.subflow_tcp.specs.Taking.{with_new};

use seq_units::Pos;
use subflow_send::AckKind;

/// What a segment that arrives means for the end, by the first rule that fits.
#[derive(Clone, Copy)]
pub enum Meaning {
    /// The end passes it over.
    Ignored,
    /// A segment for a dead end, which answers by a reset.
    Unwanted,
    /// A SYN opens the listening end.
    Opens,
    /// A SYN/ACK acknowledges the SYN of the opening end.
    Accepts {
        /// The position that it acknowledges.
        acknowledged: Pos,
    },
    /// The SYN that opened the end came again.
    RepeatedSyn,
    /// A segment outside the receive window.
    Outside,
    /// A reset that ends the end.
    Kills,
    /// A reset or a SYN that only looks like the peer's (RFC 5961).
    Challenged,
    /// A segment in the window that acknowledges nothing, or not yet the SYN/ACK.
    Unacknowledging,
    /// A segment that acknowledges what was never sent.
    Ahead,
    /// Its acknowledgement and its payload count.
    Taken {
        /// Its first position.
        position: Pos,
        /// The position that it acknowledges.
        acknowledged: Pos,
    },
}

/// What an end answers to a segment that arrived.
#[derive(Clone, Copy, Debug)]
pub enum Arrival {
    /// The segment was dropped without an acknowledgement.
    Dropped,
    /// The segment was dropped, and an acknowledgement is due; for the SYN that came again, and at a half-open end, that is the
    /// SYN/ACK.
    AckNow,
    /// The segment was dropped, and a challenge is due: an acknowledgement.
    Challenge,
    /// A reset ended the end.
    Killed,
    /// The end left Listen, SynSent or SynReceived by it.
    Opened,
    /// The segment was taken.
    Took {
        /// What its acknowledgement told.
        ack: AckKind,
        /// How many of its octets were kept that were not kept before, at most 65,535.
        new: u32,
        /// Whether it has a FIN.
        fin: bool,
    },
}

impl Arrival {
    /// The arrival with so many new octets, where the segment was taken.
    pub(crate) fn with_new(self, new: u32) -> Arrival
        ensures { result ≡ with_new new self }
    {
        match self {
            Arrival::Took { ack, fin, .. } => Arrival::Took { ack, new, fin },
            other => other,
        }
    }
}

/// What an expiry of the timer came to.
#[derive(Clone, Copy, Debug)]
pub enum Fired {
    /// The first record is to be sent again.
    Again,
    /// No record is unacknowledged: the layer above sends what it owes, or a probe.
    Probe,
    /// The expiry was the sixth in a row: the end is dead, and its reset is due.
    Died,
}
