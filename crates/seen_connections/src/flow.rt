//! A TCP flow whose SYN asks for Multipath TCP.

ghost use Rattle.std.specs.Prelude.{◌≡◌, ℕ, ◌+◌, ◌-◌, ◌%◌, ◌^◌, ◌<◌, ◌≤◌};
ghost use Rattle.capture_reader.specs.Seen.{as_seen};
ghost use Rattle.seen_connections.specs.Flows.{begun, counted, is_again, is_stray, is_acknowledged_by};

use capture_reader::{End, SeenSegment};
use sides::Side;

/// What the SYN of a flow asks for.
#[derive(Clone, Copy)]
pub enum Opening {
    /// MP_CAPABLE of 4 octets: a connection, with checksums where flag A is set.
    Capable { checksums: bool },
    /// MP_JOIN of 12 octets: a further subflow of the connection one of whose keys has the token.
    Join { token: u32, nonce: u32 },
}

/// The subflow's connection, and which of its sides opened the subflow.
#[derive(Clone, Copy)]
pub struct Belongs {
    pub connection: usize,
    pub opener: Side,
}

/// What the SYN/ACK told that opened a flow.
#[derive(Clone, Copy)]
pub struct Opened {
    /// The number of the opener's position 0.
    pub opener_base: u32,
    /// The number of the other end's position 0.
    pub other_base: u32,
    /// The nonce of its MP_JOIN, 0 without one.
    pub nonce: u32,
}

/// A flow.
#[derive(Clone, Copy)]
pub struct Flow {
    pub opener: End,
    pub other: End,
    /// The packet of its SYN, counted from 1 in the capture.
    pub first: u32,
    /// The number of its SYN.
    pub number: u32,
    pub opening: Opening,
    /// How many octets of payload its SYN had.
    pub syn_octets: usize,
    /// Its connection, where it is known: that of a join from the SYN on.
    pub belongs: Option<Belongs>,
    /// What opened it, if its SYN was answered.
    pub opened: Option<Opened>,
    /// How many packets it has, its SYN included.
    pub packets: u32,
    /// How many of them are cut.
    pub cut: u32,
    /// How many of them have a wrong TCP sum.
    pub wrong_sums: u32,
    /// Whether the other end reset it.
    pub was_reset: bool,
    /// Whether a SYN between its ends, which asked for nothing, has ended it.
    pub is_over: bool,
}

impl Flow {
    /// The flow that a SYN of a packet begins.
    pub(crate) fn begun(
        packet: u32,
        seen: &SeenSegment<'_>,
        opening: Opening,
        belongs: Option<Belongs>,
    ) -> Flow
        ensures { result ≡ begun packet (as_seen seen.now) opening belongs }
    {
        Flow {
            opener: seen.source,
            other: seen.destination,
            first: packet,
            number: seen.segment.head.seq,
            opening,
            syn_octets: seen.payload_len,
            belongs,
            opened: None,
            packets: 1,
            cut: u32::from(seen.is_cut),
            wrong_sums: 0,
            was_reset: false,
            is_over: false,
        }
    }

    /// Whether a SYN is that of the flow again.
    pub(crate) fn is_begun_by(&self, seen: &SeenSegment<'_>) -> bool
        ensures { result ≡ is_again (as_seen seen.now) self.now }
    {
        seen.source == self.opener && seen.segment.head.seq == self.number
    }

    /// The flow with one packet more.
    pub(crate) fn counted(&self, is_cut: bool, is_good: bool) -> Flow
        requires packets { self.now.packets < 2 ^ 32 - 1 }
        requires cut { self.now.cut ≤ self.now.packets }
        requires wrong { self.now.wrong_sums ≤ self.now.packets }
        ensures { result ≡ counted is_cut is_good self.now }
    {
        Flow {
            packets: self.packets + 1,
            cut: self.cut + u32::from(is_cut),
            wrong_sums: self.wrong_sums + u32::from(!is_good),
            ..*self
        }
    }

    /// Whether a number of an acknowledgement is behind the SYN, and at most behind its payload.
    pub(crate) fn is_acknowledged_by(&self, ack: u32) -> bool
        ensures { result ≡ is_acknowledged_by ack self.now }
    {
        ack.wrapping_sub(self.number.wrapping_add(1)) as usize <= self.syn_octets
    }

    /// Whether its SYN named a token that no key had, and no SYN/ACK showed whose subflow it is.
    pub fn is_stray(&self) -> bool
        ensures { result ≡ is_stray self.now }
    {
        match self.opening {
            Opening::Join { .. } => self.belongs.is_none(),
            Opening::Capable { .. } => false,
        }
    }
}
