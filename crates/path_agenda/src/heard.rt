//! What a copy says beside its header and payload.

use crate::notice::PeerNotice;
use mptcp_options::JoinForm;

/// One of the things that the options of a copy say, by places of the streams (RFC 8684, section 3).
#[derive(Clone, Copy, Default)]
pub enum Heard {
    /// A DSS came, whatever it says.
    #[default]
    Dss,
    /// How many bytes of the hearer's stream have come in order, the DATA_FIN among them, and how many octets more are taken.
    DataAck { next: u64, window: u32 },
    /// A mapping: the next one of those that the end holds. With `fin` its last number is the DATA_FIN's (section 3.3.3).
    Mapping { fin: bool },
    /// The stream ends before this place.
    DataFin { place: u64 },
    /// An infinite mapping, whose length is 0: from this position on, where its number means one, all places from this place
    /// on (section 3.7).
    InfiniteMapping { place: u64, position: Option<u64> },
    /// The peer's key alone.
    PeerKey { key: u64 },
    /// Both keys: the hearer's own one, and the peer's.
    Keys { own: u64, peer: u64 },
    /// An MP_JOIN (section 3.2).
    Join { form: JoinForm },
    /// What the peer notes of addresses and paths.
    Notice { notice: PeerNotice },
    /// The check of a mapping of the hearer's stream failed (MP_FAIL, section 3.7).
    Fail,
    /// The peer stops the connection at once, and shows this key (MP_FASTCLOSE, section 3.5).
    FastClose { key: u64 },
}

/// The segments of the handshake that joins a path, by the form of their MP_JOIN (RFC 8684, section 3.2).
#[derive(Clone, Copy)]
pub enum JoinStep {
    /// The SYN.
    Syn,
    /// The SYN/ACK.
    Answer,
    /// The third one.
    Third,
}
