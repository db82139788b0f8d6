ghost use Rattle.std.specs.Prelude.{◌≡◌};

/// How a side uses Multipath TCP.
#[derive(Clone, Copy, Debug, PartialEq, Eq)]
pub enum Mode {
    /// The side asks for Multipath TCP, and does not know yet that the peer and all on the way speak it.
    Starting,
    /// The side knows that the peer speaks Multipath TCP: a mapping or a DATA_FIN of the peer was accepted, or a Data ACK that
    /// covers a byte or the DATA_FIN.
    Sure,
    /// The side fell back to plain TCP on its only path: each place of the data stream is that of the subflow (RFC 8684, section
    /// 3.7).
    Identity,
    /// The side sends under an infinite mapping, after the peer's MP_FAIL.
    InfiniteSend,
    /// The side receives under the peer's infinite mapping, after its own MP_FAIL.
    InfiniteReceive,
    /// Both.
    InfiniteBoth,
    /// The connection was ended at once, by this side or the peer (RFC 8684, section 3.5).
    Aborted,
}

impl Mode {
    ghost use Rattle.fallback_state.specs.Modes.{is_starting, is_identity, reads_mappings, writes_mappings, with_infinite_receive, with_infinite_send};

    /// Whether the side doesn't know yet that the peer and all on the way use Multipath TCP.
    pub fn is_starting(self) -> bool
        ensures { result ≡ is_starting self }
    {
        matches!(self, Mode::Starting)
    }

    pub(crate) fn is_identity(self) -> bool
        ensures { result ≡ is_identity self }
    {
        matches!(self, Mode::Identity)
    }

    /// Whether the peer's mappings count.
    pub fn reads_mappings(self) -> bool
        ensures { result ≡ reads_mappings self }
    {
        matches!(self, Mode::Starting | Mode::Sure | Mode::InfiniteSend)
    }

    /// Whether the side's own mappings count.
    pub fn writes_mappings(self) -> bool
        ensures { result ≡ writes_mappings self }
    {
        matches!(self, Mode::Starting | Mode::Sure | Mode::InfiniteReceive)
    }

    /// The mode with the peer's infinite mapping in it.
    pub(crate) fn with_infinite_receive(self) -> Mode
        ensures { result ≡ with_infinite_receive self }
    {
        match self {
            Mode::InfiniteSend | Mode::InfiniteBoth => Mode::InfiniteBoth,
            _ => Mode::InfiniteReceive,
        }
    }

    /// The mode with the side's own infinite mapping in it.
    pub(crate) fn with_infinite_send(self) -> Mode
        ensures { result ≡ with_infinite_send self }
    {
        match self {
            Mode::InfiniteReceive | Mode::InfiniteBoth => Mode::InfiniteBoth,
            _ => Mode::InfiniteSend,
        }
    }
}

/// What happens to a side on one of its paths.
#[derive(Clone, Copy, Debug)]
pub enum Event {
    /// A SYN, a SYN/ACK or the first ACK of path 0 came without the option that the handshake needs.
    PlainHandshake,
    /// Payload that holds the next expected byte came without any option of Multipath TCP.
    PlainData,
    /// A subflow ACK covers a new byte of data, and carries no Data ACK.
    PlainAck,
    /// A segment carries both keys, the second one being the side's own.
    KeysHeard,
    /// A mapping or a DATA_FIN of the peer was accepted.
    MappingHeard,
    /// A Data ACK covers a byte or the DATA_FIN of the side.
    AckHeard,
    /// An infinite mapping came.
    InfiniteHeard,
    /// The checksum of a mapping is wrong.
    CheckFailed,
    /// An MP_FAIL came; the data that the peer has not acknowledged is contiguous on its path, or it is not.
    FailHeard { contiguous: bool },
    /// A fast close, by this side or the peer.
    Stop,
}

/// What the side does about an event.
#[derive(Clone, Copy, Debug)]
pub enum Verdict {
    /// Nothing.
    Stay,
    /// The side is in this mode from now on.
    Went(Mode),
    /// The side tells the failed checksum by MP_FAIL on the path.
    SendFail,
    /// The side breaks the path by a reset with MP_TCPRST and this reason (RFC 8684, section 3.6).
    BreakPath(u8),
}

/// Where a side stands.
#[derive(Clone, Copy)]
pub struct Fall {
    /// How it uses Multipath TCP.
    pub mode: Mode,
    /// Both keys came with its own as the second: the peer knows it.
    pub confirmed: bool,
    /// The side began or answered a join.
    pub joined: bool,
    /// The path on which a checksum was wrong while that path was the sole one.
    pub failed: Option<u8>,
}

impl Fall {
    ghost use Rattle.fallback_state.specs.Fall.{opening};
    ghost use Rattle.fallback_state.specs.Table.{is_failed_path};

    /// Where a side stands when its connection opens.
    pub fn opening() -> Self
        ensures { result ≡ opening }
    {
        Fall {
            mode: Mode::Starting,
            confirmed: false,
            joined: false,
            failed: None,
        }
    }

    /// Nothing changes, and nothing is done.
    pub(crate) fn stays(self) -> (Self, Verdict)
        ensures { result ≡ (self, Verdict.Stay) }
    {
        (self, Verdict::Stay)
    }

    /// Only the mode changes.
    pub(crate) fn goes(self, mode: Mode) -> (Self, Verdict)
        ensures { result ≡ (record self { mode = mode }, Verdict.Went mode) }
    {
        (Fall { mode, ..self }, Verdict::Went(mode))
    }

    /// Nothing changes, and the path is broken.
    pub(crate) fn breaks(self, reason: u8) -> (Self, Verdict)
        ensures { result ≡ (self, Verdict.BreakPath reason) }
    {
        (self, Verdict::BreakPath(reason))
    }

    /// Whether a checksum was wrong on this path.
    pub(crate) fn failed_on(self, path: u8) -> bool
        ensures { result ≡ is_failed_path self.failed path }
    {
        self.failed == Some(path)
    }
}
