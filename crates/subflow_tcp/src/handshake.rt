ghost use Rattle.std.specs.Prelude.{◌≡◌};
ghost use Rattle.subflow_tcp.specs.States.{is_closed_to_segments, may_finish, after_finish, after_fin_acked, after_fin_passed, after_handshake};

/// How far an end is: the states of RFC 9293, section 3.3.2, and two of before and after.
#[derive(Clone, Copy, Debug, PartialEq, Eq)]
pub enum State {
    /// The end is to open later, and drops whatever comes.
    Waiting,
    /// The end waits for a SYN.
    Listen,
    /// Its SYN is to be acknowledged by a SYN/ACK.
    SynSent,
    /// Its SYN/ACK is to be acknowledged.
    SynReceived,
    /// Both SYNs are acknowledged, and neither FIN was sent or passed.
    Established,
    /// Its FIN is to be acknowledged, and the peer's is still to pass.
    FinWait1,
    /// Its FIN is acknowledged, and the peer's is still to pass.
    FinWait2,
    /// The peer's FIN passed, and its own is still to be sent.
    CloseWait,
    /// The peer's FIN passed after it sent its own, which is to be acknowledged.
    Closing,
    /// The peer's FIN passed, and then it sent its own.
    LastAck,
    /// Both FINs passed, and its own is acknowledged. It stays so.
    TimeWait,
    /// The end sends nothing more but resets.
    Dead,
}

impl State {
    /// Whether it sends no record in this state: it waits, it listens, or it is dead.
    pub fn is_closed_to_segments(self) -> bool
        ensures { result ≡ is_closed_to_segments self }
    {
        matches!(self, State::Waiting | State::Listen | State::Dead)
    }

    /// Whether its FIN may be sent: both SYNs are acknowledged, and it sent none (RFC 9293, section 3.10.4).
    pub fn may_finish(self) -> bool
        ensures { result ≡ may_finish self }
    {
        matches!(self, State::Established | State::CloseWait)
    }

    /// The handshake of a half-open end is done.
    pub(crate) fn after_handshake(self) -> State
        ensures { result ≡ after_handshake self }
    {
        match self {
            State::SynReceived => State::Established,
            _ => self,
        }
    }

    /// The own FIN is sent.
    pub(crate) fn after_finish(self) -> State
        ensures { result ≡ after_finish self }
    {
        match self {
            State::Established => State::FinWait1,
            State::CloseWait => State::LastAck,
            _ => self,
        }
    }

    /// The own FIN is acknowledged.
    pub(crate) fn after_fin_acked(self) -> State
        ensures { result ≡ after_fin_acked self }
    {
        match self {
            State::FinWait1 => State::FinWait2,
            State::Closing => State::TimeWait,
            _ => self,
        }
    }

    /// The receive edge moved over the peer's FIN.
    pub(crate) fn after_fin_passed(self) -> State
        ensures { result ≡ after_fin_passed self }
    {
        match self {
            State::Established => State::CloseWait,
            State::FinWait1 => State::Closing,
            State::FinWait2 => State::TimeWait,
            _ => self,
        }
    }
}
