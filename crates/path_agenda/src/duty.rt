//! What is still to be done in a turn, one thing after the other.

use sides::Side;

/// A duty of a path, by what it does. It has no octets: what it needs stands in the end that it belongs to.
#[derive(Clone, Copy, Default)]
pub enum Duty {
    /// Asks a book. The reply takes no memory.
    Ask(AskDuty),
    /// Asks, sends a segment, or takes an event, as the path stands. The reply may take memory.
    Step(StepDuty),
    /// Sends a segment.
    Send(SendDuty),
    /// Changes the end when it is passed, and never comes to an ask or a segment.
    Silent(SilentDuty),
    /// Ends the turn.
    #[default]
    End,
}

/// A duty that asks a book.
#[derive(Clone, Copy)]
pub enum AskDuty {
    // ---- the start of a turn
    /// Asks at A whether the path may join the connection, where it had to wait.
    JoinAgain,
    /// Asks what is to be acknowledged, and how much more is taken.
    Window(Side),
    // ---- the opening
    /// The SYN came: tells its window.
    SynHeard(Side),
    /// The SYN/ACK came: tells its window.
    SynAnswered(Side),
    /// The SYN came: tells that it doesn't ask for Multipath TCP.
    PlainHandshake(Side),
    /// The SYN/ACK came: tells the peer's key, or that it has none.
    PeerKey(Side),
    /// The SYN of a path that joins came: asks whether it may.
    JoinHeard(Side),
    /// The end left SynReceived: tells both keys, where they came, or that no option came.
    Opened(Side),
    /// The end was established: tells that the path lives.
    Live(Side),
    // ---- a copy
    /// A Data ACK that covers something was taken: tells it.
    AckHeard(Side),
    /// The peer's MP_FAIL came, and the send book was asked for an infinite mapping: tells it (RFC 8684, section 3.7).
    FailHeard(Side),
    /// The side sends without mappings: tells the acknowledgement of the subflow in the place of a Data ACK.
    SubflowAck(Side),
    /// The next byte came without an option of Multipath TCP: tells it.
    PlainData(Side),
    /// The side fell back to plain TCP: tells the send book (RFC 8684, section 3.7).
    GoIdentity(Side),
    /// Places the bytes that are in order and mapped: as long as there are some.
    Edge(Side),
    /// The bytes of the mapping at the edge aren't those that it was made for: tells it, and forgets them (RFC 8684, section 3.7).
    CheckFailed(Side),
    /// Tells the end of the stream that a DATA_FIN said, the first being 0.
    HeardFin { side: Side, index: u8 },
    /// The peer sends without mappings: tells its FIN in the place of a DATA_FIN.
    SubflowFin(Side),
    /// Asks what is to be acknowledged, where bytes or an end were told.
    AckOut(Side),
    /// Tells window and round-trip time, and takes the growth of the window.
    Rate(Side),
    // ---- an expiry
    /// Gives back the bytes that aren't acknowledged.
    Return(Side),
    // ---- the peer's fast close
    /// The peer closed the connection at once: tells the send book (RFC 8684, section 3.5).
    AbortSend(Side),
    /// The peer closed the connection at once: tells the reassembly book (RFC 8684, section 3.5).
    AbortReceive(Side),
    // ---- a line of the script
    /// The side is to announce the address of this id: tells it (RFC 8684, section 3.4.1).
    Announce { side: Side, id: u8 },
    /// The side takes the address of this id back: tells it (section 3.4.2).
    Withdraw { side: Side, id: u8 },
    // ---- death
    /// The side told that the end is to be reset, which never sent a segment: it is dead, and gives back its bytes.
    LeaveNoted(Side),
    /// The path is broken: asks once more what is to be acknowledged.
    BreakAck { side: Side, reason: u8 },
    /// The end died: gives back its bytes.
    Leave(Side),
    /// The end died: tells it.
    Dead(Side),
}

/// A duty that asks, sends a segment, or takes an event, as the path stands, and whose reply may take memory.
#[derive(Clone, Copy)]
pub enum StepDuty {
    /// Asks how the side stands, and notes what is to be told to the peer.
    Look(Side),
    /// Sends the first record that is to be sent, or asks for bytes: as long as there is room.
    Data(Side),
    /// Takes the earliest event that is due before the round's end.
    Events,
    /// Treats one of the things that a copy said, the first being 0: tells it, or breaks the path.
    Heard { side: Side, index: u8 },
    /// An acknowledgement of data came without a Data ACK: tells it, or breaks the path. A path is broken that joined and where no
    /// Data ACK ever came, or where this is the third time in a row.
    PlainAck(Side),
    /// The next byte came once more without a mapping: breaks the path, where it is the third time.
    Unmapped(Side),
}

/// A duty that sends a segment.
#[derive(Clone, Copy)]
pub enum SendDuty {
    /// An acknowledgement, where the window has grown enough.
    Update(Side),
    /// The SYN, where it was never sent.
    Syn(Side),
    /// MP_FASTCLOSE, where the end carries the fast close and never sent it (RFC 8684, section 3.5).
    FastClose(Side),
    /// The first of what is to be noted to the peer: as long as there is something (sections 3.3.8 and 3.4).
    Notice(Side),
    /// The DATA_FIN, where the stream's end is known.
    DataFin(Side),
    /// The FIN, where both directions of the data stream are closed.
    Fin(Side),
    /// The SYN/ACK.
    SynAck(Side),
    /// The reset that refuses a path which joins (RFC 8684, section 3.2).
    Refuse(Side),
    /// The acknowledgement that is owed.
    Acknowledge(Side),
    /// The first record again, after the third duplicate.
    Again(Side),
    /// The answer to a segment that is passed over: an acknowledgement, or the SYN/ACK again.
    Answer(Side),
    /// The reset that answers a segment at a dead end.
    ResetAnswer(Side),
    /// What was lost, after an expiry: the first record, else the third MP_JOIN, else MP_FASTCLOSE, else the DATA_FIN, else a probe.
    Resend(Side),
    /// The path is broken: a reset with the reason (RFC 8684, section 3.6).
    BreakReset { side: Side, reason: u8 },
    /// A reset without a reason.
    Reset(Side),
    /// The reset that the side told, of an end that sent a segment (RFC 8684, section 3.5).
    ResetNoted(Side),
}

/// A duty that changes the end in silence.
#[derive(Clone, Copy)]
pub enum SilentDuty {
    /// Settles the timer.
    Timer(Side),
    /// Keeps the payload.
    Keep(Side),
    /// Passes the peer's FIN.
    PassFin(Side),
}
