//! Segments by positions: those that arrive, and those that are to be sent.

use segment_wire::Head;
use seq_units::Pos;

/// A segment that arrives, by positions, as the end reads it.
#[derive(Clone, Copy)]
pub struct Arriving<'a> {
    /// The position of its SYN, or else of its first octet; `None` where its number means none.
    pub position: Option<Pos>,
    /// The position that it acknowledges, 0 where its number means none; `None` without the flag ACK.
    pub acknowledged: Option<Pos>,
    pub syn: bool,
    pub fin: bool,
    pub rst: bool,
    /// The window in octets.
    pub window: u32,
    /// Its octets.
    pub payload: &'a [u8],
}

/// What the layer above knows of an arriving segment.
#[derive(Clone, Copy)]
pub struct Hint {
    /// The place that its Data ACK names, if it names one.
    pub data_ack: Option<u64>,
    /// Whether its payload is kept at once.
    pub keep: bool,
}

/// Why a segment is to be sent, in the order in which they go out.
#[derive(Clone, Copy)]
pub enum Occasion {
    /// The end died, and resets the subflow.
    Reset,
    /// A segment came for the dead end.
    Answer,
    /// The SYN/ACK is asked for again.
    SynAck,
    /// An acknowledgement is owed.
    Ack,
    /// The peer is to show whether it is there: an acknowledgement one below SND.UNA.
    Probe,
    /// The first record that is not acknowledged is lost.
    First,
    /// A record is to be sent that the congestion window has room for.
    Unsent,
    /// The FIN was never sent; it doesn't wait for records that have no room.
    Fin,
}

/// A segment that is to be sent, by positions, without its window, options and octets.
#[derive(Clone, Copy)]
pub struct Outgoing {
    /// The position of its SYN or FIN, or else of its first octet.
    pub position: Pos,
    /// The position that it acknowledges; `None` without the flag ACK.
    pub acknowledged: Option<Pos>,
    pub syn: bool,
    pub fin: bool,
    pub rst: bool,
    /// How many octets of payload it has, at most 65,535.
    pub length: u32,
}

/// A segment that is to be sent: its header with the window 0, which the layer above sets, and which octets it carries.
#[derive(Clone, Copy, PartialEq, Eq)]
pub struct Emission {
    pub head: Head,
    /// The position of its first octet.
    pub pos: Pos,
    /// How many octets of payload it has, at most 65,535.
    pub length: u32,
}
