//! The numbers of an end's segments, and its ports: the one place where positions meet octets (RFC 9293, section 3.4).
ghost use Rattle.std.specs.Prelude.{◌≡◌, ◌^◌, ◌<◌};
ghost use Rattle.segment_wire.specs.Reading.{segment_of};
ghost use Rattle.subflow_tcp.specs.Segments.{copy_of};
ghost use Rattle.subflow_tcp.specs.Spelling.{side_of, own_port, peer_port, peer_initial, position_heard, acknowledged_heard, window_heard, heard, acknowledged_said, head_said, said, reset_head, reset_answer};

use crate::segments::{Arriving, Emission, Outgoing};
use segment_wire::{Head, SegmentRef, port_of};
use seq_units::{Pos, Seq32, near32, number32};
use sides::Side;

/// What an end needs to read and to write the numbers of its segments.
#[derive(Clone, Copy)]
pub struct Numbers {
    /// The number of the path, which its ports tell.
    pub path: u8,
    /// Whether the end opens the path; else it listens.
    pub opens: bool,
    /// The own initial sequence number.
    pub own: u32,
    /// The peer's, once its SYN was taken.
    pub peer: Option<u32>,
}

impl Numbers {
    /// The side of the end: A opens, B listens.
    fn side(&self) -> Side
        ensures { result ≡ side_of self.now }
    {
        if self.opens { Side::A } else { Side::B }
    }

    /// The port of the end.
    fn own_port(&self) -> u16
        ensures { result ≡ own_port self.now }
    {
        port_of(self.path, self.side())
    }

    /// The port of the peer.
    fn peer_port(&self) -> u16
        ensures { result ≡ peer_port self.now }
    {
        port_of(self.path, self.side().peer())
    }

    /// The peer's initial number; until it is known, that of this segment.
    fn peer_initial(&self, number: u32) -> u32
        ensures { result ≡ peer_initial self.now number }
    {
        match self.peer {
            Some(initial) => initial,
            None => number,
        }
    }

    /// The position that the number of a segment means at this receive edge; none at an edge of 2^61 or more.
    fn position_heard(&self, edge: Pos, number: u32) -> Option<Pos>
        ensures { result ≡ position_heard self.now edge number }
    {
        if edge < 1 << 61 {
            near32(Seq32(self.peer_initial(number)), edge, Seq32(number))
        } else {
            None
        }
    }

    /// The position that a segment acknowledges.
    fn acknowledged_heard(&self, una: Pos, head: Head) -> Option<Pos>
        requires { una < 2 ^ 62 }
        ensures { result ≡ acknowledged_heard self.now una head }
    {
        if head.ack_set {
            Some(near32(Seq32(self.own), una, Seq32(head.ack)).unwrap_or(0))
        } else {
            None
        }
    }

    /// The segment by positions, at this receive edge and this SND.UNA.
    pub(crate) fn heard<'a>(&self, edge: Pos, una: Pos, segment: &SegmentRef<'a>) -> Arriving<'a>
        requires { una < 2 ^ 62 }
        ensures { copy_of result ≡ heard self.now edge una (segment_of segment.now) }
    {
        let head = segment.head;
        Arriving {
            position: self.position_heard(edge, head.seq),
            acknowledged: self.acknowledged_heard(una, head),
            syn: head.syn,
            fin: head.fin,
            rst: head.rst,
            window: window_heard(head),
            payload: segment.payload(),
        }
    }

    /// The number of a position that is acknowledged; 0 where none is.
    fn acknowledged_said(&self, acknowledged: Option<Pos>) -> u32
        ensures { result ≡ acknowledged_said self.now acknowledged }
    {
        match acknowledged {
            Some(pos) => number32(Seq32(self.peer_initial(0)), pos).0,
            None => 0,
        }
    }

    /// The header of a segment, with the window 0.
    fn head_said(&self, outgoing: &Outgoing) -> Head
        ensures { result ≡ head_said self.now outgoing.now }
    {
        Head {
            source_port: self.own_port(),
            destination_port: self.peer_port(),
            seq: number32(Seq32(self.own), outgoing.position).0,
            ack: self.acknowledged_said(outgoing.acknowledged),
            syn: outgoing.syn,
            fin: outgoing.fin,
            rst: outgoing.rst,
            ack_set: outgoing.acknowledged.is_some(),
            window: 0,
        }
    }

    /// A segment that is to be sent, with its header.
    pub(crate) fn said(&self, outgoing: &Outgoing) -> Emission
        ensures { result ≡ said self.now outgoing.now }
    {
        Emission {
            head: self.head_said(outgoing),
            pos: outgoing.position,
            length: outgoing.length,
        }
    }

    /// The reset that a segment gets where nobody wants it (RFC 9293, section 3.10.7.1); it occupies so many positions.
    pub(crate) fn reset_answer(&self, head: Head, occupied: u64) -> Head
        ensures { result ≡ reset_answer self.now head occupied }
    {
        if head.ack_set {
            self.reset_head(head.ack, None)
        } else {
            let after = number32(Seq32(head.seq), occupied).0;
            self.reset_head(0, Some(after))
        }
    }

    /// A reset at this number, with this acknowledgement or none.
    fn reset_head(&self, seq: u32, ack: Option<u32>) -> Head
        ensures { result ≡ reset_head self.now (record { at = seq; acknowledged = ack }) }
    {
        Head {
            source_port: self.own_port(),
            destination_port: self.peer_port(),
            seq,
            ack: ack.unwrap_or(0),
            syn: false,
            fin: false,
            rst: true,
            ack_set: ack.is_some(),
            window: 0,
        }
    }
}

/// The window in octets: a SYN's as it stands, any other in units of 32 (RFC 7323, section 2.2).
fn window_heard(head: Head) -> u32
    ensures { result ≡ window_heard head }
{
    if head.syn {
        u32::from(head.window)
    } else {
        32 * u32::from(head.window)
    }
}
