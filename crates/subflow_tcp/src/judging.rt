//! What a segment that arrives means for an end: a pure reading, rule by rule.
ghost use Rattle.std.specs.Prelude.{◌≡◌, ◌+◌, ◌^◌, ◌<◌, ◌≤◌, length, IsTrue};
ghost use Rattle.segment_wire.specs.Reading.{segment_of};
ghost use Rattle.subflow_tcp.specs.Segments.{copy_of, occupied};
ghost use Rattle.subflow_tcp.specs.Spelling.{heard};
ghost use Rattle.subflow_tcp.specs.Judging.{is_syn_alone, is_at, is_in_window, ends_in_window, is_at_right_edge, is_acceptable, meaning_outside, meaning_answer, IsBelow};

use crate::end::Subflow;
use crate::handshake::State;
use crate::segments::Arriving;
use crate::verdicts::Meaning;
use segment_wire::SegmentRef;
use seq_units::Pos;

/// The receive window of every end, in positions.
const WINDOW: u64 = 1_048_576;

/// The position at which an end takes nothing more.
const LIMIT: u64 = 1 << 61;

/// How many positions the segment occupies: one for each octet, one for the SYN, one for the FIN.
pub(crate) fn occupied(arriving: &Arriving<'_>) -> u64
    ensures { result ≡ occupied (copy_of arriving.now) }
{
    arriving.payload.len() as u64 + (u64::from(arriving.syn) + u64::from(arriving.fin))
}

/// Of the flags SYN, ACK, RST and FIN it has SYN alone.
fn is_syn_alone(arriving: &Arriving<'_>) -> bool
    ensures { result ≡ is_syn_alone (copy_of arriving.now) }
{
    arriving.syn && !arriving.fin && !arriving.rst && arriving.acknowledged.is_none()
}

/// Whether a position lies in the window behind this edge.
fn is_in_window(edge: Pos, pos: Pos) -> bool
    requires { edge ≤ 2 ^ 62 }
    ensures { result ≡ is_in_window edge pos }
{
    edge <= pos && pos < edge + WINDOW
}

/// Whether a segment at this position that occupies so many ends in the window behind this edge.
fn ends_in_window(edge: Pos, pos: Pos, len: u64) -> bool
    requires { edge ≤ 2 ^ 62 }
    ensures { result ≡ ends_in_window edge pos len }
{
    len > 0 && is_in_window(edge, pos.saturating_add(len - 1))
}

/// Whether a segment of so many octets has none and stands at the position after the window behind this edge.
fn is_at_right_edge(edge: Pos, pos: Pos, octets: usize) -> bool
    requires { edge ≤ 2 ^ 62 }
    ensures { result ≡ is_at_right_edge edge pos octets }
{
    octets == 0 && pos == edge + WINDOW
}

/// Whether a segment at this position begins or ends in the window behind this edge, or stands at its end without octets.
fn is_acceptable(edge: Pos, pos: Pos, arriving: &Arriving<'_>) -> bool
    requires { edge ≤ 2 ^ 62 }
    ensures value { result ≡ is_acceptable edge pos (copy_of arriving.now) }
    ensures below { IsTrue result → pos ≤ edge + 1048576 }
{
    is_in_window(edge, pos)
        || ends_in_window(edge, pos, occupied(arriving))
        || is_at_right_edge(edge, pos, arriving.payload.len())
}

/// Outside the window.
fn meaning_outside(arriving: &Arriving<'_>) -> Meaning
    ensures value { result ≡ meaning_outside (copy_of arriving.now) }
    ensures below { IsBelow result }
{
    if arriving.rst {
        Meaning::Ignored
    } else {
        Meaning::Outside
    }
}

impl Subflow {
    ghost use Rattle.subflow_tcp.specs.State.{is_at_limit};
    ghost use Rattle.subflow_tcp.specs.Judging.{meaning_answering, meaning_opening, is_repeated_syn, meaning_acknowledging, meaning_within, meaning_placed, meaning_connected, meaning_of};

    /// The segment by positions, as this end reads its numbers: beside the receive edge and SND.UNA.
    pub fn read<'a>(&self, segment: &SegmentRef<'a>) -> Arriving<'a>
        ensures { copy_of result ≡
            heard self.now.numbers self.now.recv.edge self.now.send.una (segment_of segment.now) }
    {
        // For the proof: what was sent ends at or before position 2^62.
        let _bound = self.send.nxt();
        self.numbers
            .heard(self.recv.edge(), self.send.una(), segment)
    }

    /// Whether a position of the end is 2^61 or more.
    pub fn is_at_limit(&self) -> bool
        ensures { result ≡ is_at_limit self.now }
    {
        LIMIT <= self.send.nxt() || LIMIT <= self.recv.edge()
    }

    /// What a segment means for the end, by the first rule that fits.
    pub fn meaning(&self, arriving: &Arriving<'_>) -> Meaning
        ensures value { result ≡ meaning_of (copy_of arriving.now) self.now }
        ensures below { IsBelow result }
    {
        match self.state {
            State::Dead if arriving.rst => Meaning::Ignored,
            State::Dead => Meaning::Unwanted,
            State::Waiting => Meaning::Ignored,
            State::Listen if is_syn_alone(arriving) => Meaning::Opens,
            State::Listen => Meaning::Ignored,
            State::SynSent => self.meaning_opening(arriving),
            _ => self.meaning_connected(arriving),
        }
    }

    /// At an opening end.
    fn meaning_opening(&self, arriving: &Arriving<'_>) -> Meaning
        ensures value { result ≡ meaning_opening (copy_of arriving.now) self.now }
        ensures below { IsBelow result }
    {
        if self.is_at_limit() {
            return Meaning::Ignored;
        }
        match arriving.acknowledged {
            Some(acknowledged) if acknowledged > 0 && acknowledged <= self.send.nxt() => {
                meaning_answer(arriving, acknowledged)
            }
            _ => Meaning::Ignored,
        }
    }

    /// At an end that has the peer's SYN.
    fn meaning_connected(&self, arriving: &Arriving<'_>) -> Meaning
        ensures value { result ≡ meaning_connected (copy_of arriving.now) self.now }
        ensures below { IsBelow result }
    {
        if self.is_at_limit() {
            return Meaning::Ignored;
        }
        if self.is_repeated_syn(arriving) {
            return Meaning::RepeatedSyn;
        }
        match arriving.position {
            Some(pos) if is_acceptable(self.recv.edge(), pos, arriving) => {
                self.meaning_within(pos, arriving)
            }
            _ => meaning_outside(arriving),
        }
    }

    /// The SYN that opened the end, once more.
    fn is_repeated_syn(&self, arriving: &Arriving<'_>) -> bool
        ensures { result ≡ is_repeated_syn (copy_of arriving.now) self.now }
    {
        !self.numbers.opens
            && arriving.syn
            && !arriving.rst
            && arriving.acknowledged.is_none()
            && arriving.position == Some(0)
    }

    /// In the window.
    fn meaning_within(&self, pos: Pos, arriving: &Arriving<'_>) -> Meaning
        requires { pos < 2 ^ 61 + 2 ^ 20 }
        ensures value { result ≡ meaning_within pos (copy_of arriving.now) self.now }
        ensures below { IsBelow result }
    {
        if arriving.rst {
            return if pos == self.recv.edge() {
                Meaning::Kills
            } else {
                Meaning::Challenged
            };
        }
        if arriving.syn {
            return Meaning::Challenged;
        }
        self.meaning_acknowledging(arriving.acknowledged, pos)
    }

    /// In the window, and neither a reset nor a SYN.
    fn meaning_acknowledging(&self, acknowledged: Option<Pos>, pos: Pos) -> Meaning
        requires { pos < 2 ^ 61 + 2 ^ 20 }
        ensures value { result ≡ meaning_acknowledging acknowledged pos self.now }
        ensures below { IsBelow result }
    {
        match acknowledged {
            None => Meaning::Unacknowledging,
            Some(acknowledged) => {
                if self.send.nxt() < acknowledged {
                    Meaning::Ahead
                } else if matches!(self.state, State::SynReceived) && acknowledged == 0 {
                    Meaning::Unacknowledging
                } else {
                    Meaning::Taken {
                        position: pos,
                        acknowledged,
                    }
                }
            }
        }
    }
}

/// A segment that acknowledges the SYN of an opening end.
fn meaning_answer(arriving: &Arriving<'_>, acknowledged: Pos) -> Meaning
    ensures value { result ≡ meaning_answer (copy_of arriving.now) acknowledged }
    ensures below { IsBelow result }
{
    if arriving.rst {
        Meaning::Kills
    } else if arriving.syn {
        Meaning::Accepts { acknowledged }
    } else {
        Meaning::Ignored
    }
}
