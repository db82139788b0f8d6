//! What an end sends: which segment is next, what it says, and what its sending changes.
ghost use Rattle.std.specs.Prelude.{◌≡◌, ◌≤◌, length, slice_get, IfSome};
ghost use Rattle.std.specs.Option.{option_map};
ghost use Rattle.subflow_send.specs.Records.{record_of};
ghost use Rattle.subflow_send.specs.Rules.{is_fin};
ghost use Rattle.subflow_tcp.specs.Emitting.{answer_said, is_syn};
ghost use Rattle.subflow_tcp.specs.declared.segments.Occasion.TheVariants.{SynAck, Unsent};

use crate::end::Subflow;
use crate::handshake::State;
use crate::segments::{Emission, Occasion, Outgoing};
use segment_wire::Head;
use seq_units::Pos;
use subflow_send::{RecordKind, RecordRef};

/// The answer of a dead end stands at no position.
fn answer_said(head: Head) -> Emission
    ensures { result ≡ answer_said head }
{
    Emission {
        head,
        pos: 0,
        length: 0,
    }
}

fn is_syn(kind: RecordKind) -> bool
    ensures { result ≡ is_syn kind }
{
    matches!(kind, RecordKind::Syn)
}

fn is_fin(kind: RecordKind) -> bool
    ensures { result ≡ is_fin kind }
{
    matches!(kind, RecordKind::Fin)
}

impl Subflow {
    ghost use Rattle.subflow_tcp.specs.Emitting.{ack_at, reset_segment, syn_ack_segment, fin_position, fin_segment, acknowledged_in, record_segment, segment_for, emission_for, may_go, is_unsent_due, next_record, next_owed, next_occasion, next_emission, after_sending, after_emission, payload_of};

    /// A segment that acknowledges what has come, and nothing more.
    pub fn ack_at(&self, position: Pos) -> Outgoing
        ensures { result ≡ ack_at position self.now }
    {
        Outgoing {
            position,
            acknowledged: Some(self.recv.edge()),
            syn: false,
            fin: false,
            rst: false,
            length: 0,
        }
    }

    /// The reset of the end: at SND.NXT, without an acknowledgement.
    pub fn reset_segment(&self) -> Outgoing
        ensures { result ≡ reset_segment self.now }
    {
        Outgoing {
            position: self.send.nxt(),
            acknowledged: None,
            syn: false,
            fin: false,
            rst: true,
            length: 0,
        }
    }

    /// The SYN/ACK, at position 0.
    pub fn syn_ack_segment(&self) -> Outgoing
        ensures { result ≡ syn_ack_segment self.now }
    {
        Outgoing {
            syn: true,
            ..self.ack_at(0)
        }
    }

    /// The position of the FIN, also before it is pushed.
    fn fin_position(&self) -> Pos
        ensures { result ≡ fin_position self.now.send }
    {
        if self.send.is_finished() {
            self.send.nxt().saturating_sub(1)
        } else {
            self.send.nxt()
        }
    }

    /// The FIN, also before it is pushed.
    pub fn fin_segment(&self) -> Outgoing
        ensures { result ≡ fin_segment self.now }
    {
        Outgoing {
            fin: true,
            ..self.ack_at(self.fin_position())
        }
    }

    /// All segments but the SYN of the end that opens acknowledge.
    fn acknowledged_in(&self) -> Option<Pos>
        ensures { result ≡ acknowledged_in self.now }
    {
        if matches!(self.state, State::SynSent) {
            None
        } else {
            Some(self.recv.edge())
        }
    }

    /// The segment of a record.
    pub fn record_segment(&self, lent: &RecordRef<'_>) -> Outgoing
        requires { length lent.now.piece.now ≤ 65475 }
        ensures { result ≡ record_segment self.now (record_of lent.now) }
    {
        Outgoing {
            position: lent.pos,
            acknowledged: self.acknowledged_in(),
            syn: is_syn(lent.kind),
            fin: is_fin(lent.kind),
            rst: false,
            length: lent.piece.len() as u32,
        }
    }

    /// The segment that would be sent on this occasion, by positions, whether it is due or not: the first and an unsent
    /// record only where there is one, and the answer of a dead end never, which has no position. A FIN stands behind
    /// the last record, also before it is pushed.
    pub fn segment(&self, occasion: Occasion) -> Option<Outgoing>
        ensures { result ≡ segment_for occasion self.now }
    {
        match occasion {
            Occasion::Reset => Some(self.reset_segment()),
            Occasion::Answer => None,
            Occasion::SynAck => Some(self.syn_ack_segment()),
            Occasion::Ack => Some(self.ack_at(self.send.nxt())),
            Occasion::Probe => Some(self.ack_at(self.send.una().saturating_sub(1))),
            Occasion::First => self.record_said(self.send.retransmit_first()),
            Occasion::Unsent => self.record_said(self.send.due()),
            Occasion::Fin => Some(self.fin_segment()),
        }
    }

    /// The segment of a record, where there is one.
    fn record_said(&self, lent: Option<RecordRef<'_>>) -> Option<Outgoing>
        requires { IfSome lent (λ lent. length lent.piece.now ≤ 65475) }
        ensures { result ≡ option_map (record_segment self.now) (option_map record_of lent.entry) }
    {
        match lent {
            Some(lent) => Some(self.record_segment(&lent)),
            None => None,
        }
    }

    /// The segment that would be sent on this occasion, with its header.
    fn emission_for(&self, occasion: Occasion) -> Option<Emission>
        ensures { result ≡ emission_for occasion self.now }
    {
        if let Occasion::Answer = occasion {
            return match self.due.answer {
                Some(head) => Some(answer_said(head)),
                None => None,
            };
        }
        match self.segment(occasion) {
            Some(outgoing) => Some(self.numbers.said(&outgoing)),
            None => None,
        }
    }

    /// Whether the congestion window has room for the record; before the SYN is acknowledged it goes out alone.
    fn may_go(&self, lent: &RecordRef<'_>) -> bool
        ensures { result ≡ may_go self.now (record_of lent.now) }
    {
        if self.send.una() == 0 {
            is_syn(lent.kind)
        } else {
            lent.piece.len() as u64 <= u64::from(self.room())
        }
    }

    /// Whether the first record that is to be sent may go out.
    fn is_unsent_due(&self) -> bool
        ensures { result ≡ is_unsent_due self.now }
    {
        match self.send.due() {
            Some(record) => self.may_go(&record),
            None => false,
        }
    }

    /// The first record that is to be sent, or else a FIN that was never sent.
    fn next_record(&self) -> Option<Occasion>
        ensures { result ≡ next_record self.now }
    {
        if self.is_unsent_due() {
            return Some(Occasion::Unsent);
        }
        if self.send.has_new_fin() {
            return Some(Occasion::Fin);
        }
        None
    }

    /// What is owed, in its order, and then the records.
    fn next_owed(&self) -> Option<Occasion>
        ensures { result ≡ next_owed self.now }
    {
        if self.due.syn_ack {
            return Some(Occasion::SynAck);
        }
        if self.due.ack {
            return Some(Occasion::Ack);
        }
        if self.due.probe {
            return Some(Occasion::Probe);
        }
        if self.due.first && self.has_records() {
            return Some(Occasion::First);
        }
        self.next_record()
    }

    /// Why the end sends next: `None` where nothing is due.
    pub fn occasion(&self) -> Option<Occasion>
        ensures { result ≡ next_occasion self.now }
    {
        if self.due.reset {
            return Some(Occasion::Reset);
        }
        if self.due.answer.is_some() {
            return Some(Occasion::Answer);
        }
        if self.state.is_closed_to_segments() {
            return None;
        }
        self.next_owed()
    }

    /// The segment that [`emit`](Subflow::emit) would give. Changes nothing, and takes no memory.
    pub fn emission(&self) -> Option<Emission>
        ensures { result ≡ next_emission self.now }
    {
        match self.occasion() {
            Some(occasion) => self.emission_for(occasion),
            None => None,
        }
    }

    /// The next segment is sent at the tick `now`: answers it, with the window 0, which the caller sets.
    pub fn emit(&mut self, now: u64) -> Option<Emission>
        ensures emission { result ≡ next_emission self.old }
        ensures after { self.new ≡ after_emission now self.old }
    {
        match self.occasion() {
            Some(occasion) => {
                let emission = self.emission_for(occasion);
                self.sent(occasion, now);
                emission
            }
            None => None,
        }
    }

    /// The segment of this occasion was sent, at the tick `now`.
    pub fn sent(&mut self, occasion: Occasion, now: u64)
        ensures { self.new ≡ after_sending occasion now self.old }
    {
        match occasion {
            Occasion::Reset => self.due.reset = false,
            Occasion::Answer => self.due.answer = None,
            Occasion::SynAck => self.syn_ack_sent(now),
            Occasion::Ack => self.due.ack = false,
            Occasion::Probe => self.due.probe = false,
            Occasion::First => {
                self.due.first = false;
                self.send.resent(now);
            }
            Occasion::Unsent => self.unsent_sent(now),
            Occasion::Fin => self.send.fin_sent(now),
        }
    }

    /// The SYN/ACK was sent again: another sending of the SYN, while that isn't acknowledged.
    fn syn_ack_sent(&mut self, now: u64)
        ensures { self.new ≡ after_sending SynAck now self.old }
    {
        self.due.syn_ack = false;
        if self.send.una() == 0 {
            self.send.resent(now);
        }
    }

    /// The first record that was to be sent was sent. Without one nothing changes.
    fn unsent_sent(&mut self, now: u64)
        ensures { self.new ≡ after_sending Unsent now self.old }
    {
        if self.send.due().is_some() {
            self.send.sent(now);
        }
    }

    /// The octets of a segment that is to be sent, or was sent and isn't acknowledged, lent: those of the record at its
    /// position.
    pub fn payload(&self, emission: &Emission) -> &[u8]
        ensures value { result.now ≡ payload_of emission.now self.now }
        ensures bound { length result.now ≤ 65475 }
    {
        if emission.length == 0 {
            return &[];
        }
        match self.send.record_at(emission.pos) {
            Some(record) => record.piece,
            None => &[],
        }
    }
}
