//! What a segment that is taken makes of an end: its payload, its acknowledgement, what it tells. One method a rule.
ghost use Rattle.std.specs.Prelude.{◌≡◌, ◌+◌, ◌^◌, ◌<◌, ◌≤◌, length, IfOk, OnOk, OnErr, true, false, None};
ghost use Rattle.segment_wire.specs.Reading.{segment_of};
ghost use Rattle.subflow_send.specs.Rules.{ack_kind};
ghost use Rattle.subflow_tcp.specs.declared.verdicts.Meaning.TheVariants.{Taken};
ghost use Rattle.subflow_tcp.specs.declared.verdicts.Arrival.TheVariants.{Opened};
ghost use Rattle.subflow_tcp.specs.Segments.{copy_of};
ghost use Rattle.subflow_tcp.specs.Sizes.{flight_told};
ghost use Rattle.subflow_tcp.specs.Taking.{first_fin, is_ack_again, told_by, told_by_syn, unkept};

use crate::end::Subflow;
use crate::handshake::State;
use crate::judging::occupied;
use crate::segments::{Arriving, Hint};
use crate::verdicts::{Arrival, Meaning};
use loss_recovery::Told;
use segment_wire::{Head, SegmentRef};
use seq_units::Pos;
use std::alloc::AllocError;
use subflow_send::{AckKind, SubflowSend};

/// The position of the first FIN that was heard, of which this one would stand at `pos`.
fn first_fin(fin_at: Option<Pos>, fin: bool, pos: Pos) -> Option<Pos>
    ensures { result ≡ first_fin fin_at fin pos }
{
    match fin_at {
        Some(first) => Some(first),
        None if fin => Some(pos),
        None => None,
    }
}

/// Whether an acknowledgement is of SND.UNA again.
fn is_ack_again(kind: AckKind) -> bool
    ensures { result ≡ is_ack_again kind }
{
    matches!(kind, AckKind::Duplicate)
}

/// What a segment tells beside its acknowledgement.
fn told_by(data_ack: Option<u64>, arriving: &Arriving<'_>) -> Told
    ensures { result ≡ told_by (unkept data_ack) (copy_of arriving.now) }
{
    Told {
        place: data_ack,
        window: arriving.window,
    }
}

/// What a SYN tells: its window alone.
fn told_by_syn(arriving: &Arriving<'_>) -> Told
    ensures { result ≡ told_by_syn (copy_of arriving.now) }
{
    Told {
        place: None,
        window: arriving.window,
    }
}

/// As many octets as a loss counts.
pub(crate) fn flight_told(send: &SubflowSend) -> u32
    ensures { result ≡ flight_told send.now }
{
    send.flight().min(4_294_967_295) as u32
}

impl Subflow {
    ghost use Rattle.subflow_tcp.specs.Judging.{meaning_of};
    ghost use Rattle.subflow_tcp.specs.Taking.{after_hearing, after_established, after_payload, after_ack_kind, after_acknowledgement, after_new_ack, is_duplicate, after_duplicate, after_row, after_heard_ack, after_occupying, after_taken, after_syn, after_syn_ack, after_arrival, arrival_of, after_octets, after_segment, arrival_in};

    /// Treats a segment that arrives at the tick `now`, as it stands in octets: reads it, judges it, and takes it. It has
    /// at most 65,535 octets.
    ///
    /// # Errors
    ///
    /// Only where there is no memory for its payload; then all is as it was.
    pub fn arrive(
        &mut self,
        segment: &SegmentRef<'_>,
        hint: &Hint,
        now: u64,
    ) -> Result<Arrival, AllocError>
        requires { length (segment_of segment.now).payload ≤ 65535 }
        ensures arrival { IfOk result (λ arrival. arrival ≡
            arrival_in hint.now (segment_of segment.now) self.old) }
        ensures ok { OnOk result (self.new ≡
            after_segment hint.now now (segment_of segment.now) self.old) }
        ensures err { OnErr result (self.new ≡ self.old) }
    {
        let arriving = self.read(segment);
        let meaning = self.meaning(&arriving);
        let arrival = self.treat(meaning, &arriving, hint, now)?;
        self.note(meaning, segment.head, occupied(&arriving));
        Ok(arrival)
    }

    /// Takes a segment by positions that means this for the end. With `keep` of the hint its payload is kept, unless the
    /// peer's FIN was passed; all else is as [`take_segment`](Subflow::take_segment) has it.
    ///
    /// # Errors
    ///
    /// Only where there is no memory for its payload; then all is as it was.
    pub fn treat(
        &mut self,
        meaning: Meaning,
        arriving: &Arriving<'_>,
        hint: &Hint,
        now: u64,
    ) -> Result<Arrival, AllocError>
        requires small { length arriving.now.payload.now ≤ 65535 }
        requires meaning { meaning ≡ meaning_of (copy_of arriving.now) self.old }
        ensures arrival { IfOk result (λ arrival. arrival ≡
            arrival_of meaning hint.now (copy_of arriving.now) self.old) }
        ensures ok { OnOk result (self.new ≡
            after_arrival meaning hint.now now (copy_of arriving.now) self.old) }
        ensures err { OnErr result (self.new ≡ self.old) }
    {
        let new = self.keep_for(meaning, hint.keep, arriving.payload)?;
        let arrival = self.take_segment(meaning, arriving, hint.data_ack, now);
        Ok(arrival.with_new(new))
    }

    /// Takes a segment by positions that means this for the end, but for its payload, which isn't kept. `data_ack` is the
    /// place that its Data ACK names, if it names one. Takes no memory.
    pub fn take_segment(
        &mut self,
        meaning: Meaning,
        arriving: &Arriving<'_>,
        data_ack: Option<u64>,
        now: u64,
    ) -> Arrival
        requires { meaning ≡ meaning_of (copy_of arriving.now) self.old }
        ensures arrival { result ≡
            arrival_of meaning (unkept data_ack) (copy_of arriving.now) self.old }
        ensures after { self.new ≡
            after_arrival meaning (unkept data_ack) now (copy_of arriving.now) self.old }
    {
        // For the proof: an end that opens has pushed no FIN.
        let _state = self.state;
        match meaning {
            Meaning::Ignored | Meaning::Unwanted => Arrival::Dropped,
            Meaning::Opens => self.take_syn(arriving),
            Meaning::Accepts { acknowledged } => { self.take_syn_ack(acknowledged, arriving, now) }
            Meaning::RepeatedSyn => self.take_syn_again(),
            Meaning::Outside => self.take_outside(),
            Meaning::Kills => self.take_death(),
            Meaning::Challenged => self.take_challenged(),
            Meaning::Unacknowledging => self.take_unacknowledging(),
            Meaning::Ahead => self.take_ahead(),
            Meaning::Taken {
                position,
                acknowledged,
            } => self.take(position, acknowledged, arriving, data_ack, now),
        }
    }

    /// The FIN behind the payload of a segment, whose first octet stands at `pos`.
    fn take_fin(&mut self, pos: Pos, arriving: &Arriving<'_>)
        requires { pos ≤ 2 ^ 61 + 2 ^ 20 }
        ensures { self.new ≡ after_payload pos (unkept None) (copy_of arriving.now) self.old }
    {
        let end = pos + arriving.payload.len() as u64;
        self.fin_at = first_fin(self.fin_at, arriving.fin, end);
    }

    /// The SYN of a peer that opens.
    fn take_syn(&mut self, arriving: &Arriving<'_>) -> Arrival
        requires { self.old.send.finished ≡ false }
        ensures arrival { result ≡ Opened }
        ensures after { self.new ≡ after_syn (unkept None) (copy_of arriving.now) self.old }
    {
        self.take_fin(1, arriving);
        self.state = State::SynReceived;
        self.congestion.tell(told_by_syn(arriving));
        Arrival::Opened
    }

    /// The SYN/ACK: both SYNs are acknowledged.
    fn take_syn_ack(&mut self, acknowledged: Pos, arriving: &Arriving<'_>, now: u64) -> Arrival
        requires { self.old.send.finished ≡ false }
        ensures arrival { result ≡ Opened }
        ensures after { self.new ≡
            after_syn_ack acknowledged (unkept None) now (copy_of arriving.now) self.old }
    {
        self.take_fin(1, arriving);
        self.timing.heard();
        self.state = State::Established;
        self.take_acknowledgement(acknowledged, now);
        self.congestion.tell(told_by_syn(arriving));
        self.owe_for(arriving);
        Arrival::Opened
    }

    /// An acceptable segment was heard, which acknowledges the SYN/ACK.
    fn establish(&mut self)
        ensures { self.new ≡ after_established (after_hearing self.old) }
    {
        self.timing.heard();
        self.state = self.state.after_handshake();
    }

    /// What is taken: the FIN, the acknowledgement, duplicates, and the acknowledgement that is owed for it.
    fn take(
        &mut self,
        pos: Pos,
        acknowledged: Pos,
        arriving: &Arriving<'_>,
        data_ack: Option<u64>,
        now: u64,
    ) -> Arrival
        requires { pos < 2 ^ 61 + 2 ^ 20 }
        ensures arrival { result ≡
            arrival_of (Taken pos acknowledged) (unkept data_ack) (copy_of arriving.now) self.old }
        ensures after { self.new ≡
            after_taken pos acknowledged (unkept data_ack) now (copy_of arriving.now) self.old }
    {
        let half_open = matches!(self.state, State::SynReceived);
        self.take_fin(pos, arriving);
        self.establish();
        let ack = self.take_heard_ack(acknowledged, arriving, data_ack, now);
        self.owe_for(arriving);
        if half_open {
            return Arrival::Opened;
        }
        Arrival::Took {
            ack,
            new: 0,
            fin: arriving.fin,
        }
    }

    /// The acknowledgement of a segment that is taken, and what it tells besides.
    fn take_heard_ack(
        &mut self,
        acknowledged: Pos,
        arriving: &Arriving<'_>,
        data_ack: Option<u64>,
        now: u64,
    ) -> AckKind
        ensures kind { result ≡ ack_kind acknowledged self.old.send }
        ensures after { self.new ≡
            after_heard_ack acknowledged (unkept data_ack) now (copy_of arriving.now) self.old }
    {
        let told = told_by(data_ack, arriving);
        let kind = self.take_acknowledgement(acknowledged, now);
        self.take_row(kind, told, arriving);
        self.congestion.tell(told);
        kind
    }

    /// An acknowledgement of the position `pos`.
    fn take_acknowledgement(&mut self, pos: Pos, now: u64) -> AckKind
        ensures kind { result ≡ ack_kind pos self.old.send }
        ensures after { self.new ≡ after_acknowledgement pos now self.old }
    {
        let since = self.send.sample(pos);
        let kind = self.send.acknowledge(pos);
        self.take_ack_kind(kind, since, now);
        kind
    }

    /// What an acknowledgement means beside the records that it lets go.
    fn take_ack_kind(&mut self, kind: AckKind, since: Option<u64>, now: u64)
        ensures { self.new ≡ after_ack_kind kind since now self.old }
    {
        if let AckKind::New(octets) = kind {
            self.take_new_ack(octets, since, now);
        }
    }

    /// Something new was acknowledged.
    fn take_new_ack(&mut self, octets: u64, since: Option<u64>, now: u64)
        ensures { self.new ≡ after_new_ack octets since now self.old }
    {
        self.timing.measured(since, now);
        let rtt = self.timing.rtt_told();
        self.congestion.acknowledged(octets, rtt);
        if self.send.is_finished() && self.send.una() == self.send.nxt() {
            self.state = self.state.after_fin_acked();
        }
    }

    /// Whether a segment is a duplicate (RFC 5681, section 2).
    fn is_duplicate(&self, kind: AckKind, told: Told, arriving: &Arriving<'_>) -> bool
        ensures { result ≡ is_duplicate kind told (copy_of arriving.now) self.now }
    {
        is_ack_again(kind)
            && arriving.payload.is_empty()
            && !arriving.fin
            && self.has_records()
            && self.congestion.told.is_same(told)
    }

    /// A duplicate: the third in a row sends the first record again.
    fn take_duplicate(&mut self)
        ensures { self.new ≡ after_duplicate self.old }
    {
        if self.congestion.duplicated(flight_told(&self.send)) {
            self.due.first = true;
        }
    }

    /// The row of duplicates goes on, or ends.
    fn take_row(&mut self, kind: AckKind, told: Told, arriving: &Arriving<'_>)
        ensures { self.new ≡ after_row kind told (copy_of arriving.now) self.old }
    {
        if self.is_duplicate(kind, told, arriving) {
            self.take_duplicate();
        } else {
            self.congestion.end_row();
        }
    }

    /// What occupies a position is acknowledged.
    fn owe_for(&mut self, arriving: &Arriving<'_>)
        ensures { self.new ≡ after_occupying (copy_of arriving.now) self.old }
    {
        if occupied(arriving) > 0 {
            self.due.ack = true;
        }
    }

    /// What the octets of a segment add: a SYN that is taken tells the peer's initial number, and a dead end answers by a
    /// reset.
    fn note(&mut self, meaning: Meaning, head: Head, occupied: u64)
        ensures { self.new ≡ after_octets meaning head occupied self.old }
    {
        match meaning {
            Meaning::Opens | Meaning::Accepts { .. } => self.numbers.peer = Some(head.seq),
            Meaning::Unwanted => {
                self.due.answer = Some(self.numbers.reset_answer(head, occupied));
            }
            _ => {}
        }
    }
}
