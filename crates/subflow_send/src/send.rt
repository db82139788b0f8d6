ghost use Rattle.std.specs.Prelude.{◌≡◌, ◌≢◌, ◌+◌, ◌-◌, ◌^◌, ◌<◌, ◌≤◌, ◌↔◌, [], length, true, false, map, find, slice_get, OnOk, OnErr, IfOk, IfSome, IsTrue, IsSome, if◌then◌else◌};
ghost use Rattle.std.specs.List.{list_any};
ghost use Rattle.std.specs.Option.{option_map};
ghost use Rattle.subflow_send.specs.Records.{record_of};
ghost use Rattle.subflow_send.specs.Rules.{syn_record, fin_record, last_covered};
ghost use Rattle.subflow_send.specs.Sendings.{sent_again, to_be_sent};
ghost use Rattle.subflow_send.specs.Pieces.{sending_of, unsent_sending};

use crate::octets::Octets;
use crate::pieces::Piece;
use crate::queue::PieceQueue;
use crate::record::{AckKind, RecordKind, RecordRef, Sending};
use octet_text::Text;
use seq_units::{Mapping, Pos};
use std::alloc::{AllocError, Global};
use std::marker::Model;

/// The mapping of a record that has no octets.
const NO_MAPPING: Mapping = Mapping {
    number: 0,
    relative: 0,
    length: 0,
    checksum: 0,
};

/// The sending side of a subflow. Contracts see SND.UNA, SND.NXT, the list of the records that are not acknowledged
/// whole, in order of their positions, and whether the FIN was pushed.
#[derive(Drop)]
pub struct SubflowSend {
    /// SND.UNA: the least position that is not acknowledged.
    una: Pos,
    /// SND.NXT: the position of the next record.
    nxt: Pos,
    /// How the SYN was sent, until it is acknowledged.
    syn: Option<Sending>,
    /// The data pieces that are not acknowledged whole, in order.
    pieces: PieceQueue,
    /// How the FIN was sent, from its push until it is acknowledged.
    fin: Option<Sending>,
    /// The FIN was pushed.
    finished: bool,
}

impl Model for SubflowSend {
    ghost use Rattle.subflow_send.specs.Records.{SendState};

    ghost Value = { SendState };

    ghost use Rattle.std.specs.Prelude.{◌-◌};
    ghost use Rattle.subflow_send.specs.Pieces.{all_records, IsKept};

    ghost view = { λ s.
        record {
          una = s.una;
          nxt = s.nxt;
          records = all_records s.syn s.pieces (s.nxt - 1) s.fin;
          finished
              = s.finished;
        } };

    ghost invariant = { λ s. IsKept s.una s.nxt s.syn s.pieces s.fin s.finished };
}

impl SubflowSend {
    ghost use Rattle.subflow_send.specs.Records.{span_of, Tile};
    ghost use Rattle.subflow_send.specs.Rules.{opening, after_push, after_finish, ack_kind, after_acknowledge, newly_acknowledged, sample_of, is_unsent, after_sent, after_resent, after_expired, again_at_expiry, flight, stands_at, is_piece_at, octets_of, is_new_fin, after_fin_sent};

    /// A side that has sent nothing: its SYN stands at position 0 and is to be sent. Takes no memory.
    pub fn new(alloc: Global) -> Self
        ensures { result ≡ opening }
    {
        SubflowSend {
            una: 0,
            nxt: 1,
            syn: Some(Sending::NEVER),
            pieces: PieceQueue::new(alloc),
            fin: None,
            finished: false,
        }
    }

    /// SND.UNA, the least position that is not acknowledged.
    pub fn una(&self) -> Pos
        ensures value { result ≡ self.now.una }
        ensures order { result ≤ self.now.nxt }
        ensures tile { Tile self.now.una self.now.nxt (map span_of self.now.records) }
    {
        self.una
    }

    /// SND.NXT, the position that the next record will have.
    pub fn nxt(&self) -> Pos
        ensures value { result ≡ self.now.nxt }
        ensures bound { result < 2 ^ 61 + 2 ^ 17 }
    {
        self.nxt
    }

    /// Whether the FIN was pushed.
    pub fn is_finished(&self) -> bool
        ensures { result ≡ self.now.finished }
    {
        self.finished
    }

    /// Appends a piece with its mapping, to be sent, and answers its position. Its octets are shared where the text is
    /// shared. Without memory for it all is as it was.
    pub fn push(&mut self, piece: &Text, mapping: &Mapping) -> Result<Pos, AllocError>
        requires some { 0 < length piece.now }
        requires most { length piece.now ≤ 65475 }
        requires room { self.old.nxt < 2 ^ 61 }
        requires open { self.old.finished ≡ false }
        ensures pos { IfOk result (λ pos. pos ≡ self.old.nxt) }
        ensures ok { OnOk result (self.new ≡ after_push piece.now mapping.now self.old) }
        ensures err { OnErr result (self.new ≡ self.old) }
    {
        let pos = self.nxt;
        let bytes = Octets::of(piece)?;
        self.pieces.push(Piece {
            pos,
            bytes,
            mapping: *mapping,
            sending: Sending::NEVER,
        })?;
        self.nxt += piece.len() as u64;
        Ok(pos)
    }

    /// Appends the FIN after the last octet, to be sent. Takes no memory.
    pub fn finish(&mut self)
        requires open { self.old.finished ≡ false }
        ensures { self.new ≡ after_finish self.old }
    {
        self.fin = Some(Sending::NEVER);
        self.finished = true;
        self.nxt += 1;
    }

    /// What an acknowledgement of `pos` tells (RFC 9293, section 3.10.7.4). Where it acknowledges something new,
    /// records that it covers whole are let go, in time proportional to their number.
    pub fn acknowledge(&mut self, pos: Pos) -> AckKind
        ensures kind { result ≡ ack_kind pos self.old }
        ensures after { self.new ≡ after_acknowledge pos self.old }
    {
        if self.nxt < pos {
            return AckKind::Future;
        }
        if pos < self.una {
            return AckKind::Old;
        }
        if pos == self.una {
            return AckKind::Duplicate;
        }
        let octets = self.newly_acknowledged(pos);
        self.let_go(pos);
        AckKind::New(octets)
    }

    /// How many octets of data an acknowledgement of `pos` acknowledges for the first time.
    fn newly_acknowledged(&self, pos: Pos) -> u64
        requires above { self.now.una < pos }
        requires within { pos ≤ self.now.nxt }
        ensures { result ≡ newly_acknowledged pos self.now }
    {
        pos.min(self.data_end()).saturating_sub(self.una.max(1))
    }

    /// The position after the last octet that was pushed.
    fn data_end(&self) -> Pos
        ensures { result ≡ (if self.now.finished then self.now.nxt - 1 else self.now.nxt) }
    {
        if self.finished {
            self.nxt - 1
        } else {
            self.nxt
        }
    }

    /// Lets go of what is covered by an acknowledgement of something new.
    fn let_go(&mut self, pos: Pos)
        requires above { self.old.una < pos }
        requires within { pos ≤ self.old.nxt }
        ensures { self.new ≡ after_acknowledge pos self.old }
    {
        self.syn = None;
        self.pieces.drop_covered(pos);
        self.fin = unless(pos >= self.nxt, self.fin);
        self.una = pos;
    }

    /// Since when an acknowledgement of `pos` measures the round trip: the tick at which the last record that it covers
    /// whole was sent. `None` where it covers none, or that one was never sent, or was sent again (RFC 6298,
    /// section 3). Asked before the acknowledgement is taken.
    pub fn sample(&self, pos: Pos) -> Option<u64>
        ensures { result ≡ sample_of pos self.now }
    {
        if pos <= self.una() {
            return None;
        }
        let last = self.last_covered(pos)?;
        if last.times == 1 {
            Some(last.first)
        } else {
            None
        }
    }

    /// How the last record that ends at or before `pos` was sent.
    fn last_covered(&self, pos: Pos) -> Option<Sending>
        requires { self.now.una < pos }
        ensures { result ≡ option_map sending_of (last_covered pos self.now.records) }
    {
        if let Some(fin) = unless(pos < self.nxt, self.fin) {
            return Some(fin);
        }
        if let Some(sending) = self.pieces.last_covered(pos) {
            return Some(sending);
        }
        self.syn
    }

    /// The first record that is not acknowledged whole, lent. No record has more than 65,475 octets.
    pub fn retransmit_first(&self) -> Option<RecordRef<'_>>
        ensures value { option_map record_of result ≡ slice_get self.now.records 0 }
        ensures bound { IfSome result (λ found. length found.piece.now ≤ 65475) }
    {
        if let Some(syn) = self.syn {
            return Some(syn_ref(syn));
        }
        if let Some(piece) = self.pieces.first() {
            return Some(piece);
        }
        if let Some(fin) = self.fin {
            return Some(fin_ref(self.nxt - 1, fin));
        }
        None
    }

    /// The first record that is to be sent, lent.
    pub fn due(&self) -> Option<RecordRef<'_>>
        ensures value { option_map record_of result ≡ find is_unsent self.now.records }
        ensures bound { IfSome result (λ found. length found.piece.now ≤ 65475) }
    {
        if let Some(syn) = if_unsent(self.syn) {
            return Some(syn_ref(syn));
        }
        if let Some(piece) = self.pieces.first_unsent() {
            return Some(piece);
        }
        if let Some(fin) = if_unsent(self.fin) {
            return Some(fin_ref(self.nxt - 1, fin));
        }
        None
    }

    /// The first record that is to be sent is sent, at the tick `now`.
    pub fn sent(&mut self, now: u64)
        requires { IsSome (find is_unsent self.old.records) }
        ensures { self.new ≡ after_sent now self.old }
    {
        if let Some(syn) = if_unsent(self.syn) {
            self.syn = Some(syn.again(now));
            return;
        }
        if self.pieces.send_unsent(now) {
            return;
        }
        self.fin = again(self.fin, now);
    }

    /// The first record is sent, at the tick `now`, whether it was to be sent or not: a retransmission of what
    /// [`retransmit_first`](SubflowSend::retransmit_first) gives.
    pub fn resent(&mut self, now: u64)
        ensures { self.new ≡ after_resent now self.old }
    {
        if let Some(syn) = self.syn {
            self.syn = Some(syn.again(now));
            return;
        }
        if self.pieces.send_first(now) {
            return;
        }
        self.fin = again(self.fin, now);
    }

    /// The octets of the piece at this position, lent; `None` where no unacknowledged piece begins there.
    pub fn text_at(&self, pos: Pos) -> Option<&Text>
        ensures { option_map (λ text. text.now) result ≡
            option_map octets_of (find (is_piece_at pos) self.now.records) }
    {
        self.pieces.text_at(pos)
    }

    /// The record at this position, lent; `None` where no unacknowledged record begins there.
    pub fn record_at(&self, pos: Pos) -> Option<RecordRef<'_>>
        ensures value { option_map record_of result ≡ find (stands_at pos) self.now.records }
        ensures bound { IfSome result (λ found. length found.piece.now ≤ 65475) }
    {
        if let Some(syn) = unless(pos != 0, self.syn) {
            return Some(syn_ref(syn));
        }
        if let Some(piece) = self.pieces.at(pos) {
            return Some(piece);
        }
        if let Some(fin) = unless(pos != self.nxt - 1, self.fin) {
            return Some(fin_ref(self.nxt - 1, fin));
        }
        None
    }

    /// Whether the FIN was pushed and never sent. It may go out before what is to be sent in front of it.
    pub fn has_new_fin(&self) -> bool
        ensures { result ≡ list_any is_new_fin self.now.records }
    {
        match self.fin {
            Some(fin) => fin.times == 0,
            None => false,
        }
    }

    /// The FIN, where there is one, is sent at the tick `now`, whatever is to be sent in front of it.
    pub fn fin_sent(&mut self, now: u64)
        ensures { self.new ≡ after_fin_sent now self.old }
    {
        self.fin = again(self.fin, now);
    }

    /// The retransmission timer expired: every record but the first is to be sent again, and the first is marked as
    /// that.
    pub fn expired(&mut self)
        ensures { self.new ≡ after_expired self.old }
    {
        if let Some(syn) = self.syn {
            self.syn = Some(syn.first_at_an_expiry());
            self.pieces.expire_all();
            self.fin = unsent_again(self.fin);
            return;
        }
        if self.pieces.expire_first() {
            self.fin = unsent_again(self.fin);
            return;
        }
        if let Some(fin) = self.fin {
            self.fin = Some(fin.first_at_an_expiry());
        }
    }

    /// Whether the first record was also the first one at an earlier expiry (RFC 5681, section 3.1, on a segment that
    /// is sent again). Asked before the expiry is taken.
    pub fn again(&self) -> bool
        ensures { result ≡ again_at_expiry self.now }
    {
        match self.retransmit_first() {
            Some(first) => first.sending.first_at_expiry,
            None => false,
        }
    }

    /// The octets of data that are under way: neither acknowledged nor of records that are to be sent (RFC 5681, section 2).
    pub fn flight(&self) -> u64
        ensures { result ≡ flight self.now }
    {
        self.pieces.under_way() - self.pieces.sent_below(self.una)
    }
}

/// The SYN.
fn syn_ref<'a>(sending: Sending) -> RecordRef<'a>
    ensures value { record_of result ≡ syn_record sending }
    ensures empty { length result.piece.now ≡ 0 }
{
    RecordRef {
        pos: 0,
        kind: RecordKind::Syn,
        piece: &[],
        mapping: NO_MAPPING,
        sending,
    }
}

/// The FIN at this position.
fn fin_ref<'a>(pos: Pos, sending: Sending) -> RecordRef<'a>
    ensures value { record_of result ≡ fin_record pos sending }
    ensures empty { length result.piece.now ≡ 0 }
{
    RecordRef {
        pos,
        kind: RecordKind::Fin,
        piece: &[],
        mapping: NO_MAPPING,
        sending,
    }
}

/// The FIN, or none.
fn unless(without: bool, sending: Option<Sending>) -> Option<Sending>
    ensures { result ≡ (if without then None else sending) }
{
    if without { None } else { sending }
}

/// The SYN or the FIN, where it is to be sent.
fn if_unsent(sending: Option<Sending>) -> Option<Sending>
    ensures { result ≡ unsent_sending sending }
{
    let sending = sending?;
    if sending.unsent { Some(sending) } else { None }
}

/// Another sending of the FIN, where there is one.
fn again(sending: Option<Sending>, now: u64) -> Option<Sending>
    ensures { result ≡ option_map (sent_again now) sending }
{
    let sending = sending?;
    Some(sending.again(now))
}

/// The FIN, where there is one, is to be sent again.
fn unsent_again(sending: Option<Sending>) -> Option<Sending>
    ensures { result ≡ option_map to_be_sent sending }
{
    let sending = sending?;
    Some(Sending {
        unsent: true,
        ..sending
    })
}
