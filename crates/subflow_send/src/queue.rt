//! The data pieces of a sending side, with what is kept beside them so that none is looked at twice.
ghost use Rattle.std.specs.Prelude.{◌≡◌, ℕ, ◌+◌, ◌<◌, ◌≤◌, ◌^◌, ◌==◌, not, ◌++◌, ◌∷◌, [], true, false, drop, length, map, sum_by, find, slice_get, slice_index_or, set, IfSome, OnOk, OnErr};
ghost use Rattle.std.specs.List.{list_any};
ghost use Rattle.std.specs.List.Sorted.{IsNonDecreasingBy};
ghost use Rattle.std.specs.Option.{option_map};
ghost use Rattle.subflow_send.specs.declared.pieces.Piece.{Piece};
ghost use Rattle.subflow_send.specs.Records.{record_of};
ghost use Rattle.subflow_send.specs.Rules.{stands_at, is_piece_at, octets_of, is_unsent, first_sent, expired_records, last_covered};
ghost use Rattle.subflow_send.specs.Pieces.{piece_record, piece_len, piece_under_way, is_unsent_piece, unsent_piece, uncovered_pieces, first_is_covered, sent_below, sent_piece, sent_pieces, sending_of};

use crate::pieces::{Piece, last_covered, next_unsent, piece_at, text_at, unsend_from};
use crate::record::{RecordRef, Sending};
use octet_text::Text;
use seq_units::Pos;
use std::alloc::{AllocError, Global};
use std::collections::VecDeque;
use std::marker::Model;

/// The data pieces that are not acknowledged whole, in order of their positions. Contracts see the list.
#[derive(Drop)]
pub(crate) struct PieceQueue {
    items: VecDeque<Piece>,
    /// No piece before this place is to be sent.
    sent_to: usize,
    /// How many octets of pieces are sent and not to be sent again, acknowledged or not.
    under_way: u64,
}

impl Model for PieceQueue {
    ghost use Rattle.std.specs.Prelude.{List};
    ghost use Rattle.subflow_send.specs.declared.pieces.Piece.{Piece};

    ghost Value = { List Piece };

    ghost use Rattle.subflow_send.specs.Pieces.{IsCounted};

    ghost view = { λ queue. queue.items.items };

    ghost invariant = { λ queue. IsCounted queue.items.items queue.sent_to queue.under_way };
}

impl PieceQueue {
    /// No pieces, which takes no memory.
    pub(crate) fn new(alloc: Global) -> Self
        ensures { result ≡ [] }
    {
        PieceQueue {
            items: VecDeque::new(alloc),
            sent_to: 0,
            under_way: 0,
        }
    }

    /// Puts a piece that is to be sent behind the others.
    pub(crate) fn push(&mut self, piece: Piece) -> Result<(), AllocError>
        requires { is_unsent_piece piece ≡ true }
        ensures ok { OnOk result (self.new ≡ self.old ++ piece ∷ []) }
        ensures err { OnErr result (self.new ≡ self.old) }
    {
        self.items.push_back(piece)?;
        Ok(())
    }

    /// Lets go of the pieces that end at or before this position.
    pub(crate) fn drop_covered(&mut self, pos: Pos)
        ensures { self.new ≡ uncovered_pieces pos self.old }
    {
        while self.is_first_covered(pos) {
            self.pop_first();
        }
    }

    /// Whether there is a first piece, and it ends at or before this position.
    fn is_first_covered(&self, pos: Pos) -> bool
        ensures { result ≡ first_is_covered pos self.now }
    {
        match self.items.front() {
            Some(first) => first.ends_by(pos),
            None => false,
        }
    }

    /// Lets go of the first piece.
    fn pop_first(&mut self)
        ensures { self.new ≡ drop 1 self.old }
    {
        if let Some(first) = self.items.pop_front() {
            self.sent_to = self.sent_to.saturating_sub(1);
            self.under_way -= first.under_way();
        }
    }

    /// The first piece, lent.
    pub(crate) fn first(&self) -> Option<RecordRef<'_>>
        ensures value { option_map record_of result ≡ slice_get (map piece_record self.now) 0 }
        ensures bound { IfSome result (λ found. length found.piece.now ≤ 65475) }
    {
        match self.items.front() {
            Some(first) => Some(first.lend()),
            None => None,
        }
    }

    /// The first piece that is to be sent, lent.
    pub(crate) fn first_unsent(&self) -> Option<RecordRef<'_>>
        ensures value { option_map record_of result ≡ find is_unsent (map piece_record self.now) }
        ensures bound { IfSome result (λ found. length found.piece.now ≤ 65475) }
    {
        let index = next_unsent(&self.items, self.sent_to);
        if index < self.items.len() {
            Some(self.items[index].lend())
        } else {
            None
        }
    }

    /// The piece at this position, lent.
    pub(crate) fn at(&self, pos: Pos) -> Option<RecordRef<'_>>
        ensures value { option_map record_of result ≡
            find (stands_at pos) (map piece_record self.now) }
        ensures bound { IfSome result (λ found. length found.piece.now ≤ 65475) }
    {
        piece_at(&self.items, pos)
    }

    /// The octets of the piece at this position, lent.
    pub(crate) fn text_at(&self, pos: Pos) -> Option<&Text>
        requires { IsNonDecreasingBy (λ p. p.pos) self.now }
        ensures { option_map (λ text. text.now) result ≡
            option_map octets_of (find (is_piece_at pos) (map piece_record self.now)) }
    {
        text_at(&self.items, pos)
    }

    /// How the last of the pieces that end at or before this position was sent; `None` where there is none.
    pub(crate) fn last_covered(&self, pos: Pos) -> Option<Sending>
        ensures { result ≡ option_map sending_of (last_covered pos (map piece_record self.now)) }
    {
        last_covered(&self.items, pos)
    }

    /// Sends the first piece that is to be sent. Answers whether there is one.
    pub(crate) fn send_unsent(&mut self, now: u64) -> bool
        requires { sum_by piece_len self.old < 2 ^ 63 }
        ensures sent { self.new ≡ sent_pieces now self.old }
        ensures some { result ≡ list_any is_unsent_piece self.old }
    {
        let index = next_unsent(&self.items, self.sent_to);
        if index == self.items.len() {
            return false;
        }
        self.send_at(index, now);
        true
    }

    /// Sends the first piece. Answers whether there is one.
    pub(crate) fn send_first(&mut self, now: u64) -> bool
        requires { sum_by piece_len self.old < 2 ^ 63 }
        ensures sent { map piece_record self.new ≡ first_sent now (map piece_record self.old) }
        ensures some { result ≡ not (length self.old == 0) }
    {
        if self.items.is_empty() {
            return false;
        }
        self.send_at(0, now);
        true
    }

    /// Sends the piece at this place, before which none is to be sent.
    fn send_at(&mut self, index: usize, now: u64)
        requires within { index < length self.old }
        requires before { (k : ℕ) (d : Piece) → k < index →
            is_unsent_piece (slice_index_or self.old k d) ≡ false }
        requires bound { sum_by piece_len self.old < 2 ^ 63 }
        ensures { (d : Piece) → self.new ≡
            set self.old index (sent_piece now (slice_index_or self.old index d)) }
    {
        let piece = &mut self.items[index];
        self.under_way -= piece.under_way();
        piece.sending = piece.sending.again(now);
        self.under_way += piece.bytes.len() as u64;
        self.sent_to = self.sent_to.max(index + 1);
    }

    /// Marks the first piece as the first one at an expiry, and every other one as to be sent. Answers whether there is
    /// one.
    pub(crate) fn expire_first(&mut self) -> bool
        ensures marked { map piece_record self.new ≡ expired_records (map piece_record self.old) }
        ensures some { result ≡ not (length self.old == 0) }
    {
        if self.items.is_empty() {
            return false;
        }
        let sending = self.items[0].sending.first_at_an_expiry();
        self.items[0].sending = sending;
        unsend_from(&mut self.items, 1);
        self.sent_to = self.sent_to.min(1);
        self.under_way = self.items[0].under_way();
        true
    }

    /// Marks each piece as to be sent.
    pub(crate) fn expire_all(&mut self)
        ensures { self.new ≡ map unsent_piece self.old }
    {
        unsend_from(&mut self.items, 0);
        self.sent_to = 0;
        self.under_way = 0;
    }

    /// How many octets of pieces are sent and not to be sent again, acknowledged or not.
    pub(crate) fn under_way(&self) -> u64
        ensures { result ≡ sum_by piece_under_way self.now }
    {
        self.under_way
    }

    /// How many octets of the first piece lie below this position, where it isn't to be sent.
    pub(crate) fn sent_below(&self, pos: Pos) -> u64
        ensures { result ≡ sent_below pos self.now }
    {
        match self.items.front() {
            Some(first) if !first.sending.unsent => pos.saturating_sub(first.pos),
            _ => 0,
        }
    }
}
