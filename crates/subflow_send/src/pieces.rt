//! The data pieces of a sending side, in order of their positions.
ghost use Rattle.std.specs.Prelude.{◌≡◌, ℕ, ◌<◌, ◌≤◌, ◌++◌, true, false, take, drop, length, map, find, IfSome, nat_le};
ghost use Rattle.std.specs.Prelude.{slice_index_or};
ghost use Rattle.std.specs.List.Sorted.{IsNonDecreasingBy};
ghost use Rattle.std.specs.Option.{option_map};
ghost use Rattle.subflow_send.specs.Records.{record_of};
ghost use Rattle.subflow_send.specs.Rules.{stands_at, is_piece_at, octets_of, last_covered};
ghost use Rattle.subflow_send.specs.Sendings.{sent_again, first_at_an_expiry};
ghost use Rattle.subflow_send.specs.Pieces.{piece_record, piece_end, piece_under_way, is_unsent_piece, unsent_piece, sending_of};

use crate::octets::Octets;
use crate::record::{RecordKind, RecordRef, Sending};
use octet_text::Text;
use seq_units::{Mapping, Pos};
use std::collections::VecDeque;

/// Octets that were pushed together.
#[derive(Drop)]
pub(crate) struct Piece {
    /// The position of the first octet.
    pub(crate) pos: Pos,
    /// The octets, at least one.
    pub(crate) bytes: Octets,
    /// The mapping that they were pushed with.
    pub(crate) mapping: Mapping,
    /// How they were sent.
    pub(crate) sending: Sending,
}

impl Piece {
    /// The record of this piece, lent.
    pub(crate) fn lend(&self) -> RecordRef<'_>
        ensures value { record_of result ≡ piece_record self.now }
        ensures bound { length result.piece.now ≤ 65475 }
    {
        RecordRef {
            pos: self.pos,
            kind: RecordKind::Data,
            piece: self.bytes.as_bytes(),
            mapping: self.mapping,
            sending: self.sending,
        }
    }

    /// How many of its octets are under way: none where it is to be sent.
    pub(crate) fn under_way(&self) -> u64
        ensures { result ≡ piece_under_way self.now }
    {
        if self.sending.unsent {
            0
        } else {
            self.bytes.len() as u64
        }
    }

    /// Whether it ends at or before this position.
    pub(crate) fn ends_by(&self, pos: Pos) -> bool
        ensures { result ≡ nat_le (piece_end self.now) pos }
    {
        self.pos <= pos && self.bytes.len() as u64 <= pos - self.pos
    }
}

impl Sending {
    /// A record that was never sent, and is to be sent.
    pub(crate) const NEVER: Sending = Sending {
        times: 0,
        first: 0,
        unsent: true,
        first_at_expiry: false,
    };

    /// Another sending, at the tick `now`.
    pub(crate) fn again(self, now: u64) -> Sending
        ensures { result ≡ sent_again now self }
    {
        Sending {
            times: self.times.saturating_add(1),
            first: if self.times == 0 { now } else { self.first },
            unsent: false,
            first_at_expiry: self.first_at_expiry,
        }
    }

    /// A record that was the first one at an expiry.
    pub(crate) fn first_at_an_expiry(self) -> Sending
        ensures { result ≡ first_at_an_expiry self }
    {
        Sending {
            first_at_expiry: true,
            ..self
        }
    }
}

/// The place of the first piece from the place `from` on that is to be sent, and the number of pieces where there is none.
pub(crate) fn next_unsent(pieces: &VecDeque<Piece>, from: usize) -> usize
    requires within { from ≤ length pieces.now.items }
    requires sent { (k : ℕ) (d : Piece) → k < from →
        is_unsent_piece (slice_index_or pieces.now.items k d) ≡ false }
    ensures within { result ≤ length pieces.now.items }
    ensures before { (k : ℕ) (d : Piece) → k < result →
        is_unsent_piece (slice_index_or pieces.now.items k d) ≡ false }
    ensures here { (d : Piece) → result < length pieces.now.items →
        is_unsent_piece (slice_index_or pieces.now.items result d) ≡ true }
{
    for index in from..pieces.len() {
        if pieces[index].sending.unsent {
            return index;
        }
    }
    pieces.len()
}

/// The piece at this position, lent.
pub(crate) fn piece_at(pieces: &VecDeque<Piece>, pos: Pos) -> Option<RecordRef<'_>>
    ensures value { option_map record_of result ≡
        find (stands_at pos) (map piece_record pieces.now.items) }
    ensures bound { IfSome result (λ found. length found.piece.now ≤ 65475) }
{
    for index in 0..pieces.len() {
        let found = &pieces[index];
        if found.pos == pos {
            return Some(found.lend());
        }
    }
    None
}

/// How many pieces begin before this position, found by halving.
fn begun_before(pieces: &VecDeque<Piece>, pos: Pos) -> usize
    requires { IsNonDecreasingBy (λ p. p.pos) pieces.now.items }
    ensures within { result ≤ length pieces.now.items }
    ensures before { (k : ℕ) (d : Piece) → k < result →
        (slice_index_or pieces.now.items k d).pos < pos }
    ensures behind { (k : ℕ) (d : Piece) → result ≤ k → k < length pieces.now.items →
        pos ≤ (slice_index_or pieces.now.items k d).pos }
{
    pieces.partition_point(|piece| piece.pos < pos)
}

/// The octets of the piece at this position, lent.
pub(crate) fn text_at(pieces: &VecDeque<Piece>, pos: Pos) -> Option<&Text>
    requires { IsNonDecreasingBy (λ p. p.pos) pieces.now.items }
    ensures { option_map (λ text. text.now) result ≡
        option_map octets_of (find (is_piece_at pos) (map piece_record pieces.now.items)) }
{
    let index = begun_before(pieces, pos);
    if index == pieces.len() {
        return None;
    }
    let found = &pieces[index];
    if found.pos != pos {
        return None;
    }
    Some(found.bytes.as_text())
}

/// Marks each piece from this index on as to be sent.
pub(crate) fn unsend_from(pieces: &mut VecDeque<Piece>, from: usize)
    ensures { pieces.new.items ≡
        take from pieces.old.items ++ map unsent_piece (drop from pieces.old.items) }
{
    for index in from..pieces.len() {
        pieces[index].sending.unsent = true;
    }
}

/// How the last of the pieces that end at or before this position was sent; `None` where there is none.
pub(crate) fn last_covered(pieces: &VecDeque<Piece>, pos: Pos) -> Option<Sending>
    ensures { result ≡
        option_map sending_of (last_covered pos (map piece_record pieces.now.items)) }
{
    let mut last = None;
    for index in 0..pieces.len() {
        let piece = &pieces[index];
        if pos < piece.pos || pos - piece.pos < piece.bytes.len() as u64 {
            return last;
        }
        last = Some(piece.sending);
    }
    last
}
