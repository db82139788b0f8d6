//! The pieces that were granted to an end and aren't acknowledged whole.

ghost use Rattle.std.specs.Prelude.{◌≡◌, ◌<◌, ◌++◌, ◌∷◌, [], false, ◌==◌, List, max, drop, IsTrue, OnOk, OnErr, filter, find, option_map};
ghost use Rattle.std.specs.List.{list_any};
ghost use Rattle.std.specs.VecDeque.{deque_len};
ghost use Rattle.path_store.specs.declared.granted_piece.GrantedPiece.{GrantedPiece};
ghost use Rattle.path_store.specs.Granted.{is_all_acknowledged, is_newly_heard, is_open, granted_to, has_place, behind, follows, rises_from, is_tail, position_of};
ghost use Rattle.path_store.specs.Rising.{Rise};

use crate::granted_piece::GrantedPiece;
use seq_units::Pos;
use std::alloc::{AllocError, Global};
use std::collections::VecDeque;
use std::marker::Model;

/// Pieces in the order in which they were granted. That is the order of their places unless some were granted again after
/// a path died.
#[derive(Drop)]
pub struct GrantedPieces {
    pieces: VecDeque<GrantedPiece>,
    /// None of them begins or ends before one that was granted earlier.
    rise: bool,
}

impl Model for GrantedPieces {
    ghost use Rattle.std.specs.Prelude.{List, IsTrue};
    ghost use Rattle.path_store.specs.declared.granted_piece.GrantedPiece.{GrantedPiece};
    ghost use Rattle.path_store.specs.Rising.{Rise};

    ghost Value = { List GrantedPiece };

    ghost view = { λ s. s.pieces.items };

    ghost invariant = { λ s. IsTrue s.rise → Rise s.pieces.items };
}

impl GrantedPieces {
    /// No pieces are granted. Takes no memory.
    pub fn new(alloc: Global) -> Self
        ensures { result ≡ [] }
    {
        GrantedPieces {
            pieces: VecDeque::new(alloc),
            rise: true,
        }
    }

    /// Whether there is none.
    pub fn is_empty(&self) -> bool
        ensures { result ≡ is_all_acknowledged self.now }
    {
        self.pieces.is_empty()
    }

    /// Puts a piece behind the others.
    ///
    /// # Errors
    ///
    /// Only where there is no memory for it; all is then as it was.
    pub fn push(&mut self, piece: GrantedPiece) -> Result<(), AllocError>
        ensures ok { OnOk result (self.new ≡ self.old ++ piece ∷ []) }
        ensures err { OnErr result (self.new ≡ self.old) }
    {
        let rises = self.rise && rises_to(&self.pieces, &piece);
        if self.pieces.push_back(piece).is_err() {
            return Err(AllocError);
        }
        self.rise = rises;
        Ok(())
    }

    /// Takes the last piece away, if there is one.
    pub fn pop(&mut self)
        ensures last { (before : List GrantedPiece) (last : GrantedPiece) → self.old ≡
            before ++ last ∷ [] → self.new ≡ before }
        ensures none { self.old ≡ [] → self.new ≡ [] }
    {
        self.pieces.pop_back();
    }

    /// The place behind the last byte of these pieces.
    pub fn granted_to(&self) -> u64
        ensures { result ≡ granted_to self.now }
    {
        let (first, second) = self.pieces.as_slices();
        granted_to(first).max(granted_to(second))
    }

    /// Whether positions and places of these pieces follow one another, up to this position.
    pub fn is_tail(&self, end: Pos) -> bool
        ensures { result ≡ is_tail self.now end }
    {
        match self.pieces.front() {
            Some(first) => rises_from(*first, &self.pieces, end),
            None => true,
        }
    }

    /// The position of a place; the next position, where none of these pieces has it.
    pub fn position_of(&self, next: Pos, place: u64) -> Pos
        ensures { result ≡ position_of next place self.now }
    {
        match piece_with(&self.pieces, place) {
            Some(piece) => {
                let behind = place.saturating_sub(piece.from);
                piece.position.saturating_add(behind)
            }
            None => next,
        }
    }

    /// A place of one of these pieces wasn't acknowledged before, and is now.
    pub fn has_newly_heard(&self, heard: u64, next: u64) -> bool
        ensures { result ≡ list_any (is_newly_heard heard next) self.now }
    {
        if self.rise {
            first_is_newly_heard(&self.pieces, heard, next)
        } else {
            one_is_newly_heard(&self.pieces, heard, next)
        }
    }

    /// Lets go of the pieces that are acknowledged whole.
    pub fn let_go(&mut self, heard: u64)
        ensures { self.new ≡ filter (is_open heard) self.old }
    {
        if self.rise {
            drop_acknowledged(&mut self.pieces, heard);
            return;
        }
        keep_open(&mut self.pieces, heard);
        self.rise = self.pieces.is_empty();
    }
}

/// Whether the piece neither begins nor ends before the last of these.
fn rises_to(pieces: &VecDeque<GrantedPiece>, piece: &GrantedPiece) -> bool
    ensures { IsTrue result → Rise pieces.now.items → Rise (pieces.now.items ++ piece.now ∷ []) }
{
    match pieces.back() {
        Some(last) => last.from <= piece.from && last.to <= piece.to,
        None => true,
    }
}

/// The place behind the last byte of these pieces.
fn granted_to(granted: &[GrantedPiece]) -> u64
    ensures { result ≡ granted_to granted.now }
{
    let mut to = 0;
    for piece in granted {
        to = piece.to.max(to);
    }
    to
}

/// A place of one of these pieces wasn't acknowledged before, and is now. Where they rise the first one tells it.
fn first_is_newly_heard(pieces: &VecDeque<GrantedPiece>, heard: u64, next: u64) -> bool
    requires { Rise pieces.now.items }
    ensures { result ≡ list_any (is_newly_heard heard next) pieces.now.items }
{
    match pieces.front() {
        Some(first) => is_newly_heard(heard, next, first),
        None => false,
    }
}

/// A place of one of these pieces wasn't acknowledged before, and is now.
fn one_is_newly_heard(pieces: &VecDeque<GrantedPiece>, heard: u64, next: u64) -> bool
    ensures { result ≡ list_any (is_newly_heard heard next) pieces.now.items }
{
    pieces
        .iter()
        .any(|piece| is_newly_heard(heard, next, piece))
}

/// A place of the piece wasn't acknowledged before, and is now.
fn is_newly_heard(heard: u64, next: u64, piece: &GrantedPiece) -> bool
    ensures { result ≡ is_newly_heard heard next piece.now }
{
    piece.from.max(heard) < next
}

/// The place is one of the piece's.
fn has_place(place: u64, piece: &GrantedPiece) -> bool
    ensures { result ≡ has_place place piece.now }
{
    piece.from <= place && place < piece.to
}

/// The first of the pieces that has this place.
fn piece_with(pieces: &VecDeque<GrantedPiece>, place: u64) -> Option<&GrantedPiece>
    ensures { option_map (λ piece. piece.now) result ≡ find (has_place place) pieces.now.items }
{
    pieces.iter().find(|piece| has_place(place, piece))
}

/// The piece stands before this position.
fn ends_at(piece: GrantedPiece, end: Pos) -> bool
    ensures { result ≡ (behind piece == end) }
{
    let octets = piece.to.saturating_sub(piece.from);
    piece.position.checked_add(octets) == Some(end)
}

/// Position and place of a piece are those behind the one before it.
fn follows(before: GrantedPiece, piece: GrantedPiece) -> bool
    ensures { result ≡ follows before piece }
{
    ends_at(before, piece.position) && piece.from == before.to
}

/// Each of these pieces but the first follows the one before it, and the last one stands before this position.
fn rises_from(first: GrantedPiece, pieces: &VecDeque<GrantedPiece>, end: Pos) -> bool
    ensures { result ≡ rises_from first (drop 1 pieces.now.items) end }
{
    let mut before = first;
    for index in 1..pieces.len() {
        let piece = pieces[index];
        if !follows(before, piece) {
            return false;
        }
        before = piece;
    }
    ends_at(before, end)
}

/// The first of the pieces is acknowledged whole.
fn is_first_acknowledged(pieces: &VecDeque<GrantedPiece>, heard: u64) -> bool
    requires { Rise pieces.now.items }
    ensures some { IsTrue result → 0 < deque_len pieces.now }
    ensures more { IsTrue result → filter (is_open heard) (drop 1 pieces.now.items) ≡
        filter (is_open heard) pieces.now.items }
    ensures none { result ≡ false → filter (is_open heard) pieces.now.items ≡ pieces.now.items }
{
    match pieces.front() {
        Some(first) => !is_open(heard, first),
        None => false,
    }
}

/// Lets go of the pieces that are acknowledged whole: where they rise, these are the first ones.
fn drop_acknowledged(pieces: &mut VecDeque<GrantedPiece>, heard: u64)
    requires { Rise pieces.old.items }
    ensures open { pieces.new.items ≡ filter (is_open heard) pieces.old.items }
    ensures rise { Rise pieces.new.items }
{
    while is_first_acknowledged(pieces, heard) {
        pieces.pop_front();
    }
}

/// Lets go of the pieces that are acknowledged whole.
fn keep_open(pieces: &mut VecDeque<GrantedPiece>, heard: u64)
    ensures { pieces.new.items ≡ filter (is_open heard) pieces.old.items }
{
    pieces.retain(|piece| is_open(heard, piece));
}

/// The piece isn't acknowledged whole.
fn is_open(heard: u64, piece: &GrantedPiece) -> bool
    ensures { result ≡ is_open heard piece.now }
{
    heard < piece.to
}
