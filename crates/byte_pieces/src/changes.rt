//! What the calls do to the pieces that are kept.
ghost use Rattle.std.specs.Prelude.{◌≡◌, ◌+◌, ◌^◌, ◌<◌, ◌≤◌, ◌-◌, ◌++◌, ◌∷◌, length, drop, sum_by, IfOk, OnOk};
ghost use Rattle.std.specs.List.{insert};
ghost use Rattle.std.specs.List.Sorted.{IsNonDecreasingBy};
ghost use Rattle.std.specs.VecDeque.{deque_len, deque_capacity};
ghost use Rattle.byte_pieces.specs.Pieces.{AreOrdered, side_by_side_end, end_past, piece_len, piece_of, fresh, begun_before, with_piece, with_pieces, pieces_from, pieces_below, last_cut};

use crate::piece::Piece;
use bytes::Bytes;
use std::alloc::{AllocError, Global};
use std::collections::VecDeque;

/// Appends these bytes as a piece, if there are any.
fn push_part(parts: &mut VecDeque<Piece>, at: u64, bytes: Bytes) -> Result<(), AllocError>
    ensures { OnOk result (parts.new.items ≡ parts.old.items ++ piece_of at bytes) }
{
    if bytes.is_empty() {
        return Ok(());
    }
    parts.push_back(Piece { at, bytes })?;
    Ok(())
}

/// The bytes at the position `from` and past it, where the first one stands at the position `at`.
pub(crate) fn counted(from: u64, at: u64, bytes: &Bytes) -> Result<Bytes, AllocError>
    ensures { IfOk result (λ rest. rest ≡ drop (from - at) bytes.now) }
{
    let len = bytes.len();
    let passed = len.min(from.saturating_sub(at) as usize);
    bytes.slice(passed..len)
}

/// The parts of these bytes that stand in no piece. They share the bytes.
pub(crate) fn fresh_parts(
    alloc: Global,
    pieces: &VecDeque<Piece>,
    at: u64,
    bytes: Bytes,
) -> Result<VecDeque<Piece>, AllocError>
    requires { AreOrdered 0 (2 ^ 62) pieces.now.items }
    ensures { IfOk result (λ parts. parts.items ≡ fresh at bytes pieces.now.items) }
{
    let mut parts = VecDeque::new(alloc);
    let mut next = at;
    let mut rest = bytes;
    let first = begun_before(pieces, at).saturating_sub(1);
    for index in first..pieces.len() {
        if rest.is_empty() {
            return Ok(parts);
        }
        let piece = &pieces[index];
        let gap = rest.len().min(piece.at.saturating_sub(next) as usize);
        let known = rest.len().min(piece.end().saturating_sub(next) as usize);
        push_part(&mut parts, next, rest.slice(0..gap)?)?;
        rest.advance(known);
        next = next.max(piece.end());
    }
    push_part(&mut parts, next, rest)?;
    Ok(parts)
}

/// How many of these bytes stand in no piece.
pub(crate) fn count_fresh(pieces: &VecDeque<Piece>, at: u64, bytes: &[u8]) -> u64
    requires order { AreOrdered 0 (2 ^ 62) pieces.now.items }
    requires few { length bytes.now ≤ 2 ^ 62 }
    ensures { result ≡ sum_by piece_len (fresh at bytes.now pieces.now.items) }
{
    let mut count = 0;
    let mut next = at;
    let mut rest = bytes;
    let first = begun_before(pieces, at).saturating_sub(1);
    for index in first..pieces.len() {
        if rest.is_empty() {
            return count;
        }
        let piece = &pieces[index];
        let gap = rest.len().min(piece.at.saturating_sub(next) as usize);
        let known = rest.len().min(piece.end().saturating_sub(next) as usize);
        count += gap as u64;
        rest = &rest[known..];
        next = next.max(piece.end());
    }
    count + rest.len() as u64
}

/// How many bytes these pieces have.
pub(crate) fn count_bytes(pieces: &VecDeque<Piece>) -> u64
    requires { sum_by piece_len pieces.now.items < 2 ^ 63 }
    ensures { result ≡ sum_by piece_len pieces.now.items }
{
    let mut count = 0;
    for index in 0..pieces.len() {
        count += pieces[index].bytes.len() as u64;
    }
    count
}

/// Where the pieces that lie side by side from a position on end.
pub(crate) fn side_by_side_end(pieces: &VecDeque<Piece>, from: u64) -> u64
    requires { AreOrdered from (2 ^ 62) pieces.now.items }
    ensures { result ≡ side_by_side_end from pieces.now.items }
{
    let mut end = from;
    for index in 0..pieces.len() {
        let piece = &pieces[index];
        if piece.at != end {
            return end;
        }
        end = piece.end();
    }
    end
}

/// Where the pieces that lie side by side end, told from a position that they reach. Those that end before it aren't
/// looked at.
pub(crate) fn end_from(pieces: &VecDeque<Piece>, reached: u64) -> u64
    requires { AreOrdered 0 (2 ^ 62) pieces.now.items }
    ensures { result ≡ end_past reached pieces.now.items }
{
    let mut end = reached;
    let first = begun_before(pieces, reached).saturating_sub(1);
    for index in first..pieces.len() {
        let piece = &pieces[index];
        if end < piece.at {
            return end;
        }
        end = end.max(piece.end());
    }
    end
}

/// How many pieces begin before this position, found by halving.
fn begun_before(pieces: &VecDeque<Piece>, at: u64) -> usize
    requires { IsNonDecreasingBy (λ p. p.at) pieces.now.items }
    ensures value { result ≡ begun_before at pieces.now.items }
    ensures within { result ≤ deque_len pieces.now }
{
    pieces.partition_point(|piece| piece.at < at)
}

/// Puts a piece before the one at this index, for which there is room.
fn insert_at(pieces: &mut VecDeque<Piece>, index: usize, piece: Piece)
    requires index { index ≤ deque_len pieces.old }
    requires room { deque_len pieces.old < deque_capacity pieces.old }
    ensures items { pieces.new.items ≡ insert pieces.old.items index piece }
    ensures len { deque_len pieces.new ≡ deque_len pieces.old + 1 }
    ensures capacity { deque_capacity pieces.old ≤ deque_capacity pieces.new }
{
    match pieces.insert(index, piece) {
        Ok(()) => {}
        Err(_) => unreachable!(),
    }
}

/// Puts a piece where it belongs, for which there is room.
fn put_piece(pieces: &mut VecDeque<Piece>, piece: Piece)
    requires order { IsNonDecreasingBy (λ p. p.at) pieces.old.items }
    requires room { deque_len pieces.old < deque_capacity pieces.old }
    ensures items { pieces.new.items ≡ with_piece piece pieces.old.items }
    ensures order { IsNonDecreasingBy (λ p. p.at) pieces.new.items }
    ensures len { deque_len pieces.new ≡ deque_len pieces.old + 1 }
    ensures capacity { deque_capacity pieces.old ≤ deque_capacity pieces.new }
{
    let index = begun_before(pieces, piece.at);
    insert_at(pieces, index, piece);
}

/// Puts pieces where they belong, for all of which there is room.
pub(crate) fn put_pieces(pieces: &mut VecDeque<Piece>, mut parts: VecDeque<Piece>)
    requires order { IsNonDecreasingBy (λ p. p.at) pieces.old.items }
    requires room { deque_len pieces.old + deque_len parts ≤ deque_capacity pieces.old }
    ensures { pieces.new.items ≡ with_pieces parts.items pieces.old.items }
{
    while let Some(part) = parts.pop_front() {
        put_piece(pieces, part);
    }
}

/// Leaves out the bytes below this position.
pub(crate) fn drop_pieces(pieces: &mut VecDeque<Piece>, to: u64)
    ensures { pieces.new.items ≡ pieces_from to pieces.old.items }
{
    while let Some(first) = pieces.front() {
        if first.ends_past(to) {
            pieces[0].cut_front(to);
            return;
        }
        pieces.pop_front();
    }
}

/// Leaves out the bytes at or past this position.
pub(crate) fn cut_pieces(pieces: &mut VecDeque<Piece>, to: u64)
    requires { AreOrdered 0 (2 ^ 62) pieces.old.items }
    ensures { pieces.new.items ≡ pieces_below to pieces.old.items }
{
    let begun = begun_before(pieces, to);
    pieces.truncate(begun);
    cut_last(pieces, to);
}

/// Leaves out the bytes of the last piece that lie at or past this position.
fn cut_last(pieces: &mut VecDeque<Piece>, to: u64)
    ensures { pieces.new.items ≡ last_cut to pieces.old.items }
{
    let len = pieces.len();
    if len > 0 {
        pieces[len - 1].cut_end(to);
    }
}
