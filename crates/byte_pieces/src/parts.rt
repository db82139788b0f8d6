//! Bytes that are lent part by part.
ghost use Rattle.std.specs.Prelude.{◌≡◌, ◌^◌};
ghost use Rattle.std.specs.Iterator.{YieldsFirstBy, item_count};
ghost use Rattle.byte_pieces.specs.Pieces.{AreBounded, side_by_side};

use crate::piece::Piece;
use bytes::Bytes;
use std::collections::VecDeque;
use std::marker::Model;

/// Bytes that stand side by side, lent part by part in order. Contracts see the list of the parts that are left, each
/// the list of its bytes.
#[derive(Drop)]
pub struct Parts<'a> {
    pieces: &'a VecDeque<Piece>,
    /// How many of the pieces were given.
    index: usize,
    /// The position that the next part begins at.
    at: u64,
}

impl<'a> Model for Parts<'a> {
    ghost use Rattle.std.specs.Prelude.{ℕ, List};

    ghost Value = { List (List ℕ) };

    ghost use Rattle.std.specs.Prelude.{◌^◌, drop};
    ghost use Rattle.byte_pieces.specs.Pieces.{AreBounded, side_by_side};

    ghost view = { λ parts. side_by_side parts.at (drop parts.index parts.pieces.now.items) };

    ghost invariant = { λ parts. AreBounded (2 ^ 62) (drop parts.index parts.pieces.now.items) };
}

impl<'a> Parts<'a> {
    /// The pieces that lie side by side from this position on.
    pub(crate) fn of(pieces: &'a VecDeque<Piece>, at: u64) -> Self
        requires { AreBounded (2 ^ 62) pieces.now.items }
        ensures { result ≡ side_by_side at pieces.now.items }
    {
        Parts {
            pieces,
            index: 0,
            at,
        }
    }
}

impl<'a> Iterator for Parts<'a> {
    type Item = &'a Bytes;

    ghost next_gives = { YieldsFirstBy (λ part. part.now) (λ parts. parts) };

    ghost remaining = { item_count (λ parts. parts) };

    fn next(&mut self) -> Option<&'a Bytes> {
        if self.index >= self.pieces.len() {
            return None;
        }
        let piece = &self.pieces[self.index];
        if piece.at != self.at {
            return None;
        }
        self.index += 1;
        self.at = piece.end();
        Some(&piece.bytes)
    }
}
