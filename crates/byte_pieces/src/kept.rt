ghost use Rattle.std.specs.Prelude.{◌≡◌, ◌+◌, ◌-◌, ◌^◌, ◌<◌, ◌≤◌, length, All, IfOk, OnOk, OnErr};
ghost use Rattle.std.specs.List.{concat};

use crate::changes::{
    count_bytes, count_fresh, counted, cut_pieces, drop_pieces, end_from, fresh_parts, put_pieces,
    side_by_side_end,
};
use crate::parts::Parts;
use crate::piece::Piece;
use bytes::Bytes;
use std::alloc::{AllocError, Global};
use std::collections::VecDeque;
use std::marker::Model;

/// The bytes that are kept from a position on. Contracts see that position, the list of the places from there on, each
/// with its byte or without one, and that list as it will be once the bytes that are held are kept too. Positions are at
/// most 2^62.
#[derive(Drop)]
pub struct BytePieces {
    alloc: Global,
    /// The first position that counts.
    from: u64,
    /// The first position without a byte.
    end: u64,
    /// The bytes in pieces: in order of their positions, none empty, and no position in two of them.
    pieces: VecDeque<Piece>,
    /// The parts of the bytes that are held, of which none stands in a piece. The pieces have room for them.
    incoming: Option<VecDeque<Piece>>,
}

impl Model for BytePieces {
    ghost use Rattle.byte_pieces.specs.Places.{PlacedBytes};

    ghost Value = { PlacedBytes };

    ghost use Rattle.std.specs.Prelude.{◌≡◌, ◌+◌, ◌^◌, ◌≤◌, IfSome};
    ghost use Rattle.std.specs.Option.{option_map};
    ghost use Rattle.std.specs.VecDeque.{deque_len, deque_capacity};
    ghost use Rattle.byte_pieces.specs.Pieces.{spread, AreOrdered, side_by_side_end, with_pieces};

    ghost view = { λ kept. record {
      from = kept.from;
      places = spread kept.from kept.pieces.items;
      incoming = option_map (λ parts. spread kept.from (with_pieces parts.items kept.pieces.items))
          kept.incoming;
    } };

    ghost invariant = { λ kept. AreOrdered kept.from (2 ^ 62) kept.pieces.items
        × IfSome kept.incoming
        (λ parts. AreOrdered kept.from (2 ^ 62) (with_pieces parts.items kept.pieces.items)
        × (deque_len kept.pieces + deque_len parts ≤ deque_capacity kept.pieces))
        × (kept.end ≡ side_by_side_end kept.from kept.pieces.items) };
}

impl BytePieces {
    ghost use Rattle.byte_pieces.specs.Places.{no_bytes, top, filled, gap_len, kept_count, after_put, after_hold, after_keep_held, without_held, after_drop_front, after_cut_back};

    /// No bytes, from this position on. Takes no memory.
    pub fn new(alloc: Global, from: u64) -> Self
        requires { from ≤ 2 ^ 62 }
        ensures { result ≡ no_bytes from }
    {
        BytePieces {
            alloc,
            from,
            end: from,
            pieces: VecDeque::new(alloc),
            incoming: None,
        }
    }

    /// The first position that counts.
    pub fn start(&self) -> u64
        ensures value { result ≡ self.now.from }
        ensures bound { result ≤ 2 ^ 62 }
    {
        self.from
    }

    /// The position after the last byte; the first one that counts where no byte is kept.
    pub fn top(&self) -> u64
        ensures value { result ≡ top self.now }
        ensures bound { result ≤ 2 ^ 62 }
    {
        match self.pieces.back() {
            Some(last) => last.end(),
            None => self.from,
        }
    }

    /// Keeps those of these bytes that stand at a position without one, and answers how many these are. The bytes are copied
    /// once. The first byte stands at the position `at`. Bytes below the first position that counts are passed over. What
    /// is held is let go.
    ///
    /// # Errors
    ///
    /// Only where there is no memory for them; then all is as it was.
    pub fn put(&mut self, at: u64, bytes: &[u8]) -> Result<u64, AllocError>
        requires { at + length bytes.now ≤ 2 ^ 62 }
        ensures ok { OnOk result (self.new ≡ after_put at bytes.now self.old) }
        ensures count { IfOk result (λ count. count + kept_count self.old.places ≡
            kept_count self.new.places) }
        ensures few { IfOk result (λ count. count ≤ length bytes.now) }
        ensures err { OnErr result (self.new ≡ self.old) }
    {
        let copied = Bytes::copy_from_slice(self.alloc, bytes)?;
        self.put_shared(at, &copied)
    }

    /// Keeps bytes as [`put`](BytePieces::put) does, and shares them: none is copied.
    ///
    /// # Errors
    ///
    /// Only where there is no memory for their pieces; then all is as it was.
    pub fn put_shared(&mut self, at: u64, bytes: &Bytes) -> Result<u64, AllocError>
        requires { at + length bytes.now ≤ 2 ^ 62 }
        ensures ok { OnOk result (self.new ≡ after_put at bytes.now self.old) }
        ensures count { IfOk result (λ count. count + kept_count self.old.places ≡
            kept_count self.new.places) }
        ensures few { IfOk result (λ count. count ≤ length bytes.now) }
        ensures err { OnErr result (self.new ≡ self.old) }
    {
        let rest = counted(self.from, at, bytes)?;
        let parts = fresh_parts(self.alloc, &self.pieces, self.from.max(at), rest)?;
        self.pieces.reserve(parts.len())?;
        self.incoming = None;
        let count = count_bytes(&parts);
        put_pieces(&mut self.pieces, parts);
        self.end = end_from(&self.pieces, self.end);
        Ok(count)
    }

    /// Holds these bytes beside what is kept, until [`keep_held`](BytePieces::keep_held) keeps them: those that stand at a
    /// position without one. The bytes are copied once. The first byte stands at the position `at`. What was held before
    /// is let go, and so are these bytes at any other change.
    ///
    /// # Errors
    ///
    /// Only where there is no memory for them; then all is as it was.
    pub fn hold(&mut self, at: u64, bytes: &[u8]) -> Result<(), AllocError>
        requires { at + length bytes.now ≤ 2 ^ 62 }
        ensures ok { OnOk result (self.new ≡ after_hold at bytes.now self.old) }
        ensures err { OnErr result (self.new ≡ self.old) }
    {
        let copied = Bytes::copy_from_slice(self.alloc, bytes)?;
        self.hold_shared(at, &copied)
    }

    /// Holds bytes as [`hold`](BytePieces::hold) does, and shares them: none is copied.
    ///
    /// # Errors
    ///
    /// Only where there is no memory for their pieces; then all is as it was.
    pub fn hold_shared(&mut self, at: u64, bytes: &Bytes) -> Result<(), AllocError>
        requires { at + length bytes.now ≤ 2 ^ 62 }
        ensures ok { OnOk result (self.new ≡ after_hold at bytes.now self.old) }
        ensures err { OnErr result (self.new ≡ self.old) }
    {
        let rest = counted(self.from, at, bytes)?;
        let parts = fresh_parts(self.alloc, &self.pieces, self.from.max(at), rest)?;
        self.pieces.reserve(parts.len())?;
        self.incoming = Some(parts);
        Ok(())
    }

    /// Keeps what is held, which then is held no longer. Takes no memory; where nothing is held, nothing changes.
    pub fn keep_held(&mut self)
        ensures { self.new ≡ after_keep_held self.old }
    {
        if let Some(parts) = self.incoming.take() {
            put_pieces(&mut self.pieces, parts);
            self.end = side_by_side_end(&self.pieces, self.from);
        }
    }

    /// Lets go of what is held.
    pub fn drop_held(&mut self)
        ensures { self.new ≡ without_held self.old }
    {
        self.incoming = None;
    }

    /// How many of these bytes [`BytePieces::put`] would keep, in time proportional to the number of pieces that they meet.
    pub fn count_new(&self, at: u64, bytes: &[u8]) -> u64
        requires { at + length bytes.now ≤ 2 ^ 62 }
        ensures { result + kept_count self.now.places ≡
            kept_count (after_put at bytes.now self.now).places }
    {
        let passed = bytes.len().min(self.from.saturating_sub(at) as usize);
        let first = self.from.max(at);
        count_fresh(&self.pieces, first, &bytes[passed..])
    }

    /// How many positions from the first one that counts on have no byte, up to the first one that has one. 0 where no byte is
    /// kept.
    pub fn gap_len(&self) -> u64
        ensures value { result ≡ gap_len self.now.places }
        ensures bound { self.now.from + result ≤ 2 ^ 62 }
    {
        match self.pieces.front() {
            Some(first) => first.at - self.from,
            None => 0,
        }
    }

    /// The bytes before the first position without one, lent part by part in order. No part is empty.
    pub fn in_order(&self) -> Parts<'_>
        ensures bytes { concat result ≡ filled self.now.places }
        ensures some { All (λ part. 0 < length part) result }
    {
        Parts::of(&self.pieces, self.from)
    }

    /// The first position without a byte.
    pub fn in_order_end(&self) -> u64
        ensures value { result ≡ self.now.from + length (filled self.now.places) }
        ensures bound { result ≤ 2 ^ 62 }
    {
        self.end
    }

    /// Lets the positions from `to` on count alone, and forgets the bytes below it, in time proportional to the number
    /// of their pieces. What is held is let go. Takes no memory.
    pub fn drop_front(&mut self, to: u64)
        requires order { self.old.from ≤ to }
        requires bound { to ≤ 2 ^ 62 }
        ensures { self.new ≡ after_drop_front to self.old }
    {
        self.incoming = None;
        drop_pieces(&mut self.pieces, to);
        self.from = to;
        if self.end < to {
            self.end = side_by_side_end(&self.pieces, to);
        }
    }

    /// Forgets the bytes at and past the position `to`, and what is held. Takes no memory.
    pub fn cut_back(&mut self, to: u64)
        requires { self.old.from ≤ to }
        ensures { self.new ≡ after_cut_back to self.old }
    {
        self.incoming = None;
        cut_pieces(&mut self.pieces, to);
        self.end = side_by_side_end(&self.pieces, self.from);
    }
}
