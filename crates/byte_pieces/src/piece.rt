ghost use Rattle.std.specs.Prelude.{◌≡◌, ◌^◌, ◌<◌, ◌≤◌, ◌↔◌, IsTrue};
ghost use Rattle.byte_pieces.specs.Pieces.{end_of, cut_front, cut_end};

use bytes::Bytes;

/// Bytes that stand side by side.
#[derive(Drop)]
pub(crate) struct Piece {
    /// The position of the first byte.
    pub(crate) at: u64,
    /// The bytes, at least one.
    pub(crate) bytes: Bytes,
}

impl Piece {
    /// The position after the last byte.
    pub(crate) fn end(&self) -> u64
        requires { end_of self.now ≤ 2 ^ 62 }
        ensures { result ≡ end_of self.now }
    {
        self.at + self.bytes.len() as u64
    }
    /// Whether a byte stands at or past this position.
    pub(crate) fn ends_past(&self, to: u64) -> bool
        ensures { IsTrue result ↔ (to < end_of self.now) }
    {
        to < self.at || to - self.at < self.bytes.len() as u64
    }

    /// Leaves out the bytes below this position, which isn't past the last one.
    pub(crate) fn cut_front(&mut self, to: u64)
        requires { to ≤ end_of self.old }
        ensures { self.new ≡ cut_front to self.old }
    {
        let count = to.saturating_sub(self.at);
        self.bytes.advance(count as usize);
        self.at += count;
    }

    /// Leaves out the bytes at or past this position.
    pub(crate) fn cut_end(&mut self, to: u64)
        ensures { self.new ≡ cut_end to self.old }
    {
        self.bytes.truncate(to.saturating_sub(self.at) as usize);
    }
}
