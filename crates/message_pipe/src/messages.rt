ghost use Rattle.std.specs.Prelude.{◌≡◌, ◌^◌, ◌<◌, ◌++◌, [], length, IfOk, IfSome, OnOk, OnErr};

use crate::framing::first_message;
use octet_text::Text;
use std::alloc::{AllocError, Global};
use std::marker::Model;

/// The messages of a stream whose octets come in pieces, however they were cut. Contracts see the octets that it holds: those
/// that were fed, without the frames of the messages that were given.
#[derive(Drop)]
pub struct Messages {
    octets: Vec<u8>,
    /// Where the octets that are held begin.
    start: usize,
}

impl Model for Messages {
    ghost use Rattle.std.specs.Prelude.{◌≤◌, List, ℕ, length, drop};

    ghost Value = { List ℕ };

    ghost view = { λ messages. drop messages.start messages.octets.items };

    ghost invariant = { λ messages. messages.start ≤ length messages.octets.items };
}

impl Messages {
    ghost use Rattle.message_pipe.specs.Frames.{frame_of, first_message, behind_first};

    /// No octet yet. It takes no memory.
    pub fn new(alloc: Global) -> Self
        ensures { result ≡ [] }
    {
        Messages {
            octets: Vec::new(alloc),
            start: 0,
        }
    }

    /// Puts a piece of the stream behind the octets that are held. Where there is no memory for it, they are as they were.
    pub fn feed(&mut self, piece: &[u8]) -> Result<(), AllocError>
        ensures ok { OnOk result (self.new ≡ self.old ++ piece.now) }
        ensures err { OnErr result (self.new ≡ self.old) }
    {
        self.let_go();
        self.octets.extend_from_slice(piece)
    }

    /// The first message, taken out of the octets that are held where they begin with a whole frame; `None` exactly where they
    /// don't. Where there is no memory for it, they are as they were.
    pub fn next(&mut self) -> Result<Option<Text>, AllocError>
        ensures given { IfOk result (λ found. found ≡ first_message self.old) }
        ensures ok { OnOk result (self.new ≡ behind_first self.old) }
        ensures whole { IfOk result
            (λ found. IfSome found (λ message. self.old ≡ frame_of message ++ self.new)) }
        ensures short { IfOk result (λ found. IfSome found (λ message. length message < 2 ^ 32)) }
        ensures err { OnErr result (self.new ≡ self.old) }
    {
        let Some(message) = first_message(&self.octets[self.start..]) else {
            return Ok(None);
        };
        let length = message.len();
        let text = Text::of(*self.octets.allocator(), message)?;
        self.start += 4 + length;
        Ok(Some(text))
    }

    /// The octets that are held.
    pub fn rest(&self) -> &[u8]
        ensures { result.now ≡ self.now }
    {
        &self.octets[self.start..]
    }

    /// Lets go of the octets of messages that were given, once they are more than those that are held.
    fn let_go(&mut self)
        ensures { self.new ≡ self.old }
    {
        if self.start > self.octets.len() / 2 {
            self.octets.drain(..self.start);
            self.start = 0;
        }
    }
}
