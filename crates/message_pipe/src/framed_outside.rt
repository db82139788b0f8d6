//! An outside over another one, two of whose files are read as the frames of their lines.

ghost use Rattle.std.specs.Prelude.{◌≡◌, string_bytes};

use crate::line_outside::load_from;
use outside_kit::{LoadFault, Outside, Port, PutFault};
use std::alloc::Global;
use std::marker::Model;

/// An outside over another one. Of two names the content is the frames of the lines of what the outside below has. All else is the
/// outside below, whose calls it doesn't tell.
pub struct FramedOutside<O: Outside> {
    inner: O,
    file_a: String,
    file_b: String,
}

impl<O: Outside> Model for FramedOutside<O> {
    ghost use Rattle.std.specs.Prelude.{string_bytes};
    ghost use Rattle.message_pipe.specs.FramedFiles.{Framed};

    ghost Value = { Framed O };

    ghost view = { λ framed. record {
      inner = framed.inner;
      file_a = string_bytes framed.file_a;
      file_b = string_bytes framed.file_b;
    } };
}

impl<O: Outside> FramedOutside<O> {
    /// Over this outside, with frames for the lines in the contents of these two names.
    pub fn new(inner: O, file_a: String, file_b: String) -> Self
        ensures { result ≡ record {
          inner = inner;
          file_a = string_bytes file_a;
          file_b = string_bytes file_b;
        } }
    {
        FramedOutside {
            inner,
            file_a,
            file_b,
        }
    }

    /// The outside below, as it stands.
    pub fn into_inner(self) -> O
        ensures { result ≡ self.inner }
    {
        let FramedOutside {
            inner,
            file_a: _,
            file_b: _,
        } = self;
        inner
    }
}

impl<O: Outside> Outside for FramedOutside<O> {
    ghost use Rattle.message_pipe.specs.Lined.{framed_told};

    ghost told = { λ framed. framed_told framed.file_a framed.file_b (O.told framed.inner) };

    fn load(&mut self, alloc: Global, name: &str, limit: u64) -> Result<Vec<u8>, LoadFault> {
        let lined = (self.file_a.as_str(), self.file_b.as_str());
        load_from(alloc, &mut self.inner, lined, name, limit)
    }

    fn bind(&mut self, port: Port, name: &str) -> Result<(), PutFault> {
        self.inner.bind(port, name)
    }

    fn put(&mut self, port: Port, piece: &[u8]) -> Result<(), PutFault> {
        self.inner.put(port, piece)
    }
}
