//! Octets in parts that are shared with the texts that they come from.

ghost use Rattle.std.specs.Prelude.{◌≡◌, [], ◌++◌, length, IfOk, OnOk, OnErr};
ghost use Rattle.std.specs.List.{concat};

use crate::text::Text;
use bytes::Bytes;
use std::alloc::{AllocError, Global};
use std::marker::Model;

/// Octets in order, in parts of which each is shared with the text that it comes from. Contracts see the list of the
/// octets of all parts.
#[derive(Drop)]
pub struct JoinedText {
    parts: Vec<Bytes>,
    /// How many octets there are.
    len: usize,
}

impl Model for JoinedText {
    ghost use Rattle.std.specs.Prelude.{◌≡◌, List, ℕ, length};
    ghost use Rattle.std.specs.List.{concat};

    ghost Value = { List ℕ };

    ghost view = { λ joined. concat joined.parts.items };

    ghost invariant = { λ joined. joined.len ≡ length (concat joined.parts.items) };
}

impl JoinedText {
    /// No octets, which takes no memory.
    pub fn new(alloc: Global) -> Self
        ensures { result ≡ [] }
    {
        JoinedText {
            parts: Vec::new(alloc),
            len: 0,
        }
    }

    /// Puts octets at the end, of which none is copied.
    ///
    /// # Errors
    ///
    /// Only where there is no memory for the part; then all is as it was.
    pub fn push(&mut self, part: Bytes) -> Result<(), AllocError>
        ensures ok { OnOk result (self.new ≡ self.old ++ part) }
        ensures err { OnErr result (self.new ≡ self.old) }
    {
        let Some(len) = self.len.checked_add(part.len()) else {
            return Err(AllocError);
        };
        self.parts.push(part)?;
        self.len = len;
        Ok(())
    }

    /// How many octets there are.
    pub fn len(&self) -> usize
        ensures { result ≡ length self.now }
    {
        self.len
    }

    /// The parts in order, lent.
    pub fn parts(&self) -> &[Bytes]
        ensures { concat result.now ≡ self.now }
    {
        self.parts.as_slice()
    }

    /// The octets in a vector of their own, each copied once.
    pub fn to_text(&self) -> Result<Text, AllocError>
        ensures { IfOk result (λ text. text ≡ self.now) }
    {
        let octets = gathered(*self.parts.allocator(), self.parts.as_slice(), self.len)?;
        Ok(Text::from(octets))
    }

    /// Another text with the same octets, which shares them.
    pub fn copy(&self) -> Result<Self, AllocError>
        ensures { IfOk result (λ copy. copy ≡ self.now) }
    {
        Ok(JoinedText {
            parts: self.parts.clone()?,
            len: self.len,
        })
    }
}

/// The octets of these parts, `len` in all, copied into a vector.
fn gathered(alloc: Global, parts: &[Bytes], len: usize) -> Result<Vec<u8>, AllocError>
    ensures { IfOk result (λ octets. octets.items ≡ concat parts.now) }
{
    let mut octets = Vec::with_capacity(alloc, len)?;
    for part in parts {
        octets.extend_from_slice(part.as_slice())?;
    }
    Ok(octets)
}
