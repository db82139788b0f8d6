ghost use Rattle.std.specs.Prelude.{◌≡◌, ◌-◌, ◌≤◌, ◌++◌, ◌==◌, ◌↔◌, [], length, take, drop, IsTrue, IfOk, OnOk, OnErr};
ghost use Rattle.std.specs.Cmp.Lexicographic.{pointwise};
ghost use Rattle.octet_text.specs.Texts.{octets_of};

use bytes::Bytes;
use std::alloc::{AllocError, Global};
use std::marker::Model;

/// Where the octets of a text are.
#[derive(Drop)]
enum Octets {
    /// In a vector of its own.
    Owned(Vec<u8>),
    /// In a block that its copies and parts share.
    Shared(Bytes),
}

impl Octets {
    fn as_slice(&self) -> &[u8]
        ensures { result.now ≡ octets_of self.now }
    {
        match self {
            Octets::Owned(octets) => octets.as_slice(),
            Octets::Shared(octets) => octets.as_slice(),
        }
    }
}

/// Octets in order: a part of a stream, of a segment, or of a file. Contracts see the list of its octets, and two
/// texts are equal exactly where these lists are. A text that is shared gives copies and parts that share its octets.
#[derive(Drop)]
pub struct Text {
    alloc: Global,
    octets: Octets,
}

impl Model for Text {
    ghost use Rattle.std.specs.Prelude.{List, ℕ};

    ghost Value = { List ℕ };

    ghost use Rattle.octet_text.specs.Texts.{octets_of};

    ghost view = { λ text. octets_of text.octets };
}

impl Text {
    /// A text without octets, which takes no memory.
    pub fn new(alloc: Global) -> Self
        ensures { result ≡ [] }
    {
        Text {
            alloc,
            octets: Octets::Owned(Vec::new(alloc)),
        }
    }

    /// A copy of these octets, in a vector of its own.
    pub fn of(alloc: Global, bytes: &[u8]) -> Result<Self, AllocError>
        ensures { IfOk result (λ text. text ≡ bytes.now) }
    {
        let octets = Vec::from_slice(alloc, bytes)?;
        Ok(Text {
            alloc,
            octets: Octets::Owned(octets),
        })
    }

    /// The text of octets that are shared, which takes no memory.
    pub fn of_shared(alloc: Global, octets: Bytes) -> Self
        ensures { result ≡ octets }
    {
        shared(alloc, octets)
    }

    /// The octets, shared with this text where it is shared. Otherwise they are copied once.
    pub fn to_shared(&self) -> Result<Bytes, AllocError>
        ensures { IfOk result (λ octets. octets ≡ self.now) }
    {
        match &self.octets {
            Octets::Owned(octets) => Bytes::copy_from_slice(self.alloc, octets),
            Octets::Shared(octets) => octets.clone(),
        }
    }

    /// The octets, lent.
    pub fn as_bytes(&self) -> &[u8]
        ensures { result.now ≡ self.now }
    {
        self.octets.as_slice()
    }

    /// How many octets there are.
    pub fn len(&self) -> usize
        ensures { result ≡ length self.now }
    {
        self.as_bytes().len()
    }

    /// Whether there are no octets.
    pub fn is_empty(&self) -> bool
        ensures { result ≡ (length self.now == 0) }
    {
        self.as_bytes().is_empty()
    }

    /// Puts the octets at the end, or changes nothing where there is no memory for them. Shared octets are copied first.
    pub fn append(&mut self, bytes: &[u8]) -> Result<(), AllocError>
        ensures ok { OnOk result (self.new ≡ self.old ++ bytes.now) }
        ensures err { OnErr result (self.new ≡ self.old) }
    {
        match &mut self.octets {
            Octets::Owned(octets) => octets.extend_from_slice(bytes),
            Octets::Shared(octets) => {
                let mut own = Vec::from_slice(self.alloc, octets.as_slice())?;
                own.extend_from_slice(bytes)?;
                self.octets = Octets::Owned(own);
                Ok(())
            }
        }
    }

    /// A text whose copies and parts share its octets from now on. No octet is copied.
    pub fn share(self) -> Result<Self, AllocError>
        ensures { IfOk result (λ text. text ≡ self) }
    {
        let Text { alloc, octets } = self;
        match octets {
            Octets::Owned(octets) => Ok(shared(alloc, Bytes::from_vec(octets)?)),
            Octets::Shared(octets) => Ok(shared(alloc, octets)),
        }
    }

    /// Another text with the same octets, which shares them where this one is shared. Otherwise they are copied once, and
    /// the copy is shared.
    pub fn copy(&self) -> Result<Self, AllocError>
        ensures { IfOk result (λ text. text ≡ self.now) }
    {
        match &self.octets {
            Octets::Owned(octets) => {
                let copied = Bytes::copy_from_slice(self.alloc, octets)?;
                Ok(shared(self.alloc, copied))
            }
            Octets::Shared(octets) => Ok(shared(self.alloc, octets.clone()?)),
        }
    }

    /// The text of the octets from the place `from` up to the place `to`, which shares them where this one is shared.
    pub fn slice(&self, from: usize, to: usize) -> Result<Self, AllocError>
        requires order { from ≤ to }
        requires within { to ≤ length self.now }
        ensures { IfOk result (λ text. text ≡ take (to - from) (drop from self.now)) }
    {
        match &self.octets {
            Octets::Owned(octets) => {
                let copied = Bytes::copy_from_slice(self.alloc, &octets[from..to])?;
                Ok(shared(self.alloc, copied))
            }
            Octets::Shared(octets) => Ok(shared(self.alloc, octets.slice(from..to)?)),
        }
    }

    /// The octets as a vector, which takes no memory where the text is not shared.
    pub fn into_vec(self) -> Result<Vec<u8>, AllocError>
        ensures { IfOk result (λ octets. octets.items ≡ self) }
    {
        let Text { alloc, octets } = self;
        match octets {
            Octets::Owned(octets) => Ok(octets),
            Octets::Shared(octets) => Vec::from_slice(alloc, octets.as_slice()),
        }
    }
}

/// The text that shares these octets.
fn shared(alloc: Global, octets: Bytes) -> Text
    ensures { result ≡ octets }
{
    Text {
        alloc,
        octets: Octets::Shared(octets),
    }
}

impl From<Vec<u8>> for Text {
    ghost use Rattle.std.specs.Prelude.{◌≡◌};

    ghost from_gives = { λ bytes text. text ≡ bytes.items };

    /// The text of a vector's octets, which takes no memory.
    fn from(bytes: Vec<u8>) -> Self {
        Text {
            alloc: *bytes.allocator(),
            octets: Octets::Owned(bytes),
        }
    }
}

impl PartialEq for Text {
    ghost use Rattle.std.proofs.Common.{rules};
    ghost use Rattle.std.specs.Cmp.Rules.{comparing};

    ghost eq = { pointwise ◌==◌ };

    ghost laws = { Prim.search (comparing, rules) };

    fn eq(&self, other: &Self) -> bool
        ensures comparison { result ≡ pointwise ◌==◌ self.now other.now }
        ensures same { IsTrue result ↔ (self.now ≡ other.now) }
    {
        self.as_bytes() == other.as_bytes()
    }
}

impl Eq for Text {
    ghost use Rattle.std.proofs.Common.{rules};
    ghost use Rattle.std.specs.Cmp.Rules.{comparing};

    ghost laws = { Prim.search (comparing, rules) };
}
