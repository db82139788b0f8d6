ghost use Rattle.std.specs.Prelude.{◌≡◌, ◌≤◌, length, IfOk};

use octet_text::Text;
use std::alloc::AllocError;
use std::marker::Model;

/// The octets of a piece, at most 65,475.
#[derive(Drop)]
pub(crate) struct Octets {
    text: Text,
}

impl Model for Octets {
    ghost use Rattle.std.specs.Prelude.{List, ℕ};

    ghost Value = { List ℕ };

    ghost use Rattle.std.specs.Prelude.{◌≤◌, length};

    ghost view = { λ octets. octets.text };

    ghost invariant = { λ octets. length octets.text ≤ 65475 };
}

impl Octets {
    /// The octets of a text, shared with it where it is shared.
    pub(crate) fn of(text: &Text) -> Result<Self, AllocError>
        requires { length text.now ≤ 65475 }
        ensures { IfOk result (λ octets. octets ≡ text.now) }
    {
        let text = text.copy()?;
        Ok(Octets { text })
    }

    /// The text of the octets, lent.
    pub(crate) fn as_text(&self) -> &Text
        ensures { result.now ≡ self.now }
    {
        &self.text
    }

    /// The octets, lent.
    pub(crate) fn as_bytes(&self) -> &[u8]
        ensures value { result.now ≡ self.now }
        ensures bound { length result.now ≤ 65475 }
    {
        self.text.as_bytes()
    }

    /// How many octets there are.
    pub(crate) fn len(&self) -> usize
        ensures { result ≡ length self.now }
    {
        self.text.len()
    }
}
