//! What never changes at a path.

ghost use Rattle.std.specs.Prelude.{◌≡◌, ◌≤◌};

use path_segments::Spelling;
use std::marker::Model;

/// What never changes at a path.
#[derive(Drop)]
pub(crate) struct Profile {
    /// Octets of the maximum segment size.
    mss: u16,
    /// Octets that each side buffers.
    buffer: u32,
    /// Whether the path is a backup, as the script has it.
    backup: bool,
    /// How its segments are said.
    spelling: Spelling,
}

impl Model for Profile {
    ghost use Rattle.std.specs.Prelude.{◌≤◌, ◌^◌};
    ghost use Rattle.path_core.specs.Profile.{Profile};

    ghost Value = { Profile };

    ghost view = { λ c.
        record { mss = c.mss; buffer = c.buffer; backup = c.backup; spelling = c.spelling } };

    ghost invariant = { λ c. (200 ≤ c.mss) × (c.mss ≤ 1460) × (c.buffer ≤ 2 ^ 20) ×
        (c.spelling.path ≤ 15) };
}

impl Profile {
    ghost use Rattle.path_core.specs.Emission.{payload_size};

    /// A profile of a maximum segment size of 200 to 1,460 octets, and a buffer of at most 1,048,576 octets, on a path of number
    /// 15 or less.
    pub(crate) fn new(mss: u16, buffer: u32, backup: bool, spelling: Spelling) -> Self
        requires least { 200 ≤ mss }
        requires most { mss ≤ 1460 }
        requires buffer { buffer ≤ 1048576 }
        requires path { spelling.path ≤ 15 }
        ensures { result ≡
            record { mss = mss; buffer = buffer; backup = backup; spelling = spelling } }
    {
        Profile {
            mss,
            buffer,
            backup,
            spelling,
        }
    }

    /// Octets of the maximum segment size.
    pub(crate) fn mss(&self) -> u16
        ensures value { result ≡ self.now.mss }
        ensures least { 200 ≤ result }
        ensures most { result ≤ 1460 }
    {
        self.mss
    }

    /// Octets that each side buffers.
    pub(crate) fn buffer(&self) -> u32
        ensures value { result ≡ self.now.buffer }
        ensures bound { result ≤ 1048576 }
    {
        self.buffer
    }

    /// Whether the path is a backup, as the script has it.
    pub(crate) fn is_backup(&self) -> bool
        ensures { result ≡ self.now.backup }
    {
        self.backup
    }

    /// How the path's segments are said.
    pub(crate) fn spelling(&self) -> &Spelling
        ensures value { result.now ≡ self.now.spelling }
        ensures path { result.now.path ≤ 15 }
    {
        &self.spelling
    }

    /// Octets of the payload of a full segment: MSS less 28, which the longest option of a segment with data takes.
    pub(crate) fn payload_size(&self) -> u32
        ensures value { result ≡ payload_size self.now }
        ensures least { 1 ≤ result }
        ensures bound { result ≤ 1432 }
    {
        u32::from(self.mss - 28)
    }
}
