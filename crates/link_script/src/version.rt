//! The two versions of scripts.

ghost use Rattle.std.specs.Prelude.{◌≡◌};
ghost use Rattle.link_script.specs.Versions.{has_rates, is_known, is_second, version_of};
ghost use Rattle.std.specs.List.{list_any};

use crate::script::ScriptLine;
use crate::word::Keyword;

/// The version that the header of a script tells.
#[derive(Clone, Copy, PartialEq, Eq)]
pub enum Version {
    First,
    /// With lines on rates, random loss and jitter.
    Second,
}

impl Version {
    /// Whether it has lines on rates, random loss and jitter.
    fn has_rates(self) -> bool
        ensures { result ≡ has_rates self }
    {
        match self {
            Version::First => false,
            Version::Second => true,
        }
    }

    /// Whether a line of this version may begin so.
    pub fn knows(self, keyword: Keyword) -> bool
        ensures { result ≡ is_known self keyword }
    {
        match keyword {
            Keyword::Rate | Keyword::Loss | Keyword::Jitter => self.has_rates(),
            _ => true,
        }
    }

    /// The first version that has all these lines.
    pub fn of(lines: &[ScriptLine]) -> Self
        ensures { result ≡ version_of lines.now }
    {
        if has_second(lines) {
            Version::Second
        } else {
            Version::First
        }
    }
}

/// Whether the first version lacks this line.
fn is_second(line: &ScriptLine) -> bool
    ensures { result ≡ is_second line.now }
{
    matches!(line, ScriptLine::OnDirection(_, _))
}

/// Whether the first version lacks one of these lines.
fn has_second(lines: &[ScriptLine]) -> bool
    ensures { result ≡ list_any is_second lines.now }
{
    lines.iter().any(|line| is_second(line))
}
