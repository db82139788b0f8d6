//! The options that the handshakes and the close say, as a path's segments have them (RFC 8684, section 3).

ghost use Rattle.std.specs.Prelude.{◌≡◌};
ghost use Rattle.path_core.specs.Said.{options_by};
ghost use Rattle.path_core.specs.Unnumbered.{unnumbered};

use mptcp_options::MpOption;
use path_segments::{PathOption, SaidOption};

/// An option of the handshakes or of the close, as an end says it: one that has no number of a place.
pub(crate) fn unnumbered(option: MpOption<'static>) -> Option<SaidOption>
    ensures { options_by result ≡ unnumbered option.entry }
{
    match option {
        MpOption::Capable {
            flag_a,
            flag_c,
            keys,
        } => Some(PathOption::Capable {
            flag_a,
            flag_c,
            keys,
        }),
        MpOption::Join { form } => Some(PathOption::Join { form }),
        MpOption::FastClose { key } => Some(PathOption::FastClose { key }),
        MpOption::Reset { transient, reason } => Some(PathOption::Reset { transient, reason }),
        _ => None,
    }
}
