ghost use Rattle.std.specs.Prelude.{◌≡◌};
ghost use Rattle.data_close.specs.Said.{fast_close_option, reset_option};

use mptcp_options::MpOption;

/// The MP_FASTCLOSE, which ends the connection at once; `key` is the peer's (RFC 8684, section 3.5).
pub fn fast_close_option(key: u64) -> MpOption<'static>
    ensures { result ≡ fast_close_option key }
{
    MpOption::FastClose { key }
}

/// The MP_TCPRST of a reset: the reason, and that the fault won't pass (RFC 8684, section 3.6).
pub fn reset_option(reason: u8) -> MpOption<'static>
    ensures { result ≡ reset_option reason }
{
    MpOption::Reset {
        transient: false,
        reason,
    }
}
