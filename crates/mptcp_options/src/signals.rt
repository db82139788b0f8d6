ghost use Rattle.std.specs.Prelude.{◌≡◌, Bool};
ghost use Rattle.mptcp_options.specs.Value.{meaning_of, LendsIds};
ghost use Rattle.mptcp_options.specs.Signals.{prio_body, fail_body, fast_close_body, reset_body};
ghost use Rattle.mptcp_options.specs.Meaning.{IsFramed, subtype, option_meaning};

use crate::body::{Body, flag_if, joined};
use crate::fields::u64_at;
use crate::option::{MpOption, Read};
use crate::subtype::{MP_FAIL, MP_FASTCLOSE, MP_PRIO, MP_TCPRST};

/// The flag in the subtype's octet: B of MP_PRIO, T of MP_TCPRST.
const LOW_FLAG: u8 = 0x01;

/// Reads an MP_PRIO of 3 octets (RFC 8684, section 3.3.8).
#[tactic(auto, using(crate::proofs::SignalMeaning::option_meaning_prio))]
pub fn read_prio(option: &[u8]) -> Read<'_>
    requires framed { IsFramed option.now }
    requires subtype { subtype option.now ≡ 5 }
    ensures meaning { (checksum : Bool) → meaning_of result ≡ option_meaning option.now checksum }
    ensures lent { LendsIds option.entry result }
{
    if option.len() != 3 {
        return Read::Malformed;
    }
    Read::Known(MpOption::Prio {
        backup: option[2] & LOW_FLAG != 0,
    })
}

/// Reads an MP_FAIL of 12 octets (RFC 8684, section 3.7).
#[tactic(auto, using(crate::proofs::SignalMeaning::option_meaning_fail))]
pub fn read_fail(option: &[u8]) -> Read<'_>
    requires framed { IsFramed option.now }
    requires subtype { subtype option.now ≡ 6 }
    ensures meaning { (checksum : Bool) → meaning_of result ≡ option_meaning option.now checksum }
    ensures lent { LendsIds option.entry result }
{
    if option.len() != 12 {
        return Read::Malformed;
    }
    Read::Known(MpOption::Fail {
        number: u64_at(option, 4),
    })
}

/// Reads an MP_FASTCLOSE of 12 octets (RFC 8684, section 3.5).
#[tactic(auto, using(crate::proofs::SignalMeaning::option_meaning_fast_close))]
pub fn read_fast_close(option: &[u8]) -> Read<'_>
    requires framed { IsFramed option.now }
    requires subtype { subtype option.now ≡ 7 }
    ensures meaning { (checksum : Bool) → meaning_of result ≡ option_meaning option.now checksum }
    ensures lent { LendsIds option.entry result }
{
    if option.len() != 12 {
        return Read::Malformed;
    }
    Read::Known(MpOption::FastClose {
        key: u64_at(option, 4),
    })
}

/// Reads an MP_TCPRST of 4 octets (RFC 8684, section 3.6).
#[tactic(auto, using(crate::proofs::SignalMeaning::option_meaning_reset))]
pub fn read_reset(option: &[u8]) -> Read<'_>
    requires framed { IsFramed option.now }
    requires subtype { subtype option.now ≡ 8 }
    ensures meaning { (checksum : Bool) → meaning_of result ≡ option_meaning option.now checksum }
    ensures lent { LendsIds option.entry result }
{
    if option.len() != 4 {
        return Read::Malformed;
    }
    Read::Known(MpOption::Reset {
        transient: option[2] & LOW_FLAG != 0,
        reason: option[3],
    })
}

/// The octets of an MP_PRIO after kind and length.
pub fn prio_body(backup: bool) -> Body
    ensures { result.items ≡ prio_body backup }
{
    joined(&[&[MP_PRIO << 4 | flag_if(backup, LOW_FLAG)]])
}

/// The octets of an MP_FAIL after kind and length.
pub fn fail_body(number: u64) -> Body
    ensures { result.items ≡ fail_body number }
{
    joined(&[&[MP_FAIL << 4, 0], &number.to_be_bytes()])
}

/// The octets of an MP_FASTCLOSE after kind and length.
pub fn fast_close_body(key: u64) -> Body
    ensures { result.items ≡ fast_close_body key }
{
    joined(&[&[MP_FASTCLOSE << 4, 0], &key.to_be_bytes()])
}

/// The octets of an MP_TCPRST after kind and length.
pub fn reset_body(transient: bool, reason: u8) -> Body
    ensures { result.items ≡ reset_body transient reason }
{
    joined(&[&[MP_TCPRST << 4 | flag_if(transient, LOW_FLAG), reason]])
}
