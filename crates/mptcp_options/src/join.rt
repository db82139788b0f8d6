ghost use Rattle.std.specs.Prelude.{◌≡◌, Bool};
ghost use Rattle.mptcp_options.specs.Value.{meaning_of, LendsIds};
ghost use Rattle.mptcp_options.specs.Join.{join_body};
ghost use Rattle.mptcp_options.specs.Meaning.{IsFramed, subtype, option_meaning};

use crate::body::{Body, flag_if, joined};
use crate::fields::{u32_at, u64_at};
use crate::option::{MpOption, Read};
use crate::subtype::MP_JOIN;

/// The flag B in the subtype's octet.
const BACKUP: u8 = 0x01;

/// An MP_JOIN, by the segment that it stands on (RFC 8684, section 3.2).
#[derive(Clone, Copy, Debug)]
pub enum JoinForm {
    /// A SYN: 12 octets, whether the subflow is a backup (flag B), the address id of the sender, the token of the
    /// receiver and the sender's nonce.
    Syn {
        backup: bool,
        id: u8,
        token: u32,
        nonce: u32,
    },
    /// A SYN/ACK: 16 octets, the same flag and id, the first 64 bits of the sender's HMAC and its nonce.
    Answer {
        backup: bool,
        id: u8,
        hmac: u64,
        nonce: u32,
    },
    /// The third ACK: 24 octets, the first 160 bits of the sender's HMAC.
    Third {
        hmac: [u8; 20],
    },
}

/// Reads an MP_JOIN, whose length tells its form (RFC 8684, section 3.2).
#[tactic(auto, using(crate::proofs::JoinMeaning::join_forms))]
pub fn read_join(option: &[u8]) -> Read<'_>
    requires framed { IsFramed option.now }
    requires subtype { subtype option.now ≡ 1 }
    ensures meaning { (checksum : Bool) → meaning_of result ≡ option_meaning option.now checksum }
    ensures lent { LendsIds option.entry result }
{
    match option.len() {
        12 => Read::Known(MpOption::Join {
            form: JoinForm::Syn {
                backup: option[2] & BACKUP != 0,
                id: option[3],
                token: u32_at(option, 4),
                nonce: u32_at(option, 8),
            },
        }),
        16 => Read::Known(MpOption::Join {
            form: JoinForm::Answer {
                backup: option[2] & BACKUP != 0,
                id: option[3],
                hmac: u64_at(option, 4),
                nonce: u32_at(option, 12),
            },
        }),
        24 => Read::Known(MpOption::Join {
            form: JoinForm::Third {
                hmac: *option[4..].first_chunk().unwrap(),
            },
        }),
        _ => Read::Malformed,
    }
}

/// The octets of an MP_JOIN after kind and length (RFC 8684, section 3.2).
pub fn join_body(form: &JoinForm) -> Body
    ensures { result.items ≡ join_body form.now }
{
    match form {
        JoinForm::Syn {
            backup,
            id,
            token,
            nonce,
        } => joined(&[
            &[MP_JOIN << 4 | flag_if(*backup, BACKUP), *id],
            &token.to_be_bytes(),
            &nonce.to_be_bytes(),
        ]),
        JoinForm::Answer {
            backup,
            id,
            hmac,
            nonce,
        } => joined(&[
            &[MP_JOIN << 4 | flag_if(*backup, BACKUP), *id],
            &hmac.to_be_bytes(),
            &nonce.to_be_bytes(),
        ]),
        JoinForm::Third { hmac } => joined(&[&[MP_JOIN << 4, 0], hmac]),
    }
}
