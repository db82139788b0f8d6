ghost use Rattle.std.specs.Prelude.{◌≡◌, ◌≢◌, ◌↔◌, IsOk, IsNone, IsSomeAnd};
ghost use Rattle.std.specs.Result.{result_ok};
ghost use Rattle.mptcp_options.specs.Value.{value_heard};
ghost use Rattle.key_material.specs.JoinHmac.{join_a160_of};
ghost use Rattle.join_handshake.specs.Heard.{syn_heard, answer_heard, answer_taken, third_heard};

use crate::fault::JoinFault;
use key_material::{join_a160, join_b64};
use mptcp_options::{JoinForm, MpOption};

/// What B takes from the MP_JOIN of a SYN.
#[derive(Clone, Copy, Debug)]
pub struct JoinSyn {
    /// Whether A wants the path as a backup.
    pub backup: bool,
    /// The id of the address that A joins from.
    pub id: u8,
    /// The token of the connection that is joined: B's.
    pub token: u32,
    /// A's nonce.
    pub nonce: u32,
}

/// What A takes from the MP_JOIN of a SYN/ACK.
#[derive(Clone, Copy, Debug)]
pub struct JoinAnswer {
    /// Whether B wants the path as a backup.
    pub backup: bool,
    /// The id of the address that B answers from.
    pub id: u8,
    /// B's nonce.
    pub nonce: u32,
}

/// B's step at a SYN: what A asks for. `heard` is the option of the SYN, if it has one; the step's form is the MP_JOIN
/// of 12 octets (RFC 8684, section 3.2).
pub fn server_syn(heard: Option<&MpOption<'_>>) -> Result<JoinSyn, JoinFault>
    ensures asked { result_ok result ≡ syn_heard (value_heard heard.entry) }
    ensures no_option { (result ≡ Err JoinFault.NoOption) ↔
        IsNone (syn_heard (value_heard heard.entry)) }
{
    match heard {
        Some(
            MpOption::Join {
                form: JoinForm::Syn {
                    backup,
                    id,
                    token,
                    nonce,
                },
            },
        ) => Ok(JoinSyn {
            backup: *backup,
            id: *id,
            token: *token,
            nonce: *nonce,
        }),
        _ => Err(JoinFault::NoOption),
    }
}

/// A's step at a SYN/ACK: what B answers, where its HMAC is right. The step's form is the MP_JOIN of 16 octets, with the
/// first 64 bits of the HMAC under the key of B and then of A, over the nonce of B and then of A (RFC 8684, section 3.2).
pub fn client_answer(
    key_a: u64,
    key_b: u64,
    nonce_a: u32,
    heard: Option<&MpOption<'_>>,
) -> Result<JoinAnswer, JoinFault>
    ensures { result ≡ answer_taken key_a key_b nonce_a (answer_heard (value_heard heard.entry)) }
{
    match answer_heard(heard) {
        Some((hmac, answer)) if hmac == join_b64(key_a, key_b, nonce_a, answer.nonce) => Ok(answer),
        Some(_) => Err(JoinFault::BadHmac),
        None => Err(JoinFault::NoOption),
    }
}

/// The 64 bits of an HMAC in the MP_JOIN of a SYN/ACK, and what else it says.
fn answer_heard(heard: Option<&MpOption<'_>>) -> Option<(u64, JoinAnswer)>
    ensures { result ≡ answer_heard (value_heard heard.entry) }
{
    match heard {
        Some(
            MpOption::Join {
                form: JoinForm::Answer {
                    backup,
                    id,
                    hmac,
                    nonce,
                },
            },
        ) => Some((
            *hmac,
            JoinAnswer {
                backup: *backup,
                id: *id,
                nonce: *nonce,
            },
        )),
        _ => None,
    }
}

/// B's step at the third ACK: whether its HMAC is right. The step's form is the MP_JOIN of 24 octets, with the first 160
/// bits of the HMAC under the key of A and then of B, over the nonce of A and then of B (RFC 8684, section 3.2).
pub fn server_third(
    key_a: u64,
    key_b: u64,
    nonce_a: u32,
    nonce_b: u32,
    heard: Option<&MpOption<'_>>,
) -> Result<(), JoinFault>
    ensures right { IsOk result
        ↔
        (third_heard (value_heard heard.entry) ≡ Some (join_a160_of key_a key_b nonce_a nonce_b)) }
    ensures bad_hmac { (result ≡ Err JoinFault.BadHmac)
        ↔ IsSomeAnd (third_heard (value_heard heard.entry))
        (λ hmac. hmac ≢ join_a160_of key_a key_b nonce_a nonce_b) }
    ensures no_option { (result ≡ Err JoinFault.NoOption) ↔
        IsNone (third_heard (value_heard heard.entry)) }
{
    let hmac = match heard {
        Some(
            MpOption::Join {
                form: JoinForm::Third { hmac },
            },
        ) => *hmac,
        _ => return Err(JoinFault::NoOption),
    };
    if hmac != join_a160(key_a, key_b, nonce_a, nonce_b) {
        return Err(JoinFault::BadHmac);
    }
    Ok(())
}
