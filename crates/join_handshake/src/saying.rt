ghost use Rattle.std.specs.Prelude.{◌≡◌};
ghost use Rattle.join_handshake.specs.Said.{syn_option, answer_option, third_option};

use key_material::{join_a160, join_b64};
use mptcp_options::{JoinForm, MpOption};

/// The MP_JOIN of A's SYN: whether the path is a backup, A's address id, B's token and A's nonce.
pub fn syn_option(backup: bool, id: u8, token: u32, nonce: u32) -> MpOption<'static>
    ensures { result ≡ syn_option backup id token nonce }
{
    MpOption::Join {
        form: JoinForm::Syn {
            backup,
            id,
            token,
            nonce,
        },
    }
}

/// The MP_JOIN of B's SYN/ACK: whether the path is a backup, B's address id, the first 64 bits of B's HMAC and B's
/// nonce.
pub fn answer_option(
    key_a: u64,
    key_b: u64,
    nonce_a: u32,
    nonce_b: u32,
    backup: bool,
    id: u8,
) -> MpOption<'static>
    ensures { result ≡ answer_option key_a key_b nonce_a nonce_b backup id }
{
    MpOption::Join {
        form: JoinForm::Answer {
            backup,
            id,
            hmac: join_b64(key_a, key_b, nonce_a, nonce_b),
            nonce: nonce_b,
        },
    }
}

/// The MP_JOIN of A's third ACK: the first 160 bits of A's HMAC.
pub fn third_option(key_a: u64, key_b: u64, nonce_a: u32, nonce_b: u32) -> MpOption<'static>
    ensures { result ≡ third_option key_a key_b nonce_a nonce_b }
{
    MpOption::Join {
        form: JoinForm::Third {
            hmac: join_a160(key_a, key_b, nonce_a, nonce_b),
        },
    }
}
