ghost use Rattle.std.specs.Prelude.{◌≡◌, ◌≢◌, ◌↔◌, ℕ, option_map, IsNone, IsSomeAnd};
ghost use Rattle.std.specs.Result.{result_ok};
ghost use Rattle.mptcp_options.specs.Value.{value_heard};
ghost use Rattle.capable_handshake.specs.Heard.{flag_on_syn, key_and_flag_on_syn_ack, keys_on_ack, checksums_used};

use crate::fault::CapableFault;
use mptcp_options::{CapableKeys, MpOption};

/// The server's step at a SYN: whether the connection uses checksums.
///
/// `checksum` tells whether the server requires them, `heard` is the option of the SYN, if it has one. The step's
/// form is the MP_CAPABLE of 4 octets, without a key (RFC 8684, section 3.1).
pub fn server_syn(checksum: bool, heard: Option<&MpOption<'_>>) -> Result<bool, CapableFault>
    ensures checksums { result_ok result
        ≡ option_map (checksums_used checksum) (flag_on_syn (value_heard heard.entry)) }
    ensures no_option { (result ≡ Err CapableFault.NoOption)
        ↔ IsNone (flag_on_syn (value_heard heard.entry)) }
{
    match heard {
        Some(
            MpOption::Capable {
                flag_a,
                keys: CapableKeys::NoKey,
                ..
            },
        ) => Ok(checksum || *flag_a),
        _ => Err(CapableFault::NoOption),
    }
}

/// The client's step at a SYN/ACK: the server's key, and whether the connection uses checksums.
///
/// `checksum` tells whether the client requires them, `heard` is the option of the SYN/ACK, if it has one. The step's
/// form is the MP_CAPABLE of 12 octets, with the sender's key alone (RFC 8684, section 3.1).
pub fn client_answer(
    checksum: bool,
    heard: Option<&MpOption<'_>>,
) -> Result<(u64, bool), CapableFault>
    ensures answer { result_ok result
        ≡ option_map (λ (key, flag_a). (key, checksums_used checksum flag_a))
        (key_and_flag_on_syn_ack (value_heard heard.entry)) }
    ensures no_option { (result ≡ Err CapableFault.NoOption)
        ↔ IsNone (key_and_flag_on_syn_ack (value_heard heard.entry)) }
{
    match heard {
        Some(
            MpOption::Capable {
                flag_a,
                keys: CapableKeys::Sender { sender },
                ..
            },
        ) => Ok((*sender, checksum || *flag_a)),
        _ => Err(CapableFault::NoOption),
    }
}

/// The server's step at the ACK that ends the handshake, or at the first segment with data: the client's key.
///
/// `own` is the server's key, `heard` the option of the segment, if it has one. The step's form is the MP_CAPABLE with
/// both keys, of 20 octets or with data of 22 or 24; the receiver's key in it has to be `own` (RFC 8684, section 3.1).
pub fn server_keys(own: u64, heard: Option<&MpOption<'_>>) -> Result<u64, CapableFault>
    ensures confirmed { (peer : ℕ) → (result ≡ Ok peer)
        ↔ (keys_on_ack (value_heard heard.entry) ≡ Some (peer, own)) }
    ensures keys_differ { (result ≡ Err (CapableFault.KeysDiffer own))
        ↔ IsSomeAnd (keys_on_ack (value_heard heard.entry)) (λ (sender, receiver). receiver ≢ own) }
    ensures no_option { (result ≡ Err CapableFault.NoOption)
        ↔ IsNone (keys_on_ack (value_heard heard.entry)) }
{
    let (sender, receiver) = match heard {
        Some(
            MpOption::Capable {
                keys: CapableKeys::Both { sender, receiver }
                | CapableKeys::WithData {
                    sender,
                    receiver,
                    ..
                },
                ..
            },
        ) => (*sender, *receiver),
        _ => return Err(CapableFault::NoOption),
    };
    if receiver != own {
        return Err(CapableFault::KeysDiffer { own });
    }
    Ok(sender)
}
