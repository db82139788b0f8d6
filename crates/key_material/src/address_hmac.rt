ghost use Rattle.std.specs.Prelude.{◌≡◌};
ghost use Rattle.key_material.specs.AddressHmac.{add_addr64_of};

use crate::address::Address;
use crate::join_hmac::two_keys;
use crate::keyed_hash::hmac_of_pieces;

/// The HMAC of an announced address: the last 64 bits of that under the key of the side that announces it and
/// then of the other, over the address id, the address and the port, which is 0 where the option has none (RFC
/// 8684, section 3.4.1).
pub fn add_addr64(sender: u64, receiver: u64, id: u8, address: &Address, port: u16) -> u64
    ensures { result ≡ add_addr64_of sender receiver id address.now port }
{
    let digest = hmac_of_pieces(
        &two_keys(sender, receiver),
        &[&[id], address.octets(), &port.to_be_bytes()],
    );
    u64::from_be_bytes(*digest.last_chunk().unwrap())
}
