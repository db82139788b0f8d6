ghost use Rattle.std.specs.Prelude.{◌≡◌};
ghost use Rattle.key_material.specs.JoinHmac.{two_keys, join_b64_of, join_a160_of};

use crate::keyed_hash::hmac_of_pieces;

/// Two keys as one HMAC key of 16 octets, each in network order.
pub(crate) fn two_keys(first: u64, second: u64) -> [u8; 16]
    ensures { result ≡ two_keys first second }
{
    let mut keys = [0; 16];
    keys[..8].copy_from_slice(&first.to_be_bytes());
    keys[8..].copy_from_slice(&second.to_be_bytes());
    keys
}

/// The HMAC that B answers a join with: the first 64 bits of that under the key of B and then of A, over the
/// nonce of B and then of A (RFC 8684, section 3.2).
pub fn join_b64(key_a: u64, key_b: u64, nonce_a: u32, nonce_b: u32) -> u64
    ensures { result ≡ join_b64_of key_a key_b nonce_a nonce_b }
{
    let digest = hmac_of_pieces(
        &two_keys(key_b, key_a),
        &[&nonce_b.to_be_bytes(), &nonce_a.to_be_bytes()],
    );
    u64::from_be_bytes(*digest.first_chunk().unwrap())
}

/// The HMAC that A ends a join with: the first 160 bits of that under the key of A and then of B, over the nonce
/// of A and then of B (RFC 8684, section 3.2).
pub fn join_a160(key_a: u64, key_b: u64, nonce_a: u32, nonce_b: u32) -> [u8; 20]
    ensures { result ≡ join_a160_of key_a key_b nonce_a nonce_b }
{
    let digest = hmac_of_pieces(
        &two_keys(key_a, key_b),
        &[&nonce_a.to_be_bytes(), &nonce_b.to_be_bytes()],
    );
    *digest.first_chunk().unwrap()
}
