ghost use Rattle.std.specs.Prelude.{◌≡◌, ◌≤◌, length, map, bit_xor};
ghost use Rattle.std.specs.List.{flat_map};
ghost use Rattle.key_material.specs.Hmac.{filled_key, mixed_key, hmac_of};

use sha2::{Digest, Sha256};

/// The block of SHA-256, in octets.
const BLOCK: usize = 64;

/// What the key of the inner hash is mixed with.
const INNER_PAD: u8 = 0x36;

/// What the key of the outer hash is mixed with.
const OUTER_PAD: u8 = 0x5C;

/// Mixes each octet with the pad.
fn mix(octets: &mut [u8], pad: u8)
    ensures { octets.new ≡ map (λ octet. bit_xor octet pad) octets.old }
{
    for octet in octets.iter_mut() {
        *octet ^= pad;
    }
}

/// The key, filled with zeros to a block.
fn filled_key(key: &[u8]) -> [u8; BLOCK]
    requires { length key.now ≤ 64 }
    ensures { result ≡ filled_key key.now }
{
    let mut block = [0; BLOCK];
    block[..key.len()].copy_from_slice(key);
    block
}

/// The block of the key, mixed with the pad.
#[tactic(auto, unfolding(crate::specs::Hmac::mixed_key))]
fn mixed_key(pad: u8, key: &[u8]) -> [u8; BLOCK]
    requires { length key.now ≤ 64 }
    ensures { result ≡ mixed_key pad key.now }
{
    let mut block = filled_key(key);
    mix(&mut block, pad);
    block
}

/// The HMAC of a message under a key of at most 64 octets: SHA-256 by RFC 2104.
pub fn hmac(key: &[u8], message: &[u8]) -> [u8; 32]
    requires { length key.now ≤ 64 }
    ensures { result ≡ hmac_of key.now message.now }
{
    hmac_of_pieces(key, &[message])
}

/// The HMAC of the message that these pieces make, in their order, however it was cut. It copies none of them.
#[tactic(auto, unfolding(crate::specs::Hmac::hmac_of))]
pub fn hmac_of_pieces(key: &[u8], pieces: &[&[u8]]) -> [u8; 32]
    requires { length key.now ≤ 64 }
    ensures { result ≡ hmac_of key.now (flat_map (λ piece. piece.now) pieces.now) }
{
    let mut inner = Sha256::new_with_prefix(mixed_key(INNER_PAD, key));
    for piece in pieces {
        inner.update(*piece);
    }
    let mut outer = Sha256::new_with_prefix(mixed_key(OUTER_PAD, key));
    outer.update(inner.finalize());
    outer.finalize()
}
