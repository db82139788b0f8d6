ghost use Rattle.std.specs.Prelude.{◌≡◌};
ghost use Rattle.key_material.specs.KeyDigest.{token_of, idsn_of, key_digest};

use sha2::{Digest, Sha256};

#[tactic(auto, unfolding(crate::specs::KeyDigest::key_digest))]
fn digest_of(key: u64) -> [u8; 32]
    ensures { result ≡ key_digest key }
{
    Sha256::digest(key.to_be_bytes())
}

/// The token of a key, by which a join names the connection: the first 32 bits of the SHA-256 of its eight octets
/// in network order (RFC 8684, section 3.2).
pub fn token(key: u64) -> u32
    ensures { result ≡ token_of key }
{
    let digest = digest_of(key);
    u32::from_be_bytes(*digest.first_chunk().unwrap())
}

/// The initial data sequence number of a key's owner: the last 64 bits of the SHA-256 of its eight octets in
/// network order (RFC 8684, section 3.1).
pub fn idsn(key: u64) -> u64
    ensures { result ≡ idsn_of key }
{
    let digest = digest_of(key);
    u64::from_be_bytes(*digest.last_chunk().unwrap())
}
