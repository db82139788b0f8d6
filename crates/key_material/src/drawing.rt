ghost use Rattle.std.specs.Prelude.{◌≡◌};
ghost use Rattle.key_material.specs.Drawing.{cipher_key, drawn_word};

use rand_chacha::ChaCha20Rng;
use rand_core::SeedableRng;
use rand_core::utils::NextWord;

/// A word that stands for a random one: the word of that number, counted from 0, in that stream of ChaCha20 (RFC
/// 8439), whose key is the seed as eight octets, least first, and 24 zeros.
#[tactic(auto, unfolding(crate::specs::Drawing::drawn_word))]
pub fn drawn(seed: u64, stream: u64, word: u64) -> u32
    ensures { result ≡ drawn_word seed stream word }
{
    let mut key = [0; 32];
    key[..8].copy_from_slice(&seed.to_le_bytes());
    let mut words = ChaCha20Rng::from_seed(key);
    words.set_stream(stream);
    words.set_word_pos(u128::from(word));
    words.next_word()
}
