//! The random bytes of a schedule's events.

ghost use Rattle.std.specs.Prelude.{◌≡◌, ◌<◌, ◌^◌, ◌*◌};
ghost use Rattle.schedule_text.specs.Draws.{draw_of, key_bytes};

use rand_chacha::ChaCha20Rng;
use rand_core::SeedableRng;
use rand_core::utils::NextWord;
use vpn_base::{Draw, write_at};

// How many words of the stream belong to an event, and how many of them it takes.
const STRIDE: u128 = 32;

const WORDS: usize = 30;

#[tactic(auto, unfolding(crate::specs::Draws::key_bytes))]
fn key_of(seed: u64) -> [u8; 32]
    ensures { result ≡ key_bytes seed }
{
    let mut key = [0u8; 32];
    key[..8].copy_from_slice(&seed.to_le_bytes());
    key
}

/// The random bytes of the event of this number, from 0, under this seed.
pub fn draw(number: u64, seed: u64) -> Draw
    requires { number < 2 ^ 63 }
    ensures { result.0 ≡ draw_of seed number }
{
    let mut words = ChaCha20Rng::from_seed(key_of(seed));
    words.set_word_pos(STRIDE * u128::from(number));
    let mut bytes = [0u8; 120];
    for i in 0..WORDS {
        let word = words.next_word();
        write_at(&mut bytes, 4 * i, &word.to_le_bytes());
    }
    Draw(bytes)
}
