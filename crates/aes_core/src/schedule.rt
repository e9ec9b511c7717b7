//! The key schedule (FIPS 197, 5.2).

ghost use Rattle.std.specs.Prelude.{◌≡◌, ◌/◌, ◌≤◌, ◌⊎◌, length};
ghost use Rattle.aes_core.specs.KeyExpansion.{added_word, key_expansion, round_count, sub_word, rot_word};
ghost use Rattle.aes_core.specs.internal.Schedule.{key_bytes, schedule_words};
ghost use Rattle.aes_core.specs.internal.Words.{word_bytes};

use crate::tables::{round_constant, sbox};
use crate::words::load_word;

// The words of the longest key schedule: four for the start and four for each of 14 rounds.
pub(crate) const SCHEDULE_LEN: usize = 60;

fn sub_word(word: u32) -> u32
    ensures { word_bytes result ≡ sub_word (word_bytes word) }
{
    let [a, b, c, d] = word.to_be_bytes();
    u32::from_be_bytes([sbox(a), sbox(b), sbox(c), sbox(d)])
}

fn rot_word(word: u32) -> u32
    ensures { word_bytes result ≡ rot_word (word_bytes word) }
{
    let [a, b, c, d] = word.to_be_bytes();
    u32::from_be_bytes([b, c, d, a])
}

// What is added to the word `key_len` words back to make word `i`, after the word `previous`.
fn added_word(key_len: usize, previous: u32, i: usize) -> u32
    requires low { 1 ≤ i / key_len }
    requires high { i / key_len ≤ 10 }
    ensures { word_bytes result ≡ added_word key_len (word_bytes previous) i }
{
    if i % key_len == 0 {
        sub_word(rot_word(previous)) ^ u32::from_be_bytes([round_constant(i / key_len), 0, 0, 0])
    } else if key_len > 6 && i % key_len == 4 {
        sub_word(previous)
    } else {
        previous
    }
}

// The key schedule of a key of 16 or 32 bytes, in the first words.
pub(crate) fn expand(key: &[u8]) -> [u32; SCHEDULE_LEN]
    requires { (length key.now ≡ 16) ⊎ (length key.now ≡ 32) }
    ensures begins { key_bytes result (round_count key.now) ≡ key.now }
    ensures expanded { schedule_words result (round_count key.now) ≡ key_expansion key.now }
{
    let key_len = key.len() / 4;
    let mut words = [0u32; SCHEDULE_LEN];
    'key: for i in 0..key_len {
        words[i] = load_word(key, 4 * i);
    }
    'rest: for i in key_len..4 * (key_len + 7) {
        words[i] = words[i - key_len] ^ added_word(key_len, words[i - 1], i);
    }
    words
}
