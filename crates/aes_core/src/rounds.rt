//! The rounds of the cipher over a state of four words, one for each column (FIPS 197, 5.1).

ghost use Rattle.std.specs.Prelude.{◌≡◌, ℕ, ◌%◌, ◌≤◌, List, [], ◌∷◌};
ghost use Rattle.std.specs.Int.{byte_at};
ghost use Rattle.aes_core.specs.Cipher.{add_round_key, cipher_under, final_round, mixed_column, round, state_after};
ghost use Rattle.aes_core.specs.Field.{xor_bytes};
ghost use Rattle.aes_core.specs.SBox.{sbox};
ghost use Rattle.aes_core.specs.internal.Schedule.{schedule_words};
ghost use Rattle.aes_core.specs.internal.Words.{four_words, state_bytes, word_bytes};

use crate::schedule::SCHEDULE_LEN;
use crate::tables::{mixed_row0, mixed_row1, mixed_row2, mixed_row3, sbox};
use crate::words::State;

// Byte 3, 2, 1 or 0 of a word, of which byte 3 is the highest.
#[inline(always)]
pub(crate) fn byte3(word: u32) -> u8
    ensures { result ≡ byte_at 3 word }
{
    (word >> 24) as u8
}

#[inline(always)]
pub(crate) fn byte2(word: u32) -> u8
    ensures { result ≡ byte_at 2 word }
{
    (word >> 16 & 0xff) as u8
}

#[inline(always)]
pub(crate) fn byte1(word: u32) -> u8
    ensures { result ≡ byte_at 1 word }
{
    (word >> 8 & 0xff) as u8
}

#[inline(always)]
pub(crate) fn byte0(word: u32) -> u8
    ensures { result ≡ byte_at 0 word }
{
    (word & 0xff) as u8
}

// A column after a round, from the words whose bytes ShiftRows brings into it.
#[inline(always)]
pub(crate) fn column(a: u32, b: u32, c: u32, d: u32, key: u32) -> u32
    ensures { word_bytes result ≡ xor_bytes
        (mixed_column (sbox (byte_at 3 a)) (sbox (byte_at 2 b)) (sbox (byte_at 1 c)) (sbox (byte_at 0 d)))
        (word_bytes key) }
{
    // In this order the compiler needs fewer registers.
    key ^ mixed_row3(byte0(d)) ^ mixed_row2(byte1(c)) ^ mixed_row1(byte2(b)) ^ mixed_row0(byte3(a))
}

// The same in the last round, which mixes no columns.
#[inline(always)]
fn final_column(a: u32, b: u32, c: u32, d: u32, key: u32) -> u32
    ensures { word_bytes result ≡ xor_bytes
        (sbox (byte_at 3 a) ∷ sbox (byte_at 2 b) ∷ sbox (byte_at 1 c) ∷ sbox (byte_at 0 d) ∷ [])
        (word_bytes key) }
{
    u32::from_be_bytes([
        sbox(byte3(a)),
        sbox(byte2(b)),
        sbox(byte1(c)),
        sbox(byte0(d)),
    ]) ^ key
}

// AddRoundKey with the round key that begins at word `at`.
#[inline(always)]
pub(crate) fn add_key(state: State, words: &[u32; SCHEDULE_LEN], at: usize) -> State
    requires { at ≤ 56 }
    ensures { state_bytes result ≡ add_round_key (state_bytes state) (four_words words.now at) }
{
    State {
        a: state.a ^ words[at],
        b: state.b ^ words[at + 1],
        c: state.c ^ words[at + 2],
        d: state.d ^ words[at + 3],
    }
}

// One round, with the round key that begins at word `at`.
#[inline(always)]
fn round(state: State, words: &[u32; SCHEDULE_LEN], at: usize) -> State
    requires { at ≤ 56 }
    ensures { state_bytes result ≡ round (state_bytes state) (four_words words.now at) }
{
    let State { a, b, c, d } = state;
    State {
        a: column(a, b, c, d, words[at]),
        b: column(b, c, d, a, words[at + 1]),
        c: column(c, d, a, b, words[at + 2]),
        d: column(d, a, b, c, words[at + 3]),
    }
}

// The last round, with the round key that begins at word `at`.
#[inline(always)]
fn final_round(state: State, words: &[u32; SCHEDULE_LEN], at: usize) -> State
    requires { at ≤ 56 }
    ensures { state_bytes result ≡ final_round (state_bytes state) (four_words words.now at) }
{
    let State { a, b, c, d } = state;
    State {
        a: final_column(a, b, c, d, words[at]),
        b: final_column(b, c, d, a, words[at + 1]),
        c: final_column(c, d, a, b, words[at + 2]),
        d: final_column(d, a, b, c, words[at + 3]),
    }
}

// The output of the cipher, from the state after two rounds of so many, under this key schedule.
#[inline(always)]
pub(crate) fn finish(words: &[u32; SCHEDULE_LEN], rounds: usize, two: State) -> State
    requires low { 10 ≤ rounds }
    requires high { rounds ≤ 14 }
    requires even { rounds % 2 ≡ 0 }
    ensures { (input : List ℕ) → state_bytes two ≡ state_after (schedule_words words.now rounds) input 2
        → state_bytes result ≡ cipher_under (schedule_words words.now rounds) input rounds }
{
    let mut state = round(two, words, 12);
    'pairs: for pair in 2..rounds / 2 {
        state = round(state, words, 8 * pair);
        state = round(state, words, 8 * pair + 4);
    }
    final_round(state, words, 4 * rounds)
}

// The output of the cipher for a block, in so many rounds under this key schedule.
#[inline(never)]
pub(crate) fn encrypt(words: &[u32; SCHEDULE_LEN], rounds: usize, block: State) -> State
    requires low { 10 ≤ rounds }
    requires high { rounds ≤ 14 }
    requires even { rounds % 2 ≡ 0 }
    ensures { state_bytes result ≡ cipher_under (schedule_words words.now rounds) (state_bytes block) rounds }
{
    let start = add_key(block, words, 0);
    finish(words, rounds, round(round(start, words, 4), words, 8))
}
