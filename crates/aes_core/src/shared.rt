//! The first two rounds of 256 counters in a row, which differ in the last byte alone: it reaches one
//! column in round 1 and one byte of each column in round 2, and the rest is computed once.

ghost use Rattle.std.specs.Prelude.{◌≡◌, ℕ, ◌+◌, ◌%◌, ◌^◌, ◌<◌};
ghost use Rattle.std.specs.Int.{byte_at};
ghost use Rattle.aes_core.specs.Cipher.{mixed_column};
ghost use Rattle.aes_core.specs.internal.Columns.{mixed_part};
ghost use Rattle.aes_core.specs.Field.{xor_bytes};
ghost use Rattle.aes_core.specs.SBox.{sbox};
ghost use Rattle.aes_core.specs.internal.SharedRounds.{IsShared, first_column, second_state};
ghost use Rattle.aes_core.specs.internal.Words.{state_bytes, word_bytes};

use crate::counter::counter_block;
use crate::rounds::{add_key, byte0, byte1, byte2, byte3, column};
use crate::schedule::SCHEDULE_LEN;
use crate::tables::{mixed_row0, mixed_row1, mixed_row2, mixed_row3};
use crate::words::State;

// A column after a round but for the byte of row 0, which is to be added; the three functions below
// leave out the byte of another row.
#[inline(always)]
fn column_but_row0(b: u32, c: u32, d: u32, key: u32) -> u32
    ensures { (x : ℕ) → xor_bytes (word_bytes result) (mixed_part 0 x)
        ≡ xor_bytes (mixed_column x (sbox (byte_at 2 b)) (sbox (byte_at 1 c)) (sbox (byte_at 0 d))) (word_bytes key) }
{
    mixed_row1(byte2(b)) ^ mixed_row2(byte1(c)) ^ mixed_row3(byte0(d)) ^ key
}

#[inline(always)]
fn column_but_row1(a: u32, c: u32, d: u32, key: u32) -> u32
    ensures { (x : ℕ) → xor_bytes (word_bytes result) (mixed_part 1 x)
        ≡ xor_bytes (mixed_column (sbox (byte_at 3 a)) x (sbox (byte_at 1 c)) (sbox (byte_at 0 d))) (word_bytes key) }
{
    mixed_row0(byte3(a)) ^ mixed_row2(byte1(c)) ^ mixed_row3(byte0(d)) ^ key
}

#[inline(always)]
fn column_but_row2(a: u32, b: u32, d: u32, key: u32) -> u32
    ensures { (x : ℕ) → xor_bytes (word_bytes result) (mixed_part 2 x)
        ≡ xor_bytes (mixed_column (sbox (byte_at 3 a)) (sbox (byte_at 2 b)) x (sbox (byte_at 0 d))) (word_bytes key) }
{
    mixed_row0(byte3(a)) ^ mixed_row1(byte2(b)) ^ mixed_row3(byte0(d)) ^ key
}

#[inline(always)]
fn column_but_row3(a: u32, b: u32, c: u32, key: u32) -> u32
    ensures { (x : ℕ) → xor_bytes (word_bytes result) (mixed_part 3 x)
        ≡ xor_bytes (mixed_column (sbox (byte_at 3 a)) (sbox (byte_at 2 b)) (sbox (byte_at 1 c)) x) (word_bytes key) }
{
    mixed_row0(byte3(a)) ^ mixed_row1(byte2(b)) ^ mixed_row2(byte1(c)) ^ key
}

// What the first two rounds of the counters that begin alike share.
#[derive(Clone, Copy)]
pub(crate) struct SharedRounds {
    // The word of the key schedule that is added to the last four bytes.
    last_key: u32,
    // Column 0 after round 1, but for the byte of row 3.
    first: u32,
    // The columns after round 2, but for the byte that comes from column 0.
    a: u32,
    b: u32,
    c: u32,
    d: u32,
}

impl SharedRounds {
    // What this counter and those that begin alike share.
    pub(crate) fn new(words: &[u32; SCHEDULE_LEN], counter: u128) -> SharedRounds
        ensures { IsShared result words.now counter }
    {
        let State { a, b, c, d } = add_key(counter_block(counter), words, 0);
        let second = column(b, c, d, a, words[5]);
        let third = column(c, d, a, b, words[6]);
        let fourth = column(d, a, b, c, words[7]);
        SharedRounds {
            last_key: words[3],
            first: column_but_row3(a, b, c, words[4]),
            a: column_but_row0(second, third, fourth, words[8]),
            b: column_but_row3(second, third, fourth, words[9]),
            c: column_but_row2(third, fourth, second, words[10]),
            d: column_but_row1(fourth, second, third, words[11]),
        }
    }

    // The same for the next counter.
    #[inline(always)]
    pub(crate) fn next(self, words: &[u32; SCHEDULE_LEN], counter: u128) -> SharedRounds
        ensures { (before : ℕ) → before < 2 ^ 128 → IsShared self words.now before → counter ≡ (before + 1) % 2 ^ 128
            → IsShared result words.now counter }
    {
        if counter & 0xff == 0 {
            SharedRounds::new(words, counter)
        } else {
            self
        }
    }

    // The state after two rounds of the counter whose last byte this is.
    #[inline(always)]
    pub(crate) fn two_rounds(&self, last: u8) -> State
        ensures { state_bytes result ≡ second_state self.now (first_column self.now last) }
    {
        let column = self.first ^ mixed_row3(last ^ byte0(self.last_key));
        State {
            a: self.a ^ mixed_row0(byte3(column)),
            b: self.b ^ mixed_row3(byte0(column)),
            c: self.c ^ mixed_row2(byte1(column)),
            d: self.d ^ mixed_row1(byte2(column)),
        }
    }
}
