//! The parts of the counter mode: the counter as a block, and a block of key stream added in place.

ghost use Rattle.std.specs.Prelude.{◌≡◌, ◌+◌, ◌≤◌, ◌++◌, length, take, drop};
ghost use Rattle.std.specs.Int.{to_be_bytes, w128};
ghost use Rattle.aes_core.specs.Field.{xor_bytes};
ghost use Rattle.aes_core.specs.internal.Words.{state_bytes, word_bytes};

use crate::words::{State, load_word};

// The block that a counter is.
#[inline(always)]
pub(crate) fn counter_block(counter: u128) -> State
    ensures { state_bytes result ≡ to_be_bytes w128 counter }
{
    State {
        a: (counter >> 96) as u32,
        b: (counter >> 64 & 0xffff_ffff) as u32,
        c: (counter >> 32 & 0xffff_ffff) as u32,
        d: (counter & 0xffff_ffff) as u32,
    }
}

// Adds a word to the four bytes at `at`.
#[inline(always)]
fn xor_word(bytes: &mut [u8], at: usize, word: u32)
    requires { at + 4 ≤ length bytes.old }
    ensures { bytes.new ≡ take at bytes.old ++ xor_bytes (drop at bytes.old) (word_bytes word) }
{
    let sum = load_word(bytes, at) ^ word;
    // One by one: `copy_from_slice` tests whether its slices overlap.
    let [a, b, c, d] = sum.to_be_bytes();
    bytes[at] = a;
    bytes[at + 1] = b;
    bytes[at + 2] = c;
    bytes[at + 3] = d;
}

// Adds a block to the 16 bytes at `at`.
#[inline(always)]
pub(crate) fn xor_block(bytes: &mut [u8], at: usize, block: State)
    requires { at + 16 ≤ length bytes.old }
    ensures { bytes.new ≡ take at bytes.old ++ xor_bytes (drop at bytes.old) (state_bytes block) }
{
    xor_word(bytes, at, block.a);
    xor_word(bytes, at + 4, block.b);
    xor_word(bytes, at + 8, block.c);
    xor_word(bytes, at + 12, block.d);
}

// Adds the front of a block to the bytes from `at` on, of which there are at most 16.
pub(crate) fn xor_front(bytes: &mut [u8], at: usize, block: &[u8; 16])
    requires start { at ≤ length bytes.old }
    requires few { length bytes.old ≤ at + 16 }
    ensures { bytes.new ≡ take at bytes.old ++ xor_bytes (drop at bytes.old) block.now }
{
    let len = bytes.len();
    'bytes: for i in at..len {
        bytes[i] ^= block[i - at];
    }
}
