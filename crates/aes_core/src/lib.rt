//! AES with keys of 128 and 256 bits (FIPS 197), and its counter mode (SP 800-38A, 6.5).
#![tactic(auto)]

ghost use Rattle.std.specs.Prelude.{◌≡◌, length};
ghost use Rattle.aes_core.specs.Field.{xor_bytes};
ghost use Rattle.aes_core.specs.Cipher.{cipher};
ghost use Rattle.aes_core.specs.CounterMode.{key_stream};

mod counter;
mod rounds;
mod schedule;
mod shared;
mod tables;
mod words;

use counter::{counter_block, xor_block, xor_front};
use rounds::{encrypt, finish};
use schedule::{SCHEDULE_LEN, expand};
use shared::SharedRounds;
use std::marker::Model;
use words::State;

// The bytes of a block.
const BLOCK_LEN: usize = 16;

/// An AES key with its schedule expanded once. Contracts see it as the key's bytes, 16 or 32 of them.
#[derive(Drop)]
pub struct AesKey {
    words: [u32; SCHEDULE_LEN],
    rounds: usize,
}

impl Model for AesKey {
    ghost use Rattle.std.specs.Prelude.{List, ℕ};

    ghost Value = { List ℕ };

    ghost use Rattle.aes_core.specs.internal.Schedule.{IsExpanded, key_of};

    ghost view = { key_of };

    ghost invariant = { IsExpanded };
}

impl AesKey {
    /// The key of 128 bits with these 16 bytes (FIPS 197, 5.2).
    pub fn new128(key: &[u8; 16]) -> AesKey
        ensures { result ≡ key.now }
    {
        AesKey {
            words: expand(key),
            rounds: 10,
        }
    }

    /// The key of 256 bits with these 32 bytes (FIPS 197, 5.2).
    pub fn new256(key: &[u8; 32]) -> AesKey
        ensures { result ≡ key.now }
    {
        AesKey {
            words: expand(key),
            rounds: 14,
        }
    }

    /// The output of the cipher for one block of 16 bytes (FIPS 197, 5.1).
    pub fn block(&self, block: [u8; 16]) -> [u8; 16]
        ensures { result ≡ cipher self.now block }
    {
        encrypt(&self.words, self.rounds, State::from_block(&block)).to_block()
    }

    /// Adds the key stream of the counter mode to the bytes in place, whatever their number, and so
    /// encrypts or decrypts them. The counter is the whole block, begins at `iv` and wraps
    /// (SP 800-38A, 6.5 and B.1).
    pub fn ctr(&self, iv: [u8; 16], bytes: &mut [u8])
        ensures { bytes.new ≡ xor_bytes bytes.old (key_stream self.now iv (length bytes.old)) }
    {
        let mut counter = u128::from_be_bytes(iv);
        let mut shared = SharedRounds::new(&self.words, counter);
        let whole = bytes.len() / BLOCK_LEN;
        'turns: for i in 0..whole {
            let two = shared.two_rounds((counter & 0xff) as u8);
            xor_block(bytes, BLOCK_LEN * i, finish(&self.words, self.rounds, two));
            counter = counter.wrapping_add(1);
            shared = shared.next(&self.words, counter);
        }
        if bytes.len() % BLOCK_LEN > 0 {
            let stream = encrypt(&self.words, self.rounds, counter_block(counter));
            xor_front(bytes, BLOCK_LEN * whole, &stream.to_block());
        }
    }
}
