//! AES in Galois/Counter Mode, with nonces of 96 bits and tags of 128 (SP 800-38D, section 7).

ghost use Rattle.std.specs.Prelude.{◌≡◌, ◌≤◌, ◌+◌, ◌*◌, ◌<◌, ◌++◌, ℕ, List, length, IfOk, IfErr};
ghost use Rattle.std.specs.Int.{w32, w64, to_be_bytes};
ghost use Rattle.gcm_seal.specs.Gcm.{gcm, hash_key, tag_of};
ghost use Rattle.gcm_seal.specs.internal.Laws.{gcm_lengths, same_plain};

use crate::aead::{Aead, NotSealed};
use aes_core::AesKey;
use ghash_core::HashKey;
use std::marker::Model;

// The numbers of the counter blocks that encipher the tag and the first block of the text.
const TAG_COUNTER: u8 = 1;

const TEXT_COUNTER: u8 = 2;

// The block of a nonce and a number.
fn counter_block(nonce: [u8; 12], number: u8) -> [u8; 16]
    ensures { result ≡ nonce ++ to_be_bytes w32 number }
{
    let mut block = [0u8; 16];
    block[..12].copy_from_slice(&nonce);
    block[15] = number;
    block
}

// The block of the lengths in bits of the additional data and the text, which are given in bytes.
fn length_block(aad: usize, text: usize) -> [u8; 16]
    requires aad { aad ≤ 65536 }
    requires text { text ≤ 65536 }
    ensures { result ≡ to_be_bytes w64 (8 * aad) ++ to_be_bytes w64 (8 * text) }
{
    let mut block = [0u8; 16];
    block[..8].copy_from_slice(&(8 * aad as u64).to_be_bytes());
    block[8..].copy_from_slice(&(8 * text as u64).to_be_bytes());
    block
}

// GCM under a key of any length, seen as the key's bytes.
#[derive(Drop)]
struct Gcm {
    aes: AesKey,
    hash: HashKey,
}

impl Model for Gcm {
    ghost Value = { List ℕ };

    ghost view = { λ a. a.aes };

    ghost invariant = { λ a. a.hash ≡ hash_key a.aes };
}

impl Gcm {
    fn new(aes: AesKey) -> Gcm
        ensures { result ≡ aes }
    {
        let hash = HashKey::new(u128::from_be_bytes(aes.block([0; 16])));
        Gcm { aes, hash }
    }

    // The tag of a cipher text.
    fn tag(&self, nonce: [u8; 12], aad: &[u8], text: &[u8]) -> [u8; 16]
        requires aad { length aad.now ≤ 65536 }
        requires text { length text.now ≤ 65536 }
        ensures { result ≡ tag_of self.now nonce aad.now text.now }
    {
        let sum = self.hash.absorb(0, aad);
        let sum = self.hash.absorb(sum, text);
        let lengths = u128::from_be_bytes(length_block(aad.len(), text.len()));
        let mut tag = self.hash.mul(sum ^ lengths).to_be_bytes();
        self.aes.ctr(counter_block(nonce, TAG_COUNTER), &mut tag);
        tag
    }

    fn seal(&self, nonce: [u8; 12], aad: &[u8], bytes: &mut [u8]) -> [u8; 16]
        requires aad { length aad.now ≤ 65536 }
        requires bytes { length bytes.old ≤ 65536 }
        ensures { gcm self.now nonce aad.now bytes.old ≡ record { text = bytes.new; tag = result } }
    {
        self.aes.ctr(counter_block(nonce, TEXT_COUNTER), bytes);
        self.tag(nonce, aad, bytes)
    }

    fn unseal(
        &self,
        nonce: [u8; 12],
        aad: &[u8],
        tag: [u8; 16],
        bytes: &mut [u8],
    ) -> Result<(), NotSealed>
        requires aad { length aad.now ≤ 65536 }
        requires bytes { length bytes.old ≤ 65536 }
        ensures opened { IfOk result (λ _.
            gcm self.now nonce aad.now bytes.new ≡ record { text = bytes.old; tag = tag }) }
        ensures refused { IfErr result (λ _. (plain : List ℕ) → length plain ≡ length bytes.old
            → ¬ (gcm self.now nonce aad.now plain ≡ record { text = bytes.old; tag = tag })) }
        ensures unchanged { IfErr result (λ _. bytes.new ≡ bytes.old) }
    {
        // All 16 bytes are compared at once, before anything is decrypted.
        let expected = self.tag(nonce, aad, bytes);
        if u128::from_be_bytes(tag) != u128::from_be_bytes(expected) {
            return Err(NotSealed);
        }
        self.aes.ctr(counter_block(nonce, TEXT_COUNTER), bytes);
        Ok(())
    }
}

/// GCM under an AES key of 128 bits. Contracts see it as the key's 16 bytes.
#[derive(Drop)]
pub struct Gcm128 {
    gcm: Gcm,
}

impl Model for Gcm128 {
    ghost Value = { List ℕ };

    ghost view = { λ a. a.gcm };
}

impl Gcm128 {
    /// GCM under the key of 128 bits with these 16 bytes.
    pub fn new(key: &[u8; 16]) -> Gcm128
        ensures { result ≡ key.now }
    {
        Gcm128 {
            gcm: Gcm::new(AesKey::new128(key)),
        }
    }
}

impl Aead for Gcm128 {
    ghost sealed = { gcm };

    ghost lengths = { gcm_lengths };

    ghost one_plain = { same_plain };

    fn seal(&self, nonce: [u8; 12], aad: &[u8], bytes: &mut [u8]) -> [u8; 16] {
        self.gcm.seal(nonce, aad, bytes)
    }

    fn unseal(
        &self,
        nonce: [u8; 12],
        aad: &[u8],
        tag: [u8; 16],
        bytes: &mut [u8],
    ) -> Result<(), NotSealed> {
        self.gcm.unseal(nonce, aad, tag, bytes)
    }
}

/// GCM under an AES key of 256 bits. Contracts see it as the key's 32 bytes.
#[derive(Drop)]
pub struct Gcm256 {
    gcm: Gcm,
}

impl Model for Gcm256 {
    ghost Value = { List ℕ };

    ghost view = { λ a. a.gcm };
}

impl Gcm256 {
    /// GCM under the key of 256 bits with these 32 bytes.
    pub fn new(key: &[u8; 32]) -> Gcm256
        ensures { result ≡ key.now }
    {
        Gcm256 {
            gcm: Gcm::new(AesKey::new256(key)),
        }
    }
}

impl Aead for Gcm256 {
    ghost sealed = { gcm };

    ghost lengths = { gcm_lengths };

    ghost one_plain = { same_plain };

    fn seal(&self, nonce: [u8; 12], aad: &[u8], bytes: &mut [u8]) -> [u8; 16] {
        self.gcm.seal(nonce, aad, bytes)
    }

    fn unseal(
        &self,
        nonce: [u8; 12],
        aad: &[u8],
        tag: [u8; 16],
        bytes: &mut [u8],
    ) -> Result<(), NotSealed> {
        self.gcm.unseal(nonce, aad, tag, bytes)
    }
}

/// GCM under a key of either length, as negotiation finds it.
#[derive(Drop)]
pub enum AnyGcm {
    /// Under a key of 128 bits.
    Short(Gcm128),
    /// Under a key of 256 bits.
    Long(Gcm256),
}

impl Aead for AnyGcm {
    ghost use Rattle.gcm_seal.specs.AnyGcm.{key_of};

    ghost sealed = { λ g. gcm (key_of g) };

    ghost lengths = { λ g. gcm_lengths (key_of g) };

    ghost one_plain = { λ g. same_plain (key_of g) };

    fn seal(&self, nonce: [u8; 12], aad: &[u8], bytes: &mut [u8]) -> [u8; 16] {
        match self {
            AnyGcm::Short(gcm) => gcm.seal(nonce, aad, bytes),
            AnyGcm::Long(gcm) => gcm.seal(nonce, aad, bytes),
        }
    }

    fn unseal(
        &self,
        nonce: [u8; 12],
        aad: &[u8],
        tag: [u8; 16],
        bytes: &mut [u8],
    ) -> Result<(), NotSealed> {
        match self {
            AnyGcm::Short(gcm) => gcm.unseal(nonce, aad, tag, bytes),
            AnyGcm::Long(gcm) => gcm.unseal(nonce, aad, tag, bytes),
        }
    }
}
