//! A hash key with a table of its multiples: a product is then 32 sums of table entries.

ghost use Rattle.std.specs.Prelude.{◌≡◌, ℕ, ◌+◌, ◌*◌, ◌/◌, ◌%◌, ◌^◌, ◌<◌, ◌≤◌, ◌++◌, List, take, drop, length};
ghost use Rattle.ghash_core.specs.Field.{product};
ghost use Rattle.ghash_core.specs.Ghash.{element, filled_up, ghash_from, padded_blocks};
ghost use Rattle.ghash_core.specs.internal.Multiples.{AreMultiples, ArePowers};

use crate::field::times_x;
use std::marker::Model;

// The length of a block in bytes.
pub(crate) const BLOCK_LEN: usize = 16;

// An element has 32 places of four bits, and each has 16 values.
const MULTIPLES: usize = 512;

/// A hash key, made ready for many products. Contracts see it as the element that it is.
#[derive(Drop)]
pub struct HashKey {
    key: u128,
    multiples: [u128; MULTIPLES],
}

impl Model for HashKey {
    ghost Value = { ℕ };

    ghost view = { λ a. a.key };

    ghost invariant = { λ a. AreMultiples a.multiples a.key };
}

// The element times each power of x.
fn powers_of(element: u128) -> [u128; 128]
    ensures { ArePowers result element }
{
    let mut powers = [0u128; 128];
    let mut shifted = element;
    'powers: for i in 0..128usize {
        powers[i] = shifted;
        shifted = times_x(shifted);
    }
    powers
}

// The element whose powers these are, times four bits: those with the value `index % 16` at the
// place `index / 16`, counted from the right.
fn multiple(powers: &[u128; 128], index: usize) -> u128
    requires { index < 512 }
    ensures { (y : ℕ) → ArePowers powers.now y
        → result ≡ product (index % 16 * 2 ^ (4 * (index / 16))) y }
{
    let digit = index % 16;
    let place = 4 * (index / 16);
    let mut sum = 0;
    'bits: for bit in 0..4usize {
        if (digit >> bit) & 1 == 1 {
            sum ^= powers[127 - place - bit];
        }
    }
    sum
}

// The key times the 16 places of four bits that `half` has, of which the last is `first_place`
// places from the right.
#[inline(always)]
fn half_product(multiples: &[u128; MULTIPLES], first_place: usize, half: u64) -> u128
    requires { first_place ≤ 16 }
    ensures { (y : ℕ) → AreMultiples multiples.now y
        → result ≡ product (half * 2 ^ (4 * first_place)) y }
{
    let mut sum = 0;
    'places: for place in 0..16usize {
        let digit = ((half >> (4 * place)) & 15) as usize;
        sum ^= multiples[16 * (first_place + place) + digit];
    }
    sum
}

// The block of 16 bytes from a place on.
#[inline(always)]
fn element_at(bytes: &[u8], start: usize) -> u128
    requires { start + 16 ≤ length bytes.now }
    ensures { result ≡ element (take 16 (drop start bytes.now)) }
{
    let mut block = [0u8; BLOCK_LEN];
    block.copy_from_slice(&bytes[start..start + BLOCK_LEN]);
    u128::from_be_bytes(block)
}

// A short block, filled up with zeros.
pub(crate) fn filled_up(bytes: &[u8]) -> [u8; BLOCK_LEN]
    requires { length bytes.now ≤ 16 }
    ensures { result ≡ filled_up bytes.now }
{
    let mut block = [0u8; BLOCK_LEN];
    block[..bytes.len()].copy_from_slice(bytes);
    block
}

impl HashKey {
    /// The table of a hash key, whose block is this number, first byte highest.
    pub fn new(h: u128) -> HashKey
        ensures { result ≡ h }
    {
        let powers = powers_of(h);
        let mut multiples = [0u128; MULTIPLES];
        'multiples: for index in 0..MULTIPLES {
            multiples[index] = multiple(&powers, index);
        }
        HashKey { key: h, multiples }
    }

    /// The product of an element and the hash key (SP 800-38D, section 6.3).
    #[inline(always)]
    pub fn mul(&self, x: u128) -> u128
        ensures { result ≡ product x self.now }
    {
        let low = (x & 0xffff_ffff_ffff_ffff) as u64;
        let high = (x >> 64) as u64;
        half_product(&self.multiples, 0, low) ^ half_product(&self.multiples, 16, high)
    }

    /// GHASH, gone on with from `sum` over the blocks of `bytes`, of which a last short one is
    /// padded with zeros (SP 800-38D, section 6.4). A `sum` of 0 begins it. Behind whole blocks it
    /// goes on as over one list of bytes.
    pub fn absorb(&self, sum: u128, bytes: &[u8]) -> u128
        ensures padded { result ≡ ghash_from self.now sum (padded_blocks bytes.now) }
        ensures behind { (first : ℕ) (before : List ℕ) → length before % 16 ≡ 0 → sum ≡ ghash_from self.now first (padded_blocks before)
            → result ≡ ghash_from self.now first (padded_blocks (before ++ bytes.now)) }
    {
        let mut sum = sum;
        let whole = bytes.len() / BLOCK_LEN;
        'whole_blocks: for i in 0..whole {
            sum = self.mul(sum ^ element_at(bytes, BLOCK_LEN * i));
        }
        let rest = &bytes[BLOCK_LEN * whole..];
        if rest.is_empty() {
            return sum;
        }
        self.mul(sum ^ u128::from_be_bytes(filled_up(rest)))
    }
}
