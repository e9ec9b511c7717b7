//! GHASH, fed block by block.

ghost use Rattle.std.specs.Prelude.{◌≡◌, ℕ, List, [], ◌∷◌, ◌++◌};
ghost use Rattle.ghash_core.specs.Ghash.{ghash, padded_blocks};

use crate::hash_key::{BLOCK_LEN, HashKey, filled_up};

/// GHASH of the blocks fed so far (SP 800-38D, section 6.4).
#[derive(Drop)]
pub struct Ghash {
    key: HashKey,
    sum: u128,
}

impl Ghash {
    ghost use Rattle.ghash_core.specs.Hasher.{Holds};

    /// A hasher of no blocks under a hash key, whose block is this number, first byte highest.
    pub fn new(h: u128) -> Ghash
        ensures { Holds result h [] }
    {
        Ghash {
            key: HashKey::new(h),
            sum: 0,
        }
    }

    /// Feeds one block.
    pub fn update(&mut self, block: [u8; 16])
        ensures { (h : ℕ) (blocks : List (List ℕ)) → Holds self.old h blocks
            → Holds self.new h (blocks ++ block ∷ []) }
    {
        self.sum = self.key.mul(self.sum ^ u128::from_be_bytes(block));
    }

    /// GHASH of the blocks.
    pub fn finish(self) -> u128
        ensures { (h : ℕ) (blocks : List (List ℕ)) → Holds self h blocks → result ≡ ghash h blocks }
    {
        self.sum
    }
}

/// GHASH of the blocks of `bytes`, of which a last short one is padded with zeros (SP 800-38D,
/// section 6.4).
pub fn ghash_of(h: u128, bytes: &[u8]) -> u128
    ensures { result ≡ ghash h (padded_blocks bytes.now) }
{
    let mut hasher = Ghash::new(h);
    let count = bytes.len().div_ceil(BLOCK_LEN);
    'each_block: for i in 0..count {
        let start = BLOCK_LEN * i;
        let end = bytes.len().min(start + BLOCK_LEN);
        hasher.update(filled_up(&bytes[start..end]));
    }
    hasher.finish()
}
