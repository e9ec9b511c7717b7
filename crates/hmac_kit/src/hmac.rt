//! HMAC (RFC 2104), fed in pieces.

ghost use Rattle.std.specs.Prelude.{◌≡◌, ℕ, ◌≤◌, ◌<◌, List, [], ◌++◌, length, map, bit_xor};
ghost use Rattle.sha2.specs.Sha256.{sha256};
ghost use Rattle.hmac_kit.specs.Hmac as words;
ghost use Rattle.hmac_kit.specs.Hashers.{Holds, HoldsText};

use crate::hash_function::HashFunction;
use md5::Md5;
use sha1::Sha1;
use sha2::Sha256;

// The length in bytes of the blocks that each of the three hash functions works on.
const BLOCK_SIZE: usize = 64;

// What each byte of the key is xored with before the text, and before the inner digest.
const IPAD: u8 = 0x36;

const OPAD: u8 = 0x5c;

/// An HMAC that takes its text piece by piece.
#[derive(Drop)]
pub struct Hmac<H> {
    pub inner: H,
    pub outer: H,
}

// The block with each byte xored with `pad`.
fn masked(mut block: [u8; BLOCK_SIZE], pad: u8) -> [u8; BLOCK_SIZE]
    ensures { result ≡ map (λ byte. bit_xor byte pad) block }
{
    for byte in block.iter_mut() {
        *byte ^= pad;
    }
    block
}

// A key of at most a block, with zeros behind it.
fn padded(key: &[u8]) -> [u8; BLOCK_SIZE]
    requires { length key.now ≤ 64 }
    ensures { result ≡ words.padded_key key.now }
{
    let mut block = [0; BLOCK_SIZE];
    block[..key.len()].copy_from_slice(key);
    block
}

// The key as a block: hashed if it is longer than one, and with zeros behind it.
fn key_block_of<H: HashFunction<N>, const N: usize>(key: &[u8]) -> [u8; BLOCK_SIZE]
    requires { N ≤ 64 }
    ensures { result ≡ words.padded_key (words.short_key H.hash key.now) }
{
    if key.len() > BLOCK_SIZE {
        let mut hasher = H::begin();
        hasher.absorb(key);
        padded(&hasher.digest())
    } else {
        padded(key)
    }
}

// The HMAC of no text yet, under the key.
pub(crate) fn keyed<H: HashFunction<N>, const N: usize>(key: &[u8]) -> Hmac<H>
    requires { N ≤ 64 }
    ensures { HoldsText H.holds H.hash result key.now [] }
{
    let block = key_block_of::<H, N>(key);
    let mut inner = H::begin();
    inner.absorb(&masked(block, IPAD));
    let mut outer = H::begin();
    outer.absorb(&masked(block, OPAD));
    Hmac { inner, outer }
}

// Adds a piece to the text.
pub(crate) fn feed<H: HashFunction<N>, const N: usize>(mac: &mut Hmac<H>, piece: &[u8])
    ensures { (key text : List ℕ) → HoldsText H.holds H.hash mac.old key text
        → HoldsText H.holds H.hash mac.new key (text ++ piece.now) }
{
    mac.inner.absorb(piece);
}

// The HMAC of the text.
pub(crate) fn tag<H: HashFunction<N>, const N: usize>(mac: Hmac<H>) -> [u8; N]
    ensures { (key text : List ℕ) → HoldsText H.holds H.hash mac key text → result ≡ words.hmac H.hash key text }
{
    let Hmac { inner, mut outer } = mac;
    outer.absorb(&inner.digest());
    outer.digest()
}

/// HMAC-MD5 of a text under a key (RFC 2104 with MD5), 16 bytes.
pub fn hmac_md5(key: &[u8], text: &[u8]) -> [u8; 16]
    ensures { result ≡ words.hmac_md5 key.now text.now }
{
    let mut mac = keyed::<Md5, 16>(key);
    feed::<Md5, 16>(&mut mac, text);
    tag::<Md5, 16>(mac)
}

/// HMAC-SHA1 of a text under a key (RFC 2104 with SHA-1), 20 bytes.
pub fn hmac_sha1(key: &[u8], text: &[u8]) -> [u8; 20]
    ensures { result ≡ words.hmac_sha1 key.now text.now }
{
    let mut mac = keyed::<Sha1, 20>(key);
    feed::<Sha1, 20>(&mut mac, text);
    tag::<Sha1, 20>(mac)
}

/// HMAC-SHA-256 under a key of a text that is fed in pieces (RFC 2104 with SHA-256).
#[derive(Drop)]
pub struct HmacSha256 {
    mac: Hmac<Sha256>,
}

impl HmacSha256 {
    /// The HMAC of no text yet, under a key of any length.
    pub fn new(key: &[u8]) -> HmacSha256
        ensures { Holds result key.now [] }
    {
        HmacSha256 {
            mac: keyed::<Sha256, 32>(key),
        }
    }

    /// Adds bytes to the end of the text.
    pub fn update(&mut self, text: &[u8])
        ensures { (k taken : List ℕ) → Holds self.old k taken → Holds self.new k (taken ++ text.now) }
    {
        feed::<Sha256, 32>(&mut self.mac, text);
    }

    /// The HMAC of the whole text, 32 bytes.
    pub fn finish(self) -> [u8; 32]
        ensures { (k taken : List ℕ) → Holds self k taken → result ≡ words.hmac_sha256 k taken }
    {
        tag::<Sha256, 32>(self.mac)
    }
}

/// HMAC-SHA-256 of a text under a key (RFC 2104 with SHA-256), 32 bytes.
pub fn hmac_sha256(key: &[u8], text: &[u8]) -> [u8; 32]
    ensures { result ≡ words.hmac_sha256 key.now text.now }
{
    let mut mac = HmacSha256::new(key);
    mac.update(text);
    mac.finish()
}
