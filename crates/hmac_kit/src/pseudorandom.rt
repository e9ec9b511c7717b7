//! The pseudorandom function of TLS 1.0 (RFC 2246, section 5).

ghost use Rattle.std.specs.Prelude.{◌≡◌, ◌≤◌, ◌<◌, ◌++◌, length, map};
ghost use Rattle.std.specs.List.{concat};
ghost use Rattle.hmac_kit.specs.Hmac as words;
ghost use Rattle.hmac_kit.specs.Prf.{p_hash, both_streams, prf_bytes, xor_bytes};

use crate::hash_function::HashFunction;
use crate::hmac::{feed, keyed, tag};
use md5::Md5;
use sha1::Sha1;

// Xors the front of `out` with the block, or the whole of `out` where it is the shorter.
fn xor_onto(out: &mut [u8], block: &[u8])
    ensures { out.new ≡ xor_bytes out.old block.now }
{
    for k in 0..out.len().min(block.len()) {
        out[k] ^= block[k];
    }
}

// The HMAC of `front` and then the pieces, taken as one text.
fn mac_of<H: HashFunction<N>, const N: usize>(key: &[u8], front: &[u8], pieces: &[&[u8]]) -> [u8; N]
    requires { N ≤ 64 }
    ensures { result ≡ words.hmac H.hash key.now (front.now ++ concat (map (λ piece. piece.now) pieces.now)) }
{
    let mut mac = keyed::<H, N>(key);
    feed::<H, N>(&mut mac, front);
    for piece in pieces {
        feed::<H, N>(&mut mac, piece);
    }
    tag::<H, N>(mac)
}

// Xors the whole of `out` with that many bytes of P_hash over the pieces of a seed.
fn xor_p_hash<H: HashFunction<N>, const N: usize>(secret: &[u8], seed: &[&[u8]], out: &mut [u8])
    requires some { 0 < N }
    requires within { N ≤ 64 }
    ensures long { length out.old
        ≡ length (p_hash (words.hmac H.hash secret.now) (concat (map (λ piece. piece.now) seed.now)) (length out.old)) }
    ensures xored { out.new ≡ xor_bytes out.old
        (p_hash (words.hmac H.hash secret.now) (concat (map (λ piece. piece.now) seed.now)) (length out.old)) }
{
    let count = out.len().div_ceil(N);
    let mut chained = mac_of::<H, N>(secret, &[], seed);
    for i in 0..count {
        let block = mac_of::<H, N>(secret, &chained, seed);
        xor_onto(&mut out[i * N..], &block);
        chained = mac_of::<H, N>(secret, &chained, &[]);
    }
}

// Fills `out` with that many bytes of the pseudorandom function, over the pieces of the label and the seed.
pub(crate) fn prf_of_pieces(secret: &[u8], pieces: &[&[u8]], out: &mut [u8])
    ensures { out.new ≡ both_streams secret.now (concat (map (λ piece. piece.now) pieces.now)) (length out.old) }
{
    let half = secret.len().div_ceil(2);
    out.fill(0);
    xor_p_hash::<Md5, 16>(&secret[..half], pieces, out);
    xor_p_hash::<Sha1, 20>(&secret[secret.len() - half..], pieces, out);
}

/// Fills `out` with that many bytes of PRF(secret, label, seed) (RFC 2246, section 5).
pub fn prf(secret: &[u8], label: &[u8], seed: &[u8], out: &mut [u8])
    ensures { out.new ≡ prf_bytes secret.now label.now seed.now (length out.old) }
{
    prf_of_pieces(secret, &[label, seed], out);
}
