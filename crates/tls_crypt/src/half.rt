//! The keys of one direction, and what they make of a packet.

ghost use Rattle.std.specs.Prelude.{◌≡◌, ◌≤◌, ◌++◌, length, take, drop};
ghost use Rattle.tls_crypt.specs.Wrapped.{Keys, cipher_text, keys_of, tag as tag_of};

use crate::bytes::array_at;
use aes_core::AesKey;
use hmac_kit::HmacSha256;
use std::marker::Model;

// The bytes in front of the cipher text: the header and the tag.
pub(crate) const OVERHEAD: usize = 49;

// The place of the HMAC key in a half.
const HMAC_AT: usize = 64;

// The keys in a half of a static key. Contracts see their bytes.
#[derive(Drop)]
pub(crate) struct Half {
    cipher: AesKey,
    hmac: [u8; 32],
}

impl Model for Half {
    ghost Value = { Keys };

    ghost view = { λ h. record { cipher = h.cipher; hmac = h.hmac } };
}

impl Half {
    // The keys in the 128 bytes of a half.
    pub(crate) fn new(half: &[u8]) -> Half
        requires { length half.now ≡ 128 }
        ensures { result ≡ keys_of half.now }
    {
        Half {
            cipher: AesKey::new256(&array_at(half, 0)),
            hmac: array_at(half, HMAC_AT),
        }
    }

    // The tag of a header and a plain text.
    pub(crate) fn tag(&self, header: &[u8], plain: &[u8]) -> [u8; 32]
        ensures { result ≡ tag_of self.now header.now plain.now }
    {
        let mut mac = HmacSha256::new(&self.hmac);
        mac.update(header);
        mac.update(plain);
        mac.finish()
    }

    // Encrypts or decrypts what stands behind the first 49 bytes, under a tag.
    pub(crate) fn encipher(&self, tag: &[u8; 32], datagram: &mut [u8])
        requires { 49 ≤ length datagram.old }
        ensures { datagram.new ≡ take 49 datagram.old ++ cipher_text self.now tag.now (drop 49 datagram.old) }
    {
        self.cipher.ctr(array_at(tag, 0), &mut datagram[OVERHEAD..]);
    }
}
