//! Names of ciphers.

ghost use Rattle.std.specs.Prelude.{◌≡◌};
ghost use Rattle.vpn_text.specs.CipherWord.{cipher_named};

use vpn_base::Cipher;

/// The cipher that a name means: `AES-256-GCM` or `AES-128-GCM`. It is None exactly for any other
/// text.
pub fn read_cipher(name: &[u8]) -> Option<Cipher>
    ensures { result ≡ cipher_named name.now }
{
    if name == b"AES-256-GCM".as_slice() {
        Some(Cipher::Aes256Gcm)
    } else if name == b"AES-128-GCM".as_slice() {
        Some(Cipher::Aes128Gcm)
    } else {
        None
    }
}
