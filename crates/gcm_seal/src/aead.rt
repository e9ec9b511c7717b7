//! Authenticated encryption with additional data, whatever the cipher.

ghost use Rattle.std.specs.Prelude.{◌≡◌, ◌≤◌, ℕ, List, length, IfOk, IfErr};
ghost use Rattle.gcm_seal.specs.Sealed.{Sealed};

/// The bytes are not what any plain text of that length seals to.
#[derive(Clone, Copy, Debug, PartialEq, Eq)]
pub struct NotSealed;

/// Authenticated encryption with additional data, in place.
pub trait Aead {
    /// What seals: a nonce, additional data and a plain text to a cipher text and a tag.
    ghost sealed: { Self → List ℕ → List ℕ → List ℕ → Sealed };

    /// Encrypts the bytes in place, and answers the tag that authenticates them and the additional
    /// data. A nonce is used once a key.
    fn seal(&self, nonce: [u8; 12], aad: &[u8], bytes: &mut [u8]) -> [u8; 16]
        requires aad { length aad.now ≤ 65536 }
        requires bytes { length bytes.old ≤ 65536 }
        ensures text_and_tag { sealed self.now nonce aad.now bytes.old ≡ record { text = bytes.new; tag = result } };

    /// Decrypts the bytes in place, if they, the tag and the additional data are authentic.
    ///
    /// `NotSealed` comes exactly where no plain text of that length seals to these bytes and this
    /// tag. The bytes are unchanged then.
    fn unseal(
        &self,
        nonce: [u8; 12],
        aad: &[u8],
        tag: [u8; 16],
        bytes: &mut [u8],
    ) -> Result<(), NotSealed>
        requires aad { length aad.now ≤ 65536 }
        requires bytes { length bytes.old ≤ 65536 }
        ensures opened { IfOk result (λ _.
            sealed self.now nonce aad.now bytes.new ≡ record { text = bytes.old; tag = tag }) }
        ensures refused { IfErr result (λ _. (plain : List ℕ) → length plain ≡ length bytes.old
            → ¬ (sealed self.now nonce aad.now plain ≡ record { text = bytes.old; tag = tag })) }
        ensures unchanged { IfErr result (λ _. bytes.new ≡ bytes.old) };

    /// A cipher text is as long as its plain text, and a tag has 16 bytes.
    ghost lengths: { (key : Self) (nonce aad plain : List ℕ)
        → (length (sealed key nonce aad plain).text ≡ length plain)
        × (length (sealed key nonce aad plain).tag ≡ 16) };

    /// No two plain texts seal to one cipher text and tag.
    ghost one_plain: { (key : Self) (nonce aad p q : List ℕ)
        → sealed key nonce aad p ≡ sealed key nonce aad q → p ≡ q };
}
