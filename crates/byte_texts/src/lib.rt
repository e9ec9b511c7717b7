//! All texts of a length, and the search among them: what a datagram holds is said by it with no way
//! back from a cipher text.
#![tactic(auto)]

ghost use Rattle.std.specs.Prelude.{◌≡◌, ◌↔◌, ℕ, Bool, true, List, Contains, Some, None, length};
ghost use Rattle.byte_texts.specs.Texts.{IsBytes, text_with, texts_of_length};

/// The texts of a length are the lists of so many bytes.
pub fn texts_are_lists_of_bytes()
    ensures { (n : ℕ) (text : List ℕ) → Contains (texts_of_length n) text ↔ ((length text ≡ n) × IsBytes text) }
{}

/// A search finds a text that passes its test, and nothing exactly where none passes.
pub fn searches_every_text()
    ensures found { (passes : List ℕ → Bool) (n : ℕ) (text : List ℕ) → text_with passes n ≡ Some text
        → (passes text ≡ true) × (length text ≡ n) × IsBytes text }
    ensures none { (passes : List ℕ → Bool) (n : ℕ) → (text_with passes n ≡ None)
        ↔ ((text : List ℕ) → length text ≡ n → IsBytes text → passes text ≡ true → ⊥) }
{}
