//! What holds of each line that is read.

ghost use Rattle.std.specs.Prelude.{◌≡◌, ℕ, not, true, List, Ok};
ghost use Rattle.std.specs.List.{list_all};
ghost use Rattle.vpn_text.specs.Words.{is_control, line_words};

/// A line that is read has no control byte, nor have its words.
pub fn reads_no_control()
    ensures line { (line : List ℕ) → (words : List (List ℕ)) → line_words line ≡ Ok words
        → list_all (λ c. not (is_control c)) line ≡ true }
    ensures words { (line : List ℕ) → (words : List (List ℕ)) → line_words line ≡ Ok words
        → list_all (λ word. list_all (λ c. not (is_control c)) word) words ≡ true }
{}
