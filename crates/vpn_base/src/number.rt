//! Decimal numbers.

ghost use Rattle.std.specs.Prelude.{◌≡◌, ℕ, ◌≤◌, ◌<◌, ◌^◌, IfSome, Some};
ghost use Rattle.std.specs.Fmt.{decimal};
ghost use Rattle.vpn_base.specs.Number.{number_of};

/// The number that a text spells, of at most `most`. It is None exactly where the text is not
/// decimal digits with no leading zero, or spells more.
#[tactic(auto, unfolding(crate::specs::Number::number_of))]
pub fn read_number(text: &[u8], most: u64) -> Option<u64>
    ensures same { result ≡ number_of most text.now }
    ensures within { IfSome result (λ n. n ≤ most) }
{
    if text.is_empty() || (text.len() > 1 && text[0] == b'0') {
        return None;
    }
    let mut value: u128 = 0;
    for digit in text {
        if *digit < b'0' || *digit > b'9' {
            return None;
        }
        value = 10 * value + u128::from(*digit - b'0');
        if value > u128::from(most) {
            return None;
        }
    }
    Some(value as u64)
}

/// The decimal text that is written of a number is read as that number, under each limit that is
/// not below it.
pub fn reads_decimal_again()
    ensures { (most n : ℕ) → n ≤ most → n < 2 ^ 64 → number_of most (decimal n) ≡ Some n }
{}
