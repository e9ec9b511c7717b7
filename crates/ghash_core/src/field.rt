//! Arithmetic in GF(2^128), bit by bit.

ghost use Rattle.std.specs.Prelude.{◌≡◌};
ghost use Rattle.ghash_core.specs.Field.{product, times_x};

// What is added where the coefficient of x^127 falls out.
const REDUCTION: u128 = 0xe100_0000_0000_0000_0000_0000_0000_0000;

// The element times the polynomial x.
pub(crate) fn times_x(element: u128) -> u128
    ensures { result ≡ times_x element }
{
    if element & 1 == 1 {
        (element >> 1) ^ REDUCTION
    } else {
        element >> 1
    }
}

/// The product of two elements of GF(2^128) (SP 800-38D, section 6.3), each the number of its
/// block, first byte highest.
pub fn mul(x: u128, y: u128) -> u128
    ensures { result ≡ product x y }
{
    let mut sum = 0;
    let mut shifted = y;
    'coefficients: for i in 0..128u32 {
        if (x >> (127 - i)) & 1 == 1 {
            sum ^= shifted;
        }
        shifted = times_x(shifted);
    }
    sum
}
