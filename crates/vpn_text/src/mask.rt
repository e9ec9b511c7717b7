//! IPv4 masks of leading ones.

ghost use Rattle.std.specs.Prelude.{◌≡◌, ℕ, ◌≤◌, Some, IfSome, length, take, drop};
ghost use Rattle.vpn_text.specs.Mask.{length_upto, mask_number, mask_of, mask_text, masked_network};

use vpn_base::{Ip4, Prefix, read_ip4, reads_ip4_again, write_ip4};

// So many leading ones.
fn mask_number(len: u8) -> u32
    requires { len ≤ 32 }
    ensures { result ≡ mask_number len }
{
    (0x1_0000_0000u64 - (1u64 << (32 - len))) as u32
}

// How many leading ones a number has, if it is a mask.
fn mask_length(mask: u32) -> Option<u8>
    ensures same { result ≡ length_upto 32 mask }
    ensures within { IfSome result (λ len. len ≤ 32) }
{
    let mut len = 32;
    while len > 0 {
        if mask == mask_number(len) {
            return Some(len);
        }
        len -= 1;
    }
    if mask == 0 { Some(0) } else { None }
}

/// The length of the mask that a text spells, as 24 of `255.255.255.0`. It is None exactly where
/// the text is no IPv4 address, or not one of leading ones.
#[tactic(auto, unfolding(crate::specs::Mask::mask_of))]
pub fn read_mask(text: &[u8]) -> Option<u8>
    ensures same { result ≡ mask_of text.now }
    ensures within { IfSome result (λ len. len ≤ 32) }
{
    match read_ip4(text) {
        None => None,
        Some(a) => mask_length(a.0),
    }
}

/// The prefix that the texts of an address and of a mask spell, as 10.8.0.0 and 255.255.255.0. It
/// is None exactly where one of them spells none, or the address has a bit past the mask.
#[tactic(auto, unfolding(crate::specs::Mask::masked_network))]
pub fn read_network(net: &[u8], mask: &[u8]) -> Option<Prefix>
    ensures { result ≡ masked_network net.now mask.now }
{
    match (read_ip4(net), read_mask(mask)) {
        (Some(net), Some(len)) => Prefix::new(net, len),
        _ => None,
    }
}

/// Writes the mask of a length at the front of the buffer, and answers how many bytes that takes,
/// at most 15. What stands behind them stays.
#[tactic(auto, unfolding(crate::specs::Mask::mask_text))]
pub fn write_mask(len: u8, out: &mut [u8; 15]) -> usize
    requires { len ≤ 32 }
    ensures length { result ≡ length (mask_text len) }
    ensures within { result ≤ 15 }
    ensures written { take result out.new ≡ mask_text len }
    ensures rest { drop result out.new ≡ drop result out.old }
    ensures again { mask_of (mask_text len) ≡ Some len }
{
    reads_mask_again();
    write_ip4(Ip4(mask_number(len)), out)
}

/// The text that is written of a mask is read as its length.
pub fn reads_mask_again()
    ensures { (len : ℕ) → len ≤ 32 → mask_of (mask_text len) ≡ Some len }
{
    reads_ip4_again();
}
