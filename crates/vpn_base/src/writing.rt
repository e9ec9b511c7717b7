//! Bytes written into a buffer, and IPv4 addresses as text.

ghost use Rattle.std.specs.Prelude.{◌≡◌, ℕ, ◌≤◌, ◌<◌, ◌+◌, ◌^◌, [], ◌∷◌, ◌++◌, length, take, drop, Some};
ghost use Rattle.std.specs.Fmt.{decimal};
ghost use Rattle.vpn_base.specs.declared.address.Ip4.{Ip4};
ghost use Rattle.vpn_base.specs.Address.{ip4_of, ip4_text};

use crate::address::Ip4;
use itoa::Buffer;

/// Writes bytes at a place. What stands before and behind them stays.
pub fn write_at(out: &mut [u8], at: usize, bytes: &[u8])
    requires { at + length bytes.now ≤ length out.old }
    ensures written { take (at + length bytes.now) out.new ≡ take at out.old ++ bytes.now }
    ensures rest { drop (at + length bytes.now) out.new ≡ drop (at + length bytes.now) out.old }
{
    out[at..at + bytes.len()].copy_from_slice(bytes);
}

// Writes a byte of an address in decimal at a place, and answers the place behind it.
fn write_octet(out: &mut [u8], at: usize, octet: u8) -> usize
    requires { at + 3 ≤ length out.old }
    ensures place { result ≡ at + length (decimal octet) }
    ensures short { result ≤ at + 3 }
    ensures written { take result out.new ≡ take at out.old ++ decimal octet }
    ensures rest { drop result out.new ≡ drop result out.old }
{
    let mut buffer = Buffer::new();
    let text = buffer.format(octet).as_bytes();
    write_at(out, at, text);
    at + text.len()
}

// The same with a dot behind it.
fn write_dotted(out: &mut [u8], at: usize, octet: u8) -> usize
    requires { at + 4 ≤ length out.old }
    ensures place { result ≡ at + length (decimal octet) + 1 }
    ensures short { result ≤ at + 4 }
    ensures written { take result out.new ≡ take at out.old ++ (decimal octet ++ 46 ∷ []) }
    ensures rest { drop result out.new ≡ drop result out.old }
{
    let end = write_octet(out, at, octet);
    write_at(out, end, b".");
    end + 1
}

/// Writes an address in dotted decimal at the front of the buffer, and answers how many bytes
/// that takes, at most 15. What stands behind them stays.
pub fn write_ip4(a: Ip4, out: &mut [u8; 15]) -> usize
    ensures length { result ≡ length (ip4_text a) }
    ensures within { result ≤ 15 }
    ensures written { take result out.new ≡ ip4_text a }
    ensures rest { drop result out.new ≡ drop result out.old }
    ensures again { ip4_of (ip4_text a) ≡ Some a }
{
    let second = write_dotted(out, 0, (a.0 >> 24) as u8);
    let third = write_dotted(out, second, ((a.0 >> 16) % 0x100) as u8);
    let fourth = write_dotted(out, third, ((a.0 >> 8) % 0x100) as u8);
    write_octet(out, fourth, (a.0 % 0x100) as u8)
}

/// The text that is written of an address is read as that address.
pub fn reads_ip4_again()
    ensures { (a : Ip4) → a.0 < 2 ^ 32 → ip4_of (ip4_text a) ≡ Some a }
{}
