//! Addresses with a port as text, as in `192.0.2.7:40000`.
#![tactic(auto)]

ghost use Rattle.std.specs.Prelude.{◌≡◌, ◌==◌, ◌∷◌, [], ◌++◌, None, MatchOption, OnOk};
ghost use Rattle.std.specs.List.{slice_split};
ghost use Rattle.vpn_base.specs.Number.{number_of};
ghost use Rattle.address_text.specs.AddressText.{addr_of, addr_of_parts, addr_text};

use itoa::Buffer;
use vpn_base::{Addr, NoMemory, read_ip4, read_number, split_once, write_ip4};

// The two parts between colons, where there are two.
fn two_parts(word: &[u8]) -> Option<(&[u8], &[u8])>
    ensures { MatchOption result
        (addr_of_parts (slice_split (λ c. c == 58) word.now) ≡ None)
        (λ parts. slice_split (λ c. c == 58) word.now ≡ parts.0.now ∷ parts.1.now ∷ []) }
{
    let (ip, port) = split_once(word, b':')?;
    match split_once(port, b':') {
        Some(_) => None,
        None => Some((ip, port)),
    }
}

fn read_port(text: &[u8]) -> Option<u16>
    ensures { result ≡ number_of 65535 text.now }
{
    match read_number(text, 65_535) {
        None => None,
        Some(n) => Some(n as u16),
    }
}

/// The address with its port, 0 to 65535, that a word spells; None exactly where it spells none. Neither part
/// has a zero in front.
#[tactic(auto, unfolding(crate::specs::AddressText::addr_of))]
pub fn read_addr(word: &[u8]) -> Option<Addr>
    ensures { result ≡ addr_of word.now }
{
    let (ip, port) = two_parts(word)?;
    match (read_ip4(ip), read_port(port)) {
        (Some(ip), Some(port)) => Some(Addr { ip, port }),
        _ => None,
    }
}

/// Appends an address with its port. After want of memory a part of the text may stand at the end.
#[tactic(auto, unfolding(crate::specs::AddressText::addr_text))]
pub fn write_addr(text: &mut Vec<u8>, a: Addr) -> Result<(), NoMemory>
    ensures { OnOk result (text.new.items ≡ text.old.items ++ addr_text a) }
{
    let mut ip = [0; 15];
    let len = write_ip4(a.ip, &mut ip);
    text.extend_from_slice(&ip[..len])?;
    text.push(b':')?;
    let mut port = Buffer::new();
    text.extend_from_slice(port.format(a.port).as_bytes())?;
    Ok(())
}
