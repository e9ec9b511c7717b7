//! IPv4 addresses and the blocks of them that routes name.

ghost use Rattle.std.specs.Prelude.{◌≡◌, ◌≤◌, SomeIff, ◌∷◌, [], ◌==◌, None, MatchOption, IfSome, position};
ghost use Rattle.std.specs.List.{slice_split};
ghost use Rattle.vpn_base.specs.Address.{ip4_of, of_parts};
ghost use Rattle.vpn_base.specs.Number.{number_of};

use crate::number::read_number;
use std::marker::Model;

/// An IPv4 address: 10.8.0.1 is `0x0A080001`.
#[derive(Clone, Copy, Debug, PartialEq, Eq, PartialOrd, Ord)]
pub struct Ip4(pub u32);

/// An IPv4 address with a port.
#[derive(Clone, Copy, Debug, PartialEq, Eq, PartialOrd, Ord)]
pub struct Addr {
    /// The address.
    pub ip: Ip4,
    /// The port.
    pub port: u16,
}

/// The addresses that begin with the same bits, as in 10.8.0.0/24. Contracts see the first of
/// them and how many bits they share.
#[derive(Clone, Copy, Debug, PartialEq, Eq)]
pub struct Prefix {
    net: Ip4,
    len: u8,
}

impl Model for Prefix {
    ghost use Rattle.vpn_base.specs.Network.{Network, IsNetwork};

    ghost Value = { Network };

    ghost view = { λ p. record { net = p.net; len = p.len } };

    ghost invariant = { λ p. IsNetwork p.net p.len };

    ghost inverse = { λ n. record { net = n.net; len = n.len } };
}

impl Prefix {
    ghost use Rattle.vpn_base.specs.Network.{Network, IsNetwork, contains};

    /// The block that begins with this address and shares its first `len` bits. It is None exactly
    /// where `len` is above 32 or a bit of the address past them is set.
    pub fn new(net: Ip4, len: u8) -> Option<Prefix>
        ensures { SomeIff result (IsNetwork net len) (record { net = net; len = len }) }
    {
        if len > 32 {
            return None;
        }
        if u64::from(net.0) % (1u64 << (32 - len)) != 0 {
            return None;
        }
        Some(Prefix { net, len })
    }

    /// The first address.
    pub fn net(&self) -> Ip4
        ensures { result ≡ self.now.net }
    {
        self.net
    }

    /// How many bits the addresses share, at most 32.
    pub fn len(&self) -> u8
        ensures same { result ≡ self.now.len }
        ensures network { IsNetwork self.now.net self.now.len }
    {
        self.len
    }

    /// Whether the address is one of them.
    pub fn contains(&self, a: Ip4) -> bool
        ensures { result ≡ contains self.now a }
    {
        u64::from(a.0) >> (32 - self.len) == u64::from(self.net.0) >> (32 - self.len)
    }
}

fn first_place(text: &[u8], byte: u8) -> Option<usize>
    ensures { result ≡ position (λ c. c == byte) text.now }
{
    memchr::memchr(byte, text)
}

/// What stands before the first such byte, and what after it. It is None exactly where there is
/// no such byte.
pub fn split_once(text: &[u8], byte: u8) -> Option<(&[u8], &[u8])>
    ensures { MatchOption result
        (slice_split (λ c. c == byte) text.now ≡ text.now ∷ [])
        (λ parts. slice_split (λ c. c == byte) text.now ≡ parts.0.now ∷ slice_split (λ c. c == byte) parts.1.now) }
{
    match first_place(text, byte) {
        None => None,
        Some(i) => Some((&text[..i], &text[i + 1..])),
    }
}

#[derive(Clone, Copy)]
struct Four<'a> {
    first: &'a [u8],
    second: &'a [u8],
    third: &'a [u8],
    fourth: &'a [u8],
}

// The four parts between dots, where there are four.
fn four_parts(text: &[u8]) -> Option<Four<'_>>
    ensures { MatchOption result
        (of_parts (slice_split (λ c. c == 46) text.now) ≡ None)
        (λ parts. slice_split (λ c. c == 46) text.now
        ≡ parts.first.now ∷ parts.second.now ∷ parts.third.now ∷ parts.fourth.now ∷ []) }
{
    let (first, rest) = split_once(text, b'.')?;
    let (second, rest) = split_once(rest, b'.')?;
    let (third, fourth) = split_once(rest, b'.')?;
    match split_once(fourth, b'.') {
        Some(_) => None,
        None => Some(Four {
            first,
            second,
            third,
            fourth,
        }),
    }
}

fn read_octet(text: &[u8]) -> Option<u32>
    ensures same { result ≡ number_of 255 text.now }
    ensures small { IfSome result (λ n. n ≤ 255) }
{
    match read_number(text, 255) {
        None => None,
        Some(n) => Some(n as u32),
    }
}

/// The address that a text spells. It is None exactly where the text is not four decimal numbers
/// of 0 to 255 without leading zeros, joined by dots.
#[tactic(auto, unfolding(crate::specs::Address::ip4_of))]
pub fn read_ip4(text: &[u8]) -> Option<Ip4>
    ensures { result ≡ ip4_of text.now }
{
    let parts = four_parts(text)?;
    let a = read_octet(parts.first)?;
    let b = read_octet(parts.second)?;
    let c = read_octet(parts.third)?;
    let d = read_octet(parts.fourth)?;
    Some(Ip4(a * 0x100_0000 + b * 0x1_0000 + c * 0x100 + d))
}
