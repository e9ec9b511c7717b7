//! The addresses of an inner IPv4 packet.
#![tactic(auto)]

ghost use Rattle.std.specs.Prelude.{◌≡◌, ◌+◌, ◌≤◌, length, true, false, IfOk, IfErr};
ghost use Rattle.ip_packets.specs.Inner.{is_ip, address_at, source, destination};

use std::marker::Model;
use vpn_base::Ip4;

/// The bytes are no IPv4 packet.
#[derive(Clone, Copy, Debug, PartialEq, Eq)]
pub struct NotIp;

/// An IPv4 packet. Contracts see its bytes.
#[derive(Drop)]
pub struct Inner<'a> {
    packet: &'a [u8],
}

impl<'a> Model for Inner<'a> {
    ghost use Rattle.std.specs.Prelude.{ℕ, List, ◌≤◌, length};

    ghost Value = { List ℕ };

    ghost view = { λ p. p.packet.now };

    ghost invariant = { λ p. 20 ≤ length p.packet.now };
}

fn read_address(packet: &[u8], place: usize) -> Ip4
    requires { place + 4 ≤ length packet.now }
    ensures { result ≡ address_at place packet.now }
{
    Ip4(u32::from_be_bytes([
        packet[place],
        packet[place + 1],
        packet[place + 2],
        packet[place + 3],
    ]))
}

impl<'a> Inner<'a> {
    /// The packet of these bytes. NotIp comes exactly where there are fewer than 20 of them or the
    /// first half byte is not 4.
    pub fn read(packet: &'a [u8]) -> Result<Inner<'a>, NotIp>
        ensures ip { IfOk result (λ p. (is_ip packet.now ≡ true) × (p ≡ packet.now)) }
        ensures not_ip { IfErr result (λ _. is_ip packet.now ≡ false) }
    {
        if packet.len() < 20 || packet[0] / 16 != 4 {
            return Err(NotIp);
        }
        Ok(Inner { packet })
    }

    /// Where it comes from: bytes 12 to 15.
    #[tactic(auto, unfolding(crate::specs::Inner::source))]
    pub fn source(&self) -> Ip4
        ensures { result ≡ source self.now }
    {
        read_address(self.packet, 12)
    }

    /// Where it goes to: bytes 16 to 19.
    #[tactic(auto, unfolding(crate::specs::Inner::destination))]
    pub fn destination(&self) -> Ip4
        ensures { result ≡ destination self.now }
    {
        read_address(self.packet, 16)
    }
}
