//! Wrapping under a static key (OpenVPN 2.6, src/openvpn/tls_crypt.h).

ghost use Rattle.std.specs.Prelude.{◌≡◌, Some};
ghost use Rattle.byte_texts.specs.Texts.{IsBytes};
ghost use Rattle.vpn_base.specs.declared.names.Role.TheVariants.{Client, Server};
ghost use Rattle.tls_crypt.specs.Wrapped.{half, keys_of, read_half, written_half, wrapped as datagram_of};
ghost use Rattle.tls_crypt.specs.Packets.{Directions, InRange, Packet, wrapped_by};
ghost use Rattle.tls_crypt.specs.Unwrapping.{unwrapping};
ghost use Rattle.tls_crypt.specs.internal.Laws.{framed, one_packet};

use crate::bytes::array_at;
use crate::half::{Half, OVERHEAD};
use crate::header::{HEADER_LEN, Header, header_at, header_of};
use crate::static_key::StaticKey;
use crate::wrapping::{Unwrap, Wrap};
use std::marker::Model;
use vpn_base::{Role, Sid, write_at};

// The bytes of a half of a static key.
const HALF_LEN: usize = 128;

/// The wrapping of control packets under a static key, at one end. Contracts see the keys of both
/// directions.
#[derive(Drop)]
pub struct Wrapper {
    writes: Half,
    reads: Half,
}

impl Model for Wrapper {
    ghost Value = { Directions };

    ghost view = { λ w. record { writes = w.writes; reads = w.reads } };
}

impl Wrapper {
    /// The wrapping of the end that has this role: a server wraps under half 0 of the key and unwraps
    /// under half 1, a client the other way.
    pub fn new(key: &StaticKey, role: Role) -> Wrapper
        ensures { result ≡ record {
          writes = keys_of (half key.now.0 (written_half role));
          reads = keys_of (half key.now.0 (read_half role));
        } }
    {
        let (first, second) = key.0.split_at(HALF_LEN);
        match role {
            Role::Server => Wrapper {
                writes: Half::new(first),
                reads: Half::new(second),
            },
            Role::Client => Wrapper {
                writes: Half::new(second),
                reads: Half::new(first),
            },
        }
    }
}

impl Wrap for Wrapper {
    ghost wrapped = { λ w. datagram_of w.writes };

    ghost unwrapped = { λ w. datagram_of w.reads };

    ghost wrapped_framed = { λ w. framed w.writes };

    ghost unwrapped_framed = { λ w. framed w.reads };

    ghost wrapped_once = { λ w. one_packet w.writes };

    ghost unwrapped_once = { λ w. one_packet w.reads };

    fn wrap(&self, first: u8, sid: Sid, id: u32, time: u32, plain: &[u8], out: &mut [u8]) -> usize {
        let header = header_of(first, sid, id, time);
        let tag = self.writes.tag(&header, plain);
        let end = OVERHEAD + plain.len();
        write_at(out, 0, &header);
        write_at(out, HEADER_LEN, &tag);
        write_at(out, OVERHEAD, plain);
        self.writes.encipher(&tag, &mut out[..end]);
        end
    }

    fn unwrap_in_place(&self, datagram: &mut [u8]) -> Result<Header, Unwrap> {
        if datagram.len() < OVERHEAD {
            return Err(Unwrap::Short);
        }
        let tag: [u8; 32] = array_at(datagram, HEADER_LEN);
        self.reads.encipher(&tag, datagram);
        let opened = &datagram[..];
        let expected = self.reads.tag(&opened[..HEADER_LEN], &opened[OVERHEAD..]);
        if expected != tag {
            self.reads.encipher(&tag, datagram);
            return Err(Unwrap::NotWrapped);
        }
        Ok(header_at(datagram))
    }
}

/// What one end wraps under a key, the other unwraps to the same packet.
pub fn unwraps_what_the_other_end_wrapped(key: &StaticKey)
    ensures server { (p : Packet) → InRange p → IsBytes p.plain →
        unwrapping (datagram_of (keys_of (half key.now.0 (read_half Server))))
        (wrapped_by (datagram_of (keys_of (half key.now.0 (written_half Client)))) p) ≡ Some p }
    ensures client { (p : Packet) → InRange p → IsBytes p.plain →
        unwrapping (datagram_of (keys_of (half key.now.0 (read_half Client))))
        (wrapped_by (datagram_of (keys_of (half key.now.0 (written_half Server)))) p) ≡ Some p }
{}
