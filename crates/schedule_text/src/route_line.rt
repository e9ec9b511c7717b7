//! The lines of a route file.

use vpn_base::{Bytes, Cid, Cipher, Ip4, Prefix};

/// The longest line, in bytes, without its end.
pub const LONGEST_LINE: usize = 140_000;

/// The longest HEX word of a `seal` line, in characters: two for each byte of an inner packet.
pub const LONGEST_SEAL: usize = 3_000;

/// The longest HEX word of an `unseal` line, in characters: two for each byte of a data packet.
pub const LONGEST_UNSEAL: usize = 3_048;

/// The greatest number of a client whose packets are sealed: 0xFFFFFF stands for no peer id.
pub const GREATEST_PEER: u64 = 0xFF_FFFE;

/// A line of a route file.
#[derive(Drop)]
pub enum RouteLine {
    /// An empty line, or a comment.
    Blank,
    /// `subnet NET/LEN`: the subnet whose broadcast is for many.
    Subnet(Prefix),
    /// `client-to-client`: clients may reach each other.
    Between,
    /// `add NET/LEN CID`: the client owns the prefix.
    Add(Prefix, Cid),
    /// `leave CID`: the client's rows go.
    Leave(Cid),
    /// `owner IP`: who owns the address?
    Owner(Ip4),
    /// `from CID HEX`: where does the client's packet go?
    From(Cid, Bytes),
    /// `device HEX`: where does the device's packet go?
    Device(Bytes),
    /// `key CID KID CIPHER KEY IV`: the client's data packets of this key id have this key.
    Key {
        /// The client, whose number is the peer id of its packets.
        cid: Cid,
        /// The key id, below 8.
        kid: u8,
        /// The cipher.
        cipher: Cipher,
        /// The cipher's key: 16 or 32 bytes.
        key: Bytes,
        /// The implicit bytes of each nonce.
        iv: [u8; 8],
    },
    /// `seal CID KID ID HEX`: what is the data packet of this inner packet?
    Seal {
        /// The client, whose number is the peer id.
        cid: Cid,
        /// The key id, below 8.
        kid: u8,
        /// The packet id, above 0.
        id: u32,
        /// The inner packet, of at most 1,500 bytes.
        inner: Bytes,
    },
    /// `unseal CID KID HEX`: what does the data packet hold?
    Unseal {
        /// The client, whose number is the peer id.
        cid: Cid,
        /// The key id, below 8.
        kid: u8,
        /// The datagram, of at most 1,524 bytes.
        datagram: Bytes,
    },
}
