//! The keys of one direction, cut from the key block of a session.

ghost use Rattle.std.specs.Prelude.{◌≡◌, ◌≤◌, ◌+◌, length, take, drop};
ghost use Rattle.gcm_seal.specs.AnyGcm.{key_of};
ghost use Rattle.data_channel.specs.Standing.{by_role};
ghost use Rattle.peer_table.specs.Peer.{other};
ghost use Rattle.peer_table.specs.DataPackets.{cipher_key, half_of, implicit_bytes};

use gcm_seal::{AnyGcm, Gcm128, Gcm256};
use hmac_kit::KeyBlock;
use vpn_base::{Cipher, Role};

// What seals the packets of one direction.
#[derive(Drop)]
pub(crate) struct Sealer<C: Drop> {
    pub(crate) cipher: C,
    // the bytes of a nonce that no packet carries
    pub(crate) implicit: [u8; 8],
}

// The half of the key block for packets of an end of this role.
fn half(keys: &KeyBlock, role: Role) -> &[u8]
    ensures half { result.now ≡ half_of role keys.now.0 }
    ensures len { length result.now ≡ 128 }
{
    let (client, server) = keys.0.split_at(128);
    match role {
        Role::Client => client,
        Role::Server => server,
    }
}

// So many bytes from a place on.
fn array_at<const N: usize>(bytes: &[u8], at: usize) -> [u8; N]
    requires { at + N ≤ length bytes.now }
    ensures { result ≡ take N (drop at bytes.now) }
{
    let mut array = [0; N];
    array.copy_from_slice(&bytes[at..at + N]);
    array
}

// The cipher under its key, which begins a half.
fn cipher_under(half: &[u8], cipher: Cipher) -> AnyGcm
    requires { length half.now ≡ 128 }
    ensures { key_of result ≡ cipher_key cipher half.now }
{
    match cipher {
        Cipher::Aes128Gcm => AnyGcm::Short(Gcm128::new(&array_at(half, 0))),
        Cipher::Aes256Gcm => AnyGcm::Long(Gcm256::new(&array_at(half, 0))),
    }
}

// What seals the packets of an end of this role.
pub(crate) fn sealer_for(keys: &KeyBlock, cipher: Cipher, role: Role) -> Sealer<AnyGcm>
    ensures key { key_of result.cipher ≡ cipher_key cipher (half_of role keys.now.0) }
    ensures implicit { result.implicit ≡ implicit_bytes (half_of role keys.now.0) }
{
    let half = half(keys, role);
    Sealer {
        cipher: cipher_under(half, cipher),
        implicit: array_at(half, 64),
    }
}

// The role of the other end.
pub(crate) fn other(role: Role) -> Role
    ensures { result ≡ other role }
{
    match role {
        Role::Server => Role::Client,
        Role::Client => Role::Server,
    }
}

// The one for this role.
pub(crate) fn by_role<'a, C: Drop>(
    client: &'a Sealer<C>,
    server: &'a Sealer<C>,
    role: Role,
) -> &'a Sealer<C>
    ensures { result.now ≡ by_role client.now server.now role }
{
    match role {
        Role::Client => client,
        Role::Server => server,
    }
}
