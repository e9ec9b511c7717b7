//! The master secret and the key block of a session.

ghost use Rattle.std.specs.Prelude.{◌≡◌};
ghost use Rattle.hmac_kit.specs.KeyDerivation.{master_secret, key_block};

use crate::pseudorandom::prf_of_pieces;

/// The 256 bytes that the keys of a session are cut from: client to server 64 for the cipher and 64 for
/// the HMAC, then the same from server to client.
#[derive(Clone, Copy)]
pub struct KeyBlock(pub [u8; 256]);

/// The master secret of a session, 48 bytes, of the client's pre-master secret and the first randoms.
pub fn master(pre: &[u8; 48], client1: &[u8; 32], server1: &[u8; 32]) -> [u8; 48]
    ensures { result ≡ master_secret pre.now client1.now server1.now }
{
    let mut secret = [0; 48];
    prf_of_pieces(
        pre,
        &[b"OpenVPN master secret", client1, server1],
        &mut secret,
    );
    secret
}

/// The key block of a session, of the master secret, the second randoms and the session ids.
pub fn expand(
    master: &[u8; 48],
    client2: &[u8; 32],
    server2: &[u8; 32],
    client_sid: [u8; 8],
    server_sid: [u8; 8],
) -> KeyBlock
    ensures { result.0 ≡ key_block master.now client2.now server2.now client_sid server_sid }
{
    let mut block = [0; 256];
    prf_of_pieces(
        master,
        &[
            b"OpenVPN key expansion",
            client2,
            server2,
            &client_sid,
            &server_sid,
        ],
        &mut block,
    );
    KeyBlock(block)
}
