//! The keys of clients' data packets.

ghost use Rattle.std.specs.Prelude.{◌≡◌, not, ◌<◌, ◌≤◌, ◌^◌, length, IfOk};
ghost use Rattle.std.specs.Option.{option_copied};
ghost use Rattle.gcm_seal.specs.Gcm.{gcm};
ghost use Rattle.gcm_seal.specs.AnyGcm.{key_of};
ghost use Rattle.schedule_text.specs.SealLines.{key_length};
ghost use Rattle.sealed_packet.specs.SealedPacket.{packet};
ghost use Rattle.route_file.specs.Keys.{is_named, key_at, other_keys};
ghost use Rattle.route_file.specs.Seals.{opened_for};

use gcm_seal::{AnyGcm, Gcm128, Gcm256, NotSealed};
use sealed_packet::{open_packet, seal_packet};
use std::alloc::Global;
use std::marker::Model;
use vpn_base::{Bytes, Cid, Cipher, NoMemory};

/// How many bytes a data packet has before its inner packet.
const OVERHEAD: usize = 24;

/// The key of a client's data packets of a key id, with its key schedule.
#[derive(Drop)]
pub(crate) struct Key {
    cid: Cid,
    kid: u8,
    cipher: AnyGcm,
    iv: [u8; 8],
}

impl Model for Key {
    ghost use Rattle.gcm_seal.specs.AnyGcm.{key_of};
    ghost use Rattle.route_file.specs.Keys.{PacketKey};

    ghost Value = { PacketKey };

    ghost view = { λ k. record { cid = k.cid.0; kid = k.kid; key = key_of k.cipher; iv = k.iv } };
}

// The cipher under the bytes of its key.
fn cipher_under(cipher: Cipher, bytes: &[u8]) -> AnyGcm
    requires { length bytes.now ≡ key_length cipher }
    ensures { key_of result ≡ bytes.now }
{
    match cipher {
        Cipher::Aes128Gcm => {
            let mut key = [0u8; 16];
            key.copy_from_slice(bytes);
            AnyGcm::Short(Gcm128::new(&key))
        }
        Cipher::Aes256Gcm => {
            let mut key = [0u8; 32];
            key.copy_from_slice(bytes);
            AnyGcm::Long(Gcm256::new(&key))
        }
    }
}

impl Key {
    /// The key with these bytes. Its schedule is made here, once.
    pub(crate) fn new(cid: Cid, kid: u8, cipher: Cipher, bytes: &[u8], iv: [u8; 8]) -> Key
        requires { length bytes.now ≡ key_length cipher }
        ensures { result ≡ record { cid = cid.0; kid = kid; key = bytes.now; iv = iv } }
    {
        Key {
            cid,
            kid,
            cipher: cipher_under(cipher, bytes),
            iv,
        }
    }

    /// The data packet of an inner packet.
    pub(crate) fn seal(
        &self,
        alloc: Global,
        kid: u8,
        peer: u32,
        id: u32,
        inner: &[u8],
    ) -> Result<Bytes, NoMemory>
        requires kid { kid < 8 }
        requires peer { peer < 2 ^ 24 }
        requires short { length inner.now ≤ 65512 }
        ensures { IfOk result (λ bytes. bytes ≡ packet (gcm self.now.key) self.now.iv kid peer id inner.now) }
    {
        let mut out = vec![in alloc; 0u8; OVERHEAD + inner.len()]?;
        seal_packet(
            &self.cipher,
            self.iv,
            kid,
            peer,
            id,
            inner,
            out.as_mut_slice(),
        );
        Ok(Bytes::of(out))
    }

    /// What a data packet with this peer id opens to, its packet id and its inner packet, where it is
    /// this client's and is authentic under this key id.
    pub(crate) fn open(
        &self,
        alloc: Global,
        kid: u8,
        cid: Cid,
        peer: u32,
        datagram: &[u8],
    ) -> Result<Option<(u32, Bytes)>, NoMemory>
        requires kid { kid < 8 }
        requires long { 24 ≤ length datagram.now }
        requires short { length datagram.now ≤ 65536 }
        ensures { IfOk result (λ found. found ≡ opened_for self.now cid.0 kid peer datagram.now) }
    {
        if u64::from(peer) != cid.0 {
            return Ok(None);
        }
        let mut bytes = Vec::from_slice(alloc, datagram)?;
        match open_packet(&self.cipher, self.iv, kid, bytes.as_mut_slice()) {
            Err(NotSealed) => Ok(None),
            Ok(id) => {
                let inner = Bytes::copy(alloc, &bytes.as_slice()[OVERHEAD..])?;
                Ok(Some((id, inner)))
            }
        }
    }

    fn is_for(&self, cid: Cid, kid: u8) -> bool
        ensures { result ≡ is_named cid.0 kid self.now }
    {
        self.cid.0 == cid.0 && self.kid == kid
    }
}

/// The key of a client and key id, if there is one.
pub(crate) fn find_key(keys: &[Key], cid: Cid, kid: u8) -> Option<&Key>
    ensures { option_copied result ≡ key_at keys.now cid.0 kid }
{
    for key in keys {
        if key.is_for(cid, kid) {
            return Some(key);
        }
    }
    None
}

/// Takes out the key of a client and key id. The others keep their order.
pub(crate) fn drop_key(keys: &mut Vec<Key>, cid: Cid, kid: u8)
    ensures { keys.new.items ≡ other_keys keys.old.items cid.0 kid }
{
    keys.retain(
        |key: &Key| -> bool
            ensures { result ≡ not (is_named cid.0 kid key.now) }
        { !key.is_for(cid, kid) },
    );
}
