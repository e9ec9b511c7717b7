//! What a client is found by.

ghost use Rattle.std.specs.Prelude.{◌≡◌};
ghost use Rattle.client_table.specs.Finding.{has_name, has_number, has_peer_id, is_at, is_from};

use vpn_base::{Addr, Cid, Sid, Text};

/// What the table knows of a client beside its value.
#[derive(Drop)]
pub struct Key {
    /// Its number.
    pub number: Cid,
    /// The peer id by which its data packets name it.
    pub peer_id: u32,
    /// Where its datagrams come from.
    pub address: Addr,
    /// Its own session id.
    pub sid: Sid,
    /// Its name, once it is established.
    pub name: Option<Text>,
}

impl Key {
    pub(crate) fn has_number(&self, number: Cid) -> bool
        ensures { result ≡ has_number number.0 self.now }
    {
        self.number.0 == number.0
    }

    pub(crate) fn is_from(&self, number: Cid) -> bool
        ensures { result ≡ is_from number.0 self.now }
    {
        number.0 <= self.number.0
    }

    pub(crate) fn has_peer_id(&self, peer_id: u32) -> bool
        ensures { result ≡ has_peer_id peer_id self.now }
    {
        self.peer_id == peer_id
    }

    pub(crate) fn is_at(&self, address: Addr, sid: Sid) -> bool
        ensures { result ≡ is_at address sid self.now }
    {
        self.address.ip.0 == address.ip.0
            && self.address.port == address.port
            && self.sid.0.as_slice() == sid.0.as_slice()
    }

    pub(crate) fn has_name(&self, name: &[u8]) -> bool
        ensures { result ≡ has_name name.now self.now }
    {
        match &self.name {
            None => false,
            Some(known) => known.as_slice() == name,
        }
    }
}
