//! How keys are searched.

ghost use Rattle.std.specs.Prelude.{◌≡◌, ℕ, ◌<◌, ◌≤◌, ◌^◌, length, find, option_map};
ghost use Rattle.std.specs.List.{list_any, position};
ghost use Rattle.client_table.specs.Finding.{has_name, has_number, has_peer_id, is_at, is_from};
ghost use Rattle.client_table.specs.Changes.{place_where};
ghost use Rattle.client_table.specs.PeerIds.{unused_from};

use crate::key::Key;
use vpn_base::{Addr, Cid, Sid};

fn position_in(keys: &[Key], number: Cid) -> Option<usize>
    ensures { result ≡ position (has_number number.0) keys.now }
{
    keys.iter().position(|key| key.has_number(number))
}

// The place of the client of this number.
#[tactic(auto, using(crate::proofs::Places::place_is))]
pub(crate) fn place_in(keys: &[Key], number: Cid) -> Option<usize>
    ensures { result ≡ place_where (has_number number.0) keys.now }
{
    position_in(keys, number)
}

// The least number from this one on.
pub(crate) fn number_from(keys: &[Key], number: Cid) -> Option<Cid>
    ensures { result ≡ option_map (λ k. k.number) (find (is_from number.0) keys.now) }
{
    let key = keys.iter().find(|key| key.is_from(number))?;
    Some(key.number)
}

// The number of the client with this peer id.
pub(crate) fn with_peer_id(keys: &[Key], peer_id: u32) -> Option<Cid>
    ensures { result ≡ option_map (λ k. k.number) (find (has_peer_id peer_id) keys.now) }
{
    let key = keys.iter().find(|key| key.has_peer_id(peer_id))?;
    Some(key.number)
}

// The number of the client at this address with this session id.
pub(crate) fn with_session(keys: &[Key], address: Addr, sid: Sid) -> Option<Cid>
    ensures { result ≡ option_map (λ k. k.number) (find (is_at address sid) keys.now) }
{
    let key = keys.iter().find(|key| key.is_at(address, sid))?;
    Some(key.number)
}

// The number of the client that is established under this name.
pub(crate) fn with_name(keys: &[Key], name: &[u8]) -> Option<Cid>
    ensures { result ≡ option_map (λ k. k.number) (find (has_name name.now) keys.now) }
{
    let key = keys.iter().find(|key| key.has_name(name))?;
    Some(key.number)
}

fn is_used(keys: &[Key], peer_id: u32) -> bool
    ensures { result ≡ list_any (has_peer_id peer_id) keys.now }
{
    keys.iter().any(|key| key.has_peer_id(peer_id))
}

// The least peer id that no client has.
#[tactic(auto, using(crate::proofs::PeerIds::next_is, crate::proofs::PeerIds::this_is, crate::proofs::PeerIds::last_is))]
pub(crate) fn free_in(keys: &[Key]) -> u32
    requires { length keys.now < 2 ^ 32 }
    ensures free { result ≡ unused_from has_peer_id (length keys.now) 0 keys.now }
    ensures few { result ≤ length keys.now }
{
    let mut peer_id = 0;
    while (peer_id as usize) < keys.len() {
        if !is_used(keys, peer_id) {
            return peer_id;
        }
        peer_id += 1;
    }
    peer_id
}
