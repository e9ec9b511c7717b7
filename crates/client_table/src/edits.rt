//! How clients come, move and go.

ghost use Rattle.std.specs.Prelude.{◌≡◌, ◌+◌, ◌-◌, ◌^◌, ◌<◌, ◌≤◌, ℕ, true, [], ◌∷◌, ◌++◌, length, slice_get, option_map, Some, None, Err, IsOk, IfOk, IfErr, OnOk, OnErr, vec_len, vec_capacity};
ghost use Rattle.vpn_base.specs.declared.errors.Or.TheVariants.{Why};
ghost use Rattle.client_table.specs.Changes.{changed_at, entry_where, is_other, key_changed, may_move, moved_if, with_address, with_key, with_name, without, without_at};
ghost use Rattle.client_table.specs.Finding.{has_number};
ghost use Rattle.client_table.specs.PeerIds.{free_peer_id};
ghost use Rattle.client_table.specs.Entries.{newcomer};
ghost use Rattle.client_table.specs.Tables.{Has, admitted_by, entries_of, most_of, spare_of};

use crate::calls::Full;
use crate::changes::{change_address, change_name};
use crate::key::Key;
use crate::search::free_in;
use crate::table::ClientTable;
use vpn_base::{Addr, Cid, NoMemory, Or, Sid, Text};

fn append<T: Drop>(items: &mut Vec<T>, last: T)
    requires { vec_len items.old < vec_capacity items.old }
    ensures { items.new.items ≡ items.old.items ++ last ∷ [] }
{
    let pushed = items.push(last);
    prove!(pushed.is_ok());
    let _ = pushed;
}

impl<V> ClientTable<V> {
    /// Takes the memory for one client more. After want of memory the table is as before.
    pub fn reserve(&mut self) -> Result<(), NoMemory>
        ensures same { Has self.new (entries_of self.old) (most_of self.old) (admitted_by self.old) }
        ensures ok { OnOk result (1 ≤ spare_of self.new) }
        ensures fits { 1 ≤ spare_of self.old → IsOk result }
    {
        self.keys.reserve(1)?;
        self.values.reserve(1)?;
        Ok(())
    }

    // The least peer id that no client has.
    #[tactic(auto, using(crate::proofs::Pairs::length_is, crate::proofs::Pairs::free_is))]
    fn free_peer_id(&self) -> u32
        requires { length (entries_of self.now) < 2 ^ 32 }
        ensures free { result ≡ free_peer_id (entries_of self.now) }
        ensures few { result ≤ length (entries_of self.now) }
    {
        free_in(&self.keys)
    }
}

impl<V: Drop> ClientTable<V> {
    // Puts a client behind all others.
    #[tactic(auto, using(crate::proofs::Pairs::length_is, crate::proofs::Pairs::one_more, crate::proofs::Rising::rise_more, crate::proofs::Rising::below_more))]
    fn put(&mut self, peer_id: u32, from: Addr, sid: Sid, value: V) -> Cid
        requires few { admitted_by self.old < 2 ^ 64 - 1 }
        requires peer_id { peer_id < most_of self.old }
        requires room { length (entries_of self.old) < most_of self.old }
        requires spare { 1 ≤ spare_of self.old }
        ensures put { Has self.new (entries_of self.old ++ newcomer (admitted_by self.old) peer_id from sid value ∷ []) (most_of self.old) (admitted_by self.old + 1) }
        ensures number { result.0 ≡ admitted_by self.old }
    {
        let number = Cid(self.admitted);
        let key = Key {
            number,
            peer_id,
            address: from,
            sid,
            name: None,
        };
        append(&mut self.keys, key);
        append(&mut self.values, value);
        self.admitted += 1;
        number
    }

    /// Admits a client, which gets the next number and the least free peer id. `Full` comes exactly where as
    /// many are here as may be. The value comes back where the client is not admitted, and the table is as
    /// before. It takes no memory where that for one client is there.
    pub fn admit(&mut self, from: Addr, sid: Sid, value: V) -> Result<Cid, (V, Or<Full>)>
        requires few { admitted_by self.old < 2 ^ 64 - 1 }
        ensures ok { OnOk result (Has self.new (entries_of self.old ++ newcomer (admitted_by self.old) (free_peer_id (entries_of self.old)) from sid value ∷ []) (most_of self.old) (admitted_by self.old + 1)) }
        ensures number { IfOk result (λ cid. cid.0 ≡ admitted_by self.old) }
        ensures err { OnErr result (Has self.new (entries_of self.old) (most_of self.old) (admitted_by self.old)) }
        ensures back { IfErr result (λ e. e.0 ≡ value) }
        ensures full { most_of self.old ≤ length (entries_of self.old) → result ≡ Err (value, Why (record {})) }
        ensures room { IfErr result (λ e. e.1 ≡ Why (record {}) → most_of self.old ≤ length (entries_of self.old)) }
        ensures fits { 1 ≤ spare_of self.old → length (entries_of self.old) < most_of self.old → IsOk result }
    {
        if !self.has_room() {
            return Err((value, Or::Why(Full)));
        }
        let peer_id = self.free_peer_id();
        match self.reserve() {
            Ok(()) => Ok(self.put(peer_id, from, sid, value)),
            Err(NoMemory) => Err((value, Or::Memory)),
        }
    }
}

impl<V> ClientTable<V> {
    #[tactic(auto, using(crate::proofs::Pairs::length_is, crate::proofs::Pairs::key_set))]
    fn set_address(&mut self, i: usize, to: Addr)
        requires { i < length (entries_of self.old) }
        ensures { Has self.new (changed_at i (with_key (with_address to)) (entries_of self.old)) (most_of self.old) (admitted_by self.old) }
    {
        change_address(&mut self.keys, i, to);
    }

    #[tactic(auto, using(crate::proofs::Pairs::length_is, crate::proofs::Pairs::key_set))]
    fn set_name(&mut self, i: usize, name: Text)
        requires { i < length (entries_of self.old) }
        ensures { Has self.new (changed_at i (with_key (with_name name)) (entries_of self.old)) (most_of self.old) (admitted_by self.old) }
    {
        change_name(&mut self.keys, i, name);
    }

    /// The client is established under this name, if it is here.
    pub fn establish(&mut self, cid: Cid, name: Text)
        ensures { Has self.new (key_changed cid.0 (with_name name) (entries_of self.old)) (most_of self.old) (admitted_by self.old) }
    {
        match self.place(cid) {
            None => {}
            Some(i) => self.set_name(i, name),
        }
    }

    fn may_move(&self, cid: Cid, to: Addr) -> bool
        ensures { result ≡ may_move cid.0 to (entries_of self.now) }
    {
        match self.key(cid) {
            None => false,
            Some(key) => !is_other(cid, self.by_session(to, key.sid)),
        }
    }

    /// The client moves to another address. It answers false, and nothing has changed, exactly where the client
    /// is not here, or another one is at that address with the same session id.
    pub fn move_to(&mut self, cid: Cid, to: Addr) -> bool
        ensures answer { result ≡ may_move cid.0 to (entries_of self.old) }
        ensures moved { Has self.new (moved_if result cid.0 to (entries_of self.old)) (most_of self.old) (admitted_by self.old) }
    {
        if !self.may_move(cid, to) {
            return false;
        }
        match self.place(cid) {
            None => {}
            Some(i) => self.set_address(i, to),
        }
        true
    }

    #[tactic(auto, using(crate::proofs::Pairs::length_is, crate::proofs::Pairs::one_less, crate::proofs::Lists::remove_is))]
    fn take(&mut self, i: usize) -> V
        requires { i < length (entries_of self.old) }
        ensures taken { Has self.new (without_at i (entries_of self.old)) (most_of self.old) (admitted_by self.old) }
        ensures value { option_map (λ e. e.value) (slice_get (entries_of self.old) i) ≡ Some result }
    {
        let _ = self.keys.remove(i);
        self.values.remove(i)
    }

    /// Takes a client out. It is None, and nothing has changed, exactly where it is not here.
    pub fn remove(&mut self, cid: Cid) -> Option<V>
        ensures value { result ≡ option_map (λ e. e.value) (entry_where (has_number cid.0) (entries_of self.old)) }
        ensures removed { Has self.new (without cid.0 (entries_of self.old)) (most_of self.old) (admitted_by self.old) }
    {
        match self.place(cid) {
            None => None,
            Some(i) => Some(self.take(i)),
        }
    }
}

fn is_other(cid: Cid, found: Option<Cid>) -> bool
    ensures { result ≡ is_other cid.0 found }
{
    match found {
        None => false,
        Some(found) => found.0 != cid.0,
    }
}
