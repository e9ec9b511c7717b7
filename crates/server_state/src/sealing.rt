//! How inner packets are sealed to clients.

ghost use Rattle.std.specs.Prelude.{◌≡◌, ◌<◌, option_map, ◌≤◌, ◌∷◌, ◌++◌, ℕ, List, length, slice_get, Some, IsOk};
ghost use Rattle.vpn_base.specs.declared.address.Addr.{Addr};
ghost use Rattle.vpn_links.specs.Actions.{Action, Holds, Wire};
ghost use Rattle.peer_table.specs.DataPackets.{sealed_to};
ghost use Rattle.peer_table.specs.Outboxes.{HasRoom, Uses};
ghost use Rattle.server_table.specs.Courses.{Course, counted};
ghost use Rattle.server_table.specs.InnerPackets as server;
ghost use Rattle.server_table.specs.Table.{Client};
ghost use Rattle.server_state.specs.Core.{CourseStands, IsSound, StateStands};
ghost use Rattle.client_table.specs.Changes.{place_of};
ghost use Rattle.client_table.specs.Tables.{entries_of};
ghost use Rattle.server_state.specs.Places.{HasValueFor};
ghost use Rattle.server_state.specs.internal.Sealing.{Seals};

use crate::client::ClientState;
use crate::state::ServerCore;
use packet_ids::Spent;
use peer_table::ClientSession;
use vpn_base::{Addr, Cid, Moment};
use vpn_links::{Effect, Note, Outbox};

// The length of the datagram that stands at this place of the effects.
#[tactic(auto, using(crate::proofs::Sealed::length_is))]
fn wired_length(out: &Outbox, i: usize) -> usize
    ensures { (to : Addr) (datagram : List ℕ) → slice_get out.now.effects i ≡ Some (Wire to datagram) → result ≡ length datagram }
{
    match out.effect(i) {
        Some(Effect::Wire { bytes, .. }) => bytes.len(),
        _ => 0,
    }
}

/// A count of bytes with more of them, which stays at the greatest u64.
pub fn count_up(count: u64, more: usize) -> u64
    ensures { result ≡ counted count more }
{
    count.saturating_add(more as u64)
}

impl<S: ClientSession> ClientState<S> {
    // Seals an inner packet to the client, and answers the length of the datagram.
    fn seal(
        &mut self,
        to: Addr,
        now: Moment,
        inner: &[u8],
        out: &mut Outbox,
    ) -> Result<usize, Spent>
        requires short { length inner.now ≤ 1500 }
        requires room { HasRoom out.old 1 1524 }
        requires goes_on { S.goes_on self.old.session }
        ensures sealed { (x : Client) → StateStands S.stands self.old x →
            Seals S.stands self.new out.old out.new to now.0 x result (sealed_to inner.now x.session) }
        ensures file { self.new.file ≡ self.old.file }
        ensures goes_on { S.goes_on self.new.session }
        ensures count { S.count self.new.session ≡ S.count self.old.session }
        ensures since { S.since self.new.session ≡ S.since self.old.session }
        ensures uses { Uses out.old out.new 1 1524 }
    {
        let place = out.count();
        match self.session.seal_to(inner, to, out) {
            Ok(()) => {
                let size = wired_length(out, place);
                self.sealed_at = now;
                self.bytes_out = count_up(self.bytes_out, size);
                Ok(size)
            }
            Err(spent) => Err(spent),
        }
    }
}

impl<S: ClientSession> ServerCore<S> {
    // Seals an inner packet to the client at this place.
    fn seal_at(&mut self, i: usize, to: Addr, target: Cid, inner: &[u8], out: &mut Outbox)
        requires short { length inner.now ≤ 1500 }
        requires room { HasRoom out.old 2 1524 }
        requires sound { IsSound S.goes_on S.count S.since self.old }
        requires place { place_of target.0 (entries_of self.old.clients) ≡ Some i }
        requires within { i < length (entries_of self.old.clients) }
        requires key { option_map (λ e. e.key.address) (slice_get (entries_of self.old.clients) i) ≡ Some to }
        ensures sealed { (before : List Action) (c : Course) → CourseStands S.stands before self.old out.old c →
            CourseStands S.stands before self.new out.new (server.sealed_to target.0 inner.now c) }
        ensures sound { IsSound S.goes_on S.count S.since self.new }
        ensures uses { Uses out.old out.new 2 1524 }
        ensures value { HasValueFor target.0 self.old.clients self.new.clients }
        ensures others { self.new ≡ record self.old { clients = self.new.clients; bytes_out = self.new.bytes_out } }
    {
        client_table::lending_sets_the_value::<ClientState<S>>();
        let now = self.moment;
        match self.clients.value_at(i).seal(to, now, inner, out) {
            Ok(size) => self.bytes_out = count_up(self.bytes_out, size),
            Err(_) => self.report(Note::KeySpent { cid: target }, out),
        }
    }

    /// Seals an inner packet of at most 1,500 bytes to a client, if it is here, or reports that its packet ids
    /// are used up. It takes no memory.
    #[tactic(auto, using(crate::proofs::Sealed::none_sealed))]
    pub fn seal_to(&mut self, target: Cid, inner: &[u8], out: &mut Outbox)
        requires short { length inner.now ≤ 1500 }
        requires room { HasRoom out.old 2 1524 }
        requires sound { IsSound S.goes_on S.count S.since self.old }
        ensures sealed { (before : List Action) (c : Course) → CourseStands S.stands before self.old out.old c →
            CourseStands S.stands before self.new out.new (server.sealed_to target.0 inner.now c) }
        ensures sound { IsSound S.goes_on S.count S.since self.new }
        ensures uses { Uses out.old out.new 2 1524 }
        ensures value { HasValueFor target.0 self.old.clients self.new.clients }
        ensures others { self.new ≡ record self.old { clients = self.new.clients; bytes_out = self.new.bytes_out } }
    {
        match self.clients.place(target) {
            None => {}
            Some(i) => {
                let to = self.clients.key_at(i).address;
                self.seal_at(i, to, target, inner, out);
            }
        }
    }
}
