//! A server that takes events, one at a time.

ghost use Rattle.std.specs.Prelude.{◌≡◌, [], length, OnOk, OnErr, IfOk};
ghost use Rattle.ovpn_config.specs.Bounds.{IsBounded};
ghost use Rattle.vpn_base.specs.declared.names.Role.TheVariants as roles;
ghost use Rattle.vpn_links.specs.Actions.{Holds, HasRoom};
ghost use Rattle.vpn_links.specs.Rounds.{IsOfLine};
ghost use Rattle.vpn_links.specs.Steps.{LacksAll, Stepped};
ghost use Rattle.server_table.specs.Runs.{MayLack};
ghost use Rattle.server_table.specs.Senders.{sent_by};
ghost use Rattle.server_table.specs.Table.{Table, table_begun};
ghost use Rattle.server_state.specs.Core.{CoreStands, IsSound};
ghost use Rattle.server_core.specs.Steps.{next_table, told_of};

use crate::datagrams::LONGEST;
use crate::senders::sent_by;
use crate::taking::take;
use ovpn_config::Settings;
use peer_table::ClientSession;
use server_state::ServerCore;
use std::alloc::Global;
use std::marker::Model;
use tls_crypt::StaticKey;
use vpn_base::{Addr, NoMemory, Place};
use vpn_links::{Event, Machine, Outbox};

/// A core that takes events for as long as it is sound, which it stays.
pub trait EventCore {
    /// The tables for which it stands.
    ghost stands: { Self → Table → Type 0 };

    /// What holds of every core.
    ghost sound: { Self → Type 0 };

    /// Takes an event, and adds to the outbox what it does; datagrams are opened in the buffer of 65,536 bytes.
    /// After want of memory core and outbox are as before, and the event is one that may lack it.
    fn take(
        &mut self,
        alloc: Global,
        event: &Event,
        buffer: &mut [u8],
        out: &mut Outbox,
    ) -> Result<(), NoMemory>
        requires line { IsOfLine event.now.kind }
        requires alone { out.old.staged ≡ [] }
        requires buffer { length buffer.old ≡ 65536 }
        requires sound { sound self.old }
        ensures stepped { OnOk result ((t : Table) → stands self.old t →
            Stepped next_table told_of MayLack (stands self.new) t event.entry.now out.old.effects out.new) }
        ensures unchanged { OnErr result ((t : Table) → stands self.old t → stands self.new t) }
        ensures err { OnErr result (Holds out.new out.old.effects []) }
        ensures lacking { OnErr result (HasRoom out.old → (t : Table) → stands self.old t → MayLack t event.entry.now LacksAll) }
        ensures sound { sound self.new }
        ensures length { length buffer.new ≡ 65536 };

    /// The key session that sent a datagram to this address, by what the datagram tells.
    fn sent_by(&self, to: Addr, datagram: &[u8]) -> Option<Place>
        ensures { (t : Table) → stands self.now t → result ≡ sent_by t to datagram.now };

    /// The key session to which the datagram of the last event went, if it went to one.
    fn last_taken(&self) -> Option<Place>
        ensures { (t : Table) → stands self.now t → result ≡ t.last_taken };
}

impl<S: ClientSession + Drop> EventCore for ServerCore<S> {
    ghost use Rattle.server_state.specs.Core.{CoreStands, IsSound};

    ghost stands = { λ core t. CoreStands S.stands core t };

    ghost sound = { λ core. IsSound S.goes_on S.count S.since core };

    fn take(
        &mut self,
        alloc: Global,
        event: &Event,
        buffer: &mut [u8],
        out: &mut Outbox,
    ) -> Result<(), NoMemory> {
        take(self, alloc, event, buffer, out)
    }

    fn sent_by(&self, to: Addr, datagram: &[u8]) -> Option<Place> {
        sent_by(self, to, datagram)
    }

    fn last_taken(&self) -> Option<Place> {
        self.last_taken
    }
}

/// A server: its core, and the buffer in which datagrams are opened. Contracts see the core, which is sound.
#[derive(Drop)]
pub struct Server<C: EventCore + Drop> {
    alloc: Global,
    core: C,
    buffer: Vec<u8>,
}

impl<C: EventCore + Drop> Model for Server<C> {
    ghost use Rattle.std.specs.Prelude.{◌≡◌, length};

    ghost Value = { C };

    ghost view = { λ s. s.core };

    ghost invariant = { λ s. C.sound s.core × (length s.buffer.items ≡ 65536) };
}

// Room for the longest datagram.
fn make_buffer(alloc: Global) -> Result<Vec<u8>, NoMemory>
    ensures { IfOk result (λ buffer. length buffer.items ≡ 65536) }
{
    let mut buffer = Vec::new(alloc);
    buffer.resize(LONGEST, 0)?;
    Ok(buffer)
}

impl<S: ClientSession + Drop> Server<ServerCore<S>> {
    /// A server of this configuration and static key, to which nothing has come.
    pub fn make(
        alloc: Global,
        settings: Settings,
        key: StaticKey,
    ) -> Result<Server<ServerCore<S>>, NoMemory>
        requires bounded { IsBounded settings }
        requires server { settings.role ≡ roles.Server }
        ensures made { IfOk result (λ server. CoreStands S.stands server (table_begun settings key.0)) }
    {
        let core = ServerCore::make(alloc, settings, key)?;
        let buffer = make_buffer(alloc)?;
        Ok(Server {
            alloc,
            core,
            buffer,
        })
    }
}

impl<C: EventCore + Drop> Server<C> {
    /// The key session that sent a datagram to this address, by what the datagram tells: an open one with its key
    /// id, which a data packet names by the peer id and a control packet by the server's session id. Of several it
    /// is the one of the least client number. A datagram that is no packet was sent by none.
    pub fn sent_by(&self, to: Addr, datagram: &[u8]) -> Option<Place>
        ensures { (t : Table) → C.stands self.now t → result ≡ sent_by t to datagram.now }
    {
        self.core.sent_by(to, datagram)
    }

    /// The key session to which the datagram of the last event went, if that was a control packet that nothing
    /// refused or a data packet that opened, be it stale. An event that found no memory does not count.
    pub fn last_taken(&self) -> Option<Place>
        ensures { (t : Table) → C.stands self.now t → result ≡ t.last_taken }
    {
        self.core.last_taken()
    }
}

impl<C: EventCore + Drop> Machine for Server<C> {
    ghost use Rattle.server_table.specs.Runs.{MayLack};
    ghost use Rattle.server_table.specs.Table as tables;
    ghost use Rattle.server_core.specs.Steps.{next_table, told_of};

    ghost Table = { tables.Table };

    ghost stands = { λ core t. C.stands core t };

    ghost next = { next_table };

    ghost effects = { told_of };

    ghost may_lack = { MayLack };

    fn step(&mut self, event: &Event, out: &mut Outbox) -> Result<(), NoMemory> {
        self.core.take(self.alloc, event, &mut self.buffer, out)
    }
}
