//! Addresses that are taken ahead.

ghost use Rattle.std.specs.Prelude.{◌≡◌, ℕ, List, Some, None, option_map, IfOk, OnOk, OnErr};
ghost use Rattle.vpn_base.specs.declared.address.Ip4.{Ip4};
ghost use Rattle.address_pool.specs.Holds.{Holds};
ghost use Rattle.address_pool.specs.LeastFree.{Takings, least_free};
ghost use Rattle.server_table.specs.Courses.{Course};
ghost use Rattle.server_table.specs.Establishing.{address_by, leased, network, replaced_unless};
ghost use Rattle.server_table.specs.Endings.{ended};
ghost use Rattle.vpn_base.specs.declared.names.Cause.{Cause};
ghost use Rattle.server_table.specs.Lookups.{taken_addresses};
ghost use Rattle.server_table.specs.Table.{Table};
ghost use Rattle.ovpn_config.specs.declared.settings.Settings.{Settings};
ghost use Rattle.server_state.specs.Core.{CoreStands};
ghost use Rattle.server_establishing.specs.internal.Taking.{GivesUp, IsGivenUp, Takes};

use crate::replacing::replaced_by;
use address_pool::{Pool, PoolEmpty};
use ccd_files::Ccd;
use ovpn_config::Settings;
use peer_table::ClientSession;
use server_state::ServerCore;
use vpn_base::{Cid, Ip4, NoMemory, Or};

// The address in the tunnel of a client, if it is here and has one.
fn address_of<S: ClientSession>(core: &ServerCore<S>, cid: Cid) -> Option<Ip4>
    ensures { (c : Course) (cause : Cause) → CoreStands S.stands core.now c.table →
        GivesUp result (taken_addresses c.table) (taken_addresses (ended cid.0 cause c).table) }
{
    server_state::places_tell_of_clients::<S>();
    let Some(i) = core.clients.place(cid) else {
        return None;
    };
    match core.clients.look_at(i).established {
        None => None,
        Some((address, _)) => Some(address),
    }
}

// The address that a client gives up which one of this name replaces.
fn given_up<S: ClientSession>(core: &ServerCore<S>, name: &[u8]) -> Option<Ip4>
    ensures { (n : ℕ) (c : Course) → CoreStands S.stands core.now c.table →
        GivesUp result (taken_addresses c.table) (taken_addresses (replaced_unless n name.now c c.table.settings.duplicate).table) }
{
    match replaced_by(core, name) {
        None => None,
        Some(other) => address_of(core, other),
    }
}

// Takes the least address that nobody has. It is None where there is none.
fn take_free(pool: &mut Pool) -> Result<Option<Ip4>, NoMemory>
    ensures least { IfOk result (λ a. (t : Takings) → Holds pool.old t → a ≡ least_free t.first t.last t.taken) }
    ensures takes { IfOk result (Takes pool.old pool.new) }
    ensures err { OnErr result ((t : Takings) → Holds pool.old t → Holds pool.new t) }
{
    match pool.take() {
        Ok(a) => Ok(Some(a)),
        Err(Or::Why(PoolEmpty)) => Ok(None),
        Err(Or::Memory) => Err(NoMemory),
    }
}

// The same, where an address is given up.
fn take_beside(pool: &mut Pool, given_up: Ip4) -> Result<Option<Ip4>, NoMemory>
    ensures least { IfOk result (λ a. (t : Takings) (left : List Ip4) → Holds pool.old t → IsGivenUp given_up t.taken left →
        a ≡ least_free t.first t.last left) }
    ensures takes { IfOk result (Takes pool.old pool.new) }
    ensures err { OnErr result ((t : Takings) → Holds pool.old t → Holds pool.new t) }
{
    match pool.take_beside(given_up) {
        Ok(a) => Ok(Some(a)),
        Err(Or::Why(PoolEmpty)) => Ok(None),
        Err(Or::Memory) => Err(NoMemory),
    }
}

// Takes the least address that nobody has, but perhaps one that is given up. It is None where there is none.
fn take_least(pool: &mut Pool, given_up: Option<Ip4>) -> Result<Option<Ip4>, NoMemory>
    ensures least { IfOk result (λ a. (t : Takings) (left : List Ip4) → Holds pool.old t → GivesUp given_up t.taken left →
        a ≡ least_free t.first t.last left) }
    ensures takes { IfOk result (Takes pool.old pool.new) }
    ensures err { OnErr result ((t : Takings) → Holds pool.old t → Holds pool.new t) }
{
    match given_up {
        None => take_free(pool),
        Some(a) => take_beside(pool, a),
    }
}

// Takes this address, whoever has it.
fn take_own(pool: &mut Pool, own: Ip4) -> Result<(), NoMemory>
    ensures takes { OnOk result (Takes pool.old pool.new (Some own)) }
    ensures err { OnErr result ((t : Takings) → Holds pool.old t → Holds pool.new t) }
{
    match pool.take_exact(own) {
        Ok(()) => Ok(()),
        Err(NoMemory) => Err(NoMemory),
    }
}

// How many bits the server's network shares.
pub(crate) fn network_len(settings: &Settings) -> u8
    ensures { result ≡ (network settings.now).len }
{
    match settings.net {
        None => 32,
        Some(network) => network.len(),
    }
}

// Holds this address, whoever has it.
fn hold_own<S: ClientSession>(core: &mut ServerCore<S>, own: Ip4) -> Result<(), NoMemory>
    requires none_held { core.old.held ≡ None }
    ensures stands { (t : Table) → CoreStands S.stands core.old t → CoreStands S.stands core.new t }
    ensures only { core.new ≡ record core.old { pool = core.new.pool; held = core.new.held } }
    ensures held { OnOk result (core.new.held ≡ Some own) }
    ensures none_held { OnErr result (core.new.held ≡ None) }
{
    match take_own(&mut core.pool, own) {
        Ok(()) => {
            core.held = Some(own);
            Ok(())
        }
        Err(NoMemory) => Err(NoMemory),
    }
}

// Holds the least address that nobody has when whoever a client of this name replaces has ended, if there is one.
fn hold_least<S: ClientSession>(
    core: &mut ServerCore<S>,
    name: &[u8],
) -> Result<Option<Ip4>, NoMemory>
    requires none_held { core.old.held ≡ None }
    ensures least { IfOk result (λ a. (n : ℕ) (c : Course) → CoreStands S.stands core.old c.table →
        leased c.table.settings a ≡ address_by (replaced_unless n name.now c c.table.settings.duplicate).table None) }
    ensures stands { (t : Table) → CoreStands S.stands core.old t → CoreStands S.stands core.new t }
    ensures only { core.new ≡ record core.old { pool = core.new.pool; held = core.new.held } }
    ensures held { IfOk result (λ a. core.new.held ≡ a) }
    ensures none_held { OnErr result (core.new.held ≡ None) }
{
    let given_up = given_up(core, name);
    match take_least(&mut core.pool, given_up) {
        Ok(a) => {
            core.held = a;
            Ok(a)
        }
        Err(NoMemory) => Err(NoMemory),
    }
}

// Holds the address that a client of this name and this file gets, and answers it with its length, if there is one.
pub(crate) fn hold_address<S: ClientSession>(
    core: &mut ServerCore<S>,
    name: &[u8],
    file: &Ccd,
) -> Result<Option<(Ip4, u8)>, NoMemory>
    requires none_held { core.old.held ≡ None }
    ensures address { IfOk result (λ a. (n : ℕ) (c : Course) → CoreStands S.stands core.old c.table →
        a ≡ address_by (replaced_unless n name.now c c.table.settings.duplicate).table file.now.address) }
    ensures stands { (t : Table) → CoreStands S.stands core.old t → CoreStands S.stands core.new t }
    ensures only { core.new ≡ record core.old { pool = core.new.pool; held = core.new.held } }
    ensures held { IfOk result (λ a. core.new.held ≡ option_map (λ a. a.0) a) }
    ensures none_held { OnErr result (core.new.held ≡ None) }
{
    let len = network_len(&core.settings);
    match file.address {
        Some((own, own_len)) => match hold_own(core, own) {
            Ok(()) => Ok(Some((own, own_len))),
            Err(NoMemory) => Err(NoMemory),
        },
        None => match hold_least(core, name) {
            Ok(None) => Ok(None),
            Ok(Some(a)) => Ok(Some((a, len))),
            Err(NoMemory) => Err(NoMemory),
        },
    }
}

/// Gives back the address that is held for a client that may be established, if one is.
pub fn give_back_held<S: ClientSession>(core: &mut ServerCore<S>)
    ensures stands { (t : Table) → CoreStands S.stands core.old t → CoreStands S.stands core.new t }
    ensures only { core.new ≡ record core.old { pool = core.new.pool; held = None } }
{
    match core.held {
        None => {}
        Some(a) => {
            core.pool.give_back(a);
            core.held = None;
        }
    }
}
