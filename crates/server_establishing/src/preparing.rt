//! What is made ahead for a client that may be established.

ghost use Rattle.std.specs.Prelude.{◌≡◌, ◌+◌, ◌≤◌, List, Some, None, length, option_map, IfOk, OnOk, OnErr};
ghost use Rattle.vpn_links.specs.Actions.{Action, Contents};
ghost use Rattle.route_table.specs.Learned.{table_of};
ghost use Rattle.server_table.specs.Courses.{Course};
ghost use Rattle.server_table.specs.Establishing.{address_by, replaced_unless};
ghost use Rattle.server_table.specs.Lookups.{client_here};
ghost use Rattle.server_table.specs.Table.{Client, Table};
ghost use Rattle.server_state.specs.Core.{CoreStands, CourseStands, IsSound};
ghost use Rattle.server_establishing.specs.Ahead.{IsMadeFor, RepliesStand, held_for, lease_of};

use crate::ahead::{Ahead, LeaseAhead};
use crate::taking::{give_back_held, hold_address};
use ccd_files::Ccd;
use peer_table::ClientSession;
use route_table::RouteTable;
use server_state::ServerCore;
use server_texts::ReplyAhead;
use std::alloc::Global;
use vpn_base::{Cid, Ip4, NoMemory, Text};

/// A copy of what a client's file says.
pub fn copy_file(alloc: Global, file: &Ccd) -> Result<Ccd, NoMemory>
    ensures { IfOk result (λ copied. copied ≡ file.now) }
{
    Ok(Ccd {
        address: file.address,
        iroutes: file.iroutes.copy(alloc)?,
        pushes: file.pushes.copy(alloc)?,
        reset: file.reset,
        disable: file.disable,
    })
}

// Makes room for the rows of a client with this file.
fn reserve_rows(routes: &mut RouteTable, file: &Ccd) -> Result<(), NoMemory>
    ensures same { table_of routes.new ≡ table_of routes.old }
    ensures ok { OnOk result (1 + length file.now.iroutes ≤ routes.new.spare_rows) }
{
    let Some(rows) = file.iroutes.count().checked_add(1) else {
        return Err(NoMemory);
    };
    routes.reserve(rows)
}

// The peer id of a client that is here.
pub(crate) fn peer_id_of<S: ClientSession>(core: &ServerCore<S>, cid: Cid) -> u32
    ensures { (t : Table) (x : Client) → CoreStands S.stands core.now t → client_here t cid.0 ≡ Some x → result ≡ x.peer_id }
{
    server_state::places_tell_of_clients::<S>();
    match core.clients.place(cid) {
        None => 0,
        Some(i) => core.clients.key_at(i).peer_id,
    }
}

// The replies to a client with this address, if there is one.
fn make_lease<S: ClientSession>(
    core: &ServerCore<S>,
    alloc: Global,
    cid: Cid,
    place: Option<(Ip4, u8)>,
    file: &Ccd,
) -> Result<Option<LeaseAhead>, NoMemory>
    ensures lease { IfOk result (λ l. option_map lease_of l ≡ place) }
    ensures replies { IfOk result (λ l. (t : Table) (x : Client) → CoreStands S.stands core.now t → client_here t cid.0 ≡ Some x →
        RepliesStand t.settings file.now x.peer_id l) }
{
    let Some((address, len)) = place else {
        return Ok(None);
    };
    let peer_id = peer_id_of(core, cid);
    match ReplyAhead::make(alloc, &core.settings, file, address, len, peer_id) {
        Ok(replies) => Ok(Some(LeaseAhead {
            address,
            len,
            replies,
        })),
        Err(NoMemory) => Err(NoMemory),
    }
}

// Holds the address that a client gets, with the replies to it. After want of memory nothing is held.
fn hold_lease<S: ClientSession>(
    core: &mut ServerCore<S>,
    alloc: Global,
    cid: Cid,
    name: &[u8],
    file: &Ccd,
) -> Result<Option<LeaseAhead>, NoMemory>
    requires none_held { core.old.held ≡ None }
    ensures lease { IfOk result (λ l. (c : Course) → CoreStands S.stands core.old c.table →
        option_map lease_of l ≡ address_by (replaced_unless cid.0 name.now c c.table.settings.duplicate).table file.now.address) }
    ensures replies { IfOk result (λ l. (t : Table) (x : Client) → CoreStands S.stands core.old t → client_here t cid.0 ≡ Some x →
        RepliesStand t.settings file.now x.peer_id l) }
    ensures stands { (t : Table) → CoreStands S.stands core.old t → CoreStands S.stands core.new t }
    ensures only { core.new ≡ record core.old { pool = core.new.pool; held = core.new.held } }
    ensures held { IfOk result (λ l. core.new.held ≡ held_for l) }
    ensures none_held { OnErr result (core.new.held ≡ None) }
{
    let place = match hold_address(core, name, file) {
        Ok(place) => place,
        Err(NoMemory) => return Err(NoMemory),
    };
    match make_lease(core, alloc, cid, place, file) {
        Ok(lease) => Ok(lease),
        Err(NoMemory) => {
            give_back_held(core);
            Err(NoMemory)
        }
    }
}

// Makes room in the core for the rows of a client with this file.
fn make_room<S: ClientSession>(core: &mut ServerCore<S>, file: &Ccd) -> Result<(), NoMemory>
    ensures stands { (t : Table) → CoreStands S.stands core.old t → CoreStands S.stands core.new t }
    ensures only { core.new ≡ record core.old { routes = core.new.routes } }
    ensures ok { OnOk result (1 + length file.now.iroutes ≤ core.new.routes.spare_rows) }
{
    reserve_rows(&mut core.routes, file)
}

// Copies of a name and of a file.
fn copy_both(alloc: Global, name: &[u8], file: &Ccd) -> Result<(Text, Ccd), NoMemory>
    ensures { IfOk result (λ both. (both.0 ≡ name.now) × (both.1 ≡ file.now)) }
{
    Ok((Text::copy(alloc, name)?, copy_file(alloc, file)?))
}

/// Makes ahead what a client of this number, with this name and this file, is established with: its address is
/// held, or it has none where none is left; there is room for its rows; the reply to it is written for each of
/// our ciphers. An established client of the same name counts as ended, unless several may have it. Nothing may
/// be held before. After want of memory nothing is.
pub fn prepare<S: ClientSession>(
    core: &mut ServerCore<S>,
    alloc: Global,
    cid: Cid,
    name: &[u8],
    file: &Ccd,
) -> Result<Ahead, NoMemory>
    requires none_held { core.old.held ≡ None }
    ensures made { IfOk result (λ ahead. (c : Course) → CoreStands S.stands core.old c.table → IsMadeFor c cid.0 name.now file.now ahead) }
    ensures stands { (t : Table) → CoreStands S.stands core.old t → CoreStands S.stands core.new t }
    ensures course { (before : List Action) (out : Contents) (c : Course) → CourseStands S.stands before core.old out c →
        CourseStands S.stands before core.new out c }
    ensures sound { IsSound S.goes_on S.count S.since core.old → IsSound S.goes_on S.count S.since core.new }
    ensures only { core.new ≡ record core.old { routes = core.new.routes; pool = core.new.pool; held = core.new.held } }
    ensures held { IfOk result (λ ahead. core.new.held ≡ held_for ahead.lease) }
    ensures none_held { OnErr result (core.new.held ≡ None) }
    ensures rows { IfOk result (λ ahead. 1 + length ahead.file.iroutes ≤ core.new.routes.spare_rows) }
{
    let (name_ahead, file_ahead) = match copy_both(alloc, name, file) {
        Ok(both) => both,
        Err(NoMemory) => return Err(NoMemory),
    };
    match make_room(core, file) {
        Ok(()) => {}
        Err(NoMemory) => return Err(NoMemory),
    }
    match hold_lease(core, alloc, cid, name, file) {
        Ok(lease) => Ok(Ahead {
            name: name_ahead,
            file: file_ahead,
            lease,
        }),
        Err(NoMemory) => Err(NoMemory),
    }
}

/// Gives up what was made ahead for a client that is not established: its address is free again.
pub fn give_up<S: ClientSession>(core: &mut ServerCore<S>, ahead: Ahead)
    ensures stands { (t : Table) → CoreStands S.stands core.old t → CoreStands S.stands core.new t }
    ensures course { (before : List Action) (out : Contents) (c : Course) → CourseStands S.stands before core.old out c →
        CourseStands S.stands before core.new out c }
    ensures sound { IsSound S.goes_on S.count S.since core.old → IsSound S.goes_on S.count S.since core.new }
    ensures only { core.new ≡ record core.old { pool = core.new.pool; held = None } }
{
    let _ = ahead;
    give_back_held(core);
}
