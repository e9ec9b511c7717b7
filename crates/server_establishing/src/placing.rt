//! A client gets its address in the tunnel.

ghost use Rattle.std.specs.Prelude.{◌≡◌, ◌==◌, ◌+◌, ◌<◌, ◌≤◌, ◌∷◌, length, List, Some, None, false, slice_get, option_map};
ghost use Rattle.vpn_links.specs.Actions.{Action};
ghost use Rattle.client_table.specs.Changes.{place_of};
ghost use Rattle.client_table.specs.Tables.{entries_of};
ghost use Rattle.peer_table.specs.Outboxes.{HasRoom, Uses};
ghost use Rattle.route_table.specs.Learned.{rows_of, table_of, with_rows};
ghost use Rattle.server_table.specs.Courses.{Course, with_client};
ghost use Rattle.server_table.specs.Establishing.{ccd_in, client_cipher, established_at, established_now, host_route, with_address};
ghost use Rattle.server_table.specs.Lookups.{cid, client_here};
ghost use Rattle.server_table.specs.Table.{Client, Table};
ghost use Rattle.server_texts.specs.Replies.{AreRepliesTo};
ghost use Rattle.server_state.specs.declared.client.ClientState.{ClientState};
ghost use Rattle.server_state.specs.Core.{CoreStands, CourseStands, IsSound};
ghost use Rattle.server_establishing.specs.Ahead.{IsAheadOf, bytes_with, effects_with, held_for, lease_bytes, lease_effects, lease_of, replies_in};

use crate::ahead::{Ahead, LeaseAhead};
use crate::taking::give_back_held;
use ccd_files::Ccd;
use peer_table::ClientSession;
use route_table::RouteTable;
use server_state::{ClientState, ServerCore};
use server_texts::{ReplyAhead, say_establishing};
use vpn_base::{Cause, Cid, Cipher, Conn, Ip4, Moment, Prefix, Text};
use vpn_links::Outbox;

// The network of one address.
fn host_prefix(address: Ip4) -> Prefix
    ensures { result ≡ host_route address }
{
    let Some(prefix) = Prefix::new(address, 32) else {
        unreachable!();
    };
    prefix
}

// Adds the rows of a client's address and of the networks of its file, where there is room for them.
fn add_rows(routes: &mut RouteTable, cid: Cid, address: Ip4, file: &Ccd)
    requires { 1 + length file.now.iroutes ≤ routes.old.spare_rows }
    ensures { table_of routes.new ≡ with_rows (rows_of cid (host_route address ∷ file.now.iroutes)) (table_of routes.old) }
{
    let added = routes.add_all(&[host_prefix(address)], &file.iroutes, cid);
    prove!(added.is_ok());
    let _ = added;
}

// The cipher of a client's keys.
pub(crate) fn cipher_at<S: ClientSession>(core: &ServerCore<S>, i: usize) -> Cipher
    requires { i < length (entries_of core.now.clients) }
    ensures { (v : ClientState S) (x : Client) → option_map (λ e. e.value) (slice_get (entries_of core.now.clients) i) ≡ Some v →
        S.stands v.session x.session → client_cipher x ≡ result }
{
    match core.clients.look_at(i).session.cipher() {
        None => Cipher::Aes256Gcm,
        Some(cipher) => cipher,
    }
}

// A client has this address from now on.
fn set_address<S>(client: &mut ClientState<S>, address: Ip4, now: Moment)
    ensures { client.new ≡ record client.old { established = Some (address, now); sealed_at = now } }
{
    client.established = Some((address, now));
    client.sealed_at = now;
}

// The client at this place has the address that is held for it from now on, and is found by its name.
fn take_place<S: ClientSession + Drop>(
    core: &mut ServerCore<S>,
    i: usize,
    cid: Cid,
    name: Text,
    address: Ip4,
)
    requires place { place_of cid.0 (entries_of core.old.clients) ≡ Some i }
    requires within { i < length (entries_of core.old.clients) }
    requires held { core.old.held ≡ Some address }
    ensures placed { (t : Table) (x : Client) → CoreStands S.stands core.old t → client_here t cid.0 ≡ Some x → x.established ≡ None →
        x.session.name ≡ Some name → CoreStands S.stands core.new (with_client cid.0 (with_address address t.moment) t) }
    ensures sound { IsSound S.goes_on S.count S.since core.old → IsSound S.goes_on S.count S.since core.new }
    ensures routes { core.new.routes ≡ core.old.routes }
    ensures turn { core.new.turn ≡ core.old.turn }
    ensures mark { core.new.mark ≡ core.old.mark }
    ensures none_held { core.new.held ≡ None }
{
    server_state::places_tell_of_clients::<S>();
    client_table::lending_sets_the_value::<ClientState<S>>();
    let now = core.moment;
    core.clients.establish(cid, name);
    set_address(core.clients.value_at(i), address, now);
    core.held = None;
}

// The client has this address, rows of its own, the reply, and a manager is told.
fn establish_at<S: ClientSession + Drop>(
    core: &mut ServerCore<S>,
    cid: Cid,
    conn: Conn,
    name: Text,
    file: &Ccd,
    lease: &LeaseAhead,
    out: &mut Outbox,
)
    requires held { core.old.held ≡ Some lease.now.address }
    requires rows { 1 + length file.now.iroutes ≤ core.old.routes.spare_rows }
    requires room { HasRoom out.old (lease_effects file.now lease.now) (lease_bytes file.now lease.now) }
    ensures established { (before : List Action) (c : Course) (x : Client) → CourseStands S.stands before core.old out.old c →
        client_here c.table cid.0 ≡ Some x → x.established ≡ None → x.session.name ≡ Some name → ccd_in x.file ≡ file.now →
        AreRepliesTo c.table.settings (ccd_in x.file) x.peer_id (lease_of lease.now) lease.now.replies →
        CourseStands S.stands before core.new out.new (established_at cid.0 conn x c (lease_of lease.now)) }
    ensures sound { IsSound S.goes_on S.count S.since core.old → IsSound S.goes_on S.count S.since core.new }
    ensures uses { Uses out.old out.new (lease_effects file.now lease.now) (lease_bytes file.now lease.now) }
    ensures turn { core.new.turn ≡ core.old.turn }
    ensures mark { core.new.mark ≡ core.old.mark }
    ensures none_held { core.new.held ≡ None }
{
    server_state::places_tell_of_clients::<S>();
    let Some(i) = core.clients.place(cid) else {
        give_back_held(core);
        return;
    };
    let cipher = cipher_at(core, i);
    take_place(core, i, cid, name, lease.address);
    add_rows(&mut core.routes, cid, lease.address, file);
    lease.replies.write(conn, cipher, out);
    say_establishing(cid, file, lease.address, out);
}

/// Establishes a client, which is here and has nobody to replace any more, with what was made ahead for it: it
/// gets its address, its rows and the reply, and a manager is told. With no address left it ends. The answer is
/// the reply, which may have to be written again. It takes no memory.
pub fn establish_now<S: ClientSession + Drop>(
    core: &mut ServerCore<S>,
    cid: Cid,
    conn: Conn,
    ahead: Ahead,
    out: &mut Outbox,
) -> Option<ReplyAhead>
    requires held { core.old.held ≡ held_for ahead.lease }
    requires rows { 1 + length ahead.file.iroutes ≤ core.old.routes.spare_rows }
    requires room { HasRoom out.old (effects_with ahead.file ahead.lease) (bytes_with ahead.file ahead.lease) }
    requires turn { (cid.0 == core.old.turn.0 ≡ false) → core.old.mark ≡ 0 }
    ensures established { (before : List Action) (c : Course) (x : Client) → CourseStands S.stands before core.old out.old c →
        client_here c.table cid.0 ≡ Some x → IsAheadOf c.table x ahead → CourseStands S.stands before core.new out.new (established_now cid.0 conn c) }
    ensures sound { IsSound S.goes_on S.count S.since core.old → IsSound S.goes_on S.count S.since core.new }
    ensures uses { Uses out.old out.new (effects_with ahead.file ahead.lease) (bytes_with ahead.file ahead.lease) }
    ensures turn_stays { core.new.turn ≡ core.old.turn }
    ensures mark_stays { core.new.mark ≡ core.old.mark }
    ensures none_held { core.new.held ≡ None }
    ensures replies { result ≡ replies_in ahead.lease }
{
    let Ahead { name, file, lease } = ahead;
    match lease {
        None => {
            core.end(cid, Cause::PoolEmpty, out);
            None
        }
        Some(lease) => {
            establish_at(core, cid, conn, name, &file, &lease, out);
            Some(lease.replies)
        }
    }
}
