//! How data packets are opened.

ghost use Rattle.std.specs.Prelude.{◌≡◌, ◌<◌, ◌≤◌, ◌∷◌, ◌%◌, List, length, drop, slice_get, option_map, Some};
ghost use Rattle.vpn_links.specs.Actions.{Action};
ghost use Rattle.client_table.specs.Changes.{place_of};
ghost use Rattle.client_table.specs.Tables.{entries_of};
ghost use Rattle.peer_table.specs.DataPackets.{data_came, data_kid};
ghost use Rattle.peer_table.specs.Outboxes.{HasRoom, Uses};
ghost use Rattle.peer_table.specs.Peer.{Peer};
ghost use Rattle.server_table.specs.Courses.{Course, counted};
ghost use Rattle.server_table.specs.DataDatagrams as server;
ghost use Rattle.server_table.specs.Lookups.{client_here};
ghost use Rattle.server_table.specs.Table.{Client, Table};
ghost use Rattle.server_state.specs.Core.{CoreStands, CourseStands, IsSound, StateStands};
ghost use Rattle.server_data.specs.internal.Opening.{Opens};

use crate::moving::follow;
use crate::passing::carry;
use peer_table::{ClientSession, SessionFault};
use server_state::{ClientState, ServerCore, count_up};
use vpn_base::{Addr, Cid, Moment, Place};
use vpn_links::{Note, Outbox};

// The key id in a datagram's first byte.
fn kid_in(datagram: &[u8]) -> u8
    ensures { result ≡ data_kid datagram.now }
{
    match datagram.first() {
        None => 0,
        Some(first) => first % 8,
    }
}

// The key session to which a data packet goes that opens now: the usable one with its key id.
fn find_session<S: ClientSession>(session: &S, datagram: &[u8], now: Moment) -> Option<Place>
    ensures { (p : Peer) → S.stands session.now p → result ≡ server.data_place now.0 datagram.now p }
{
    match session.data_session(kid_in(datagram), now) {
        None => None,
        Some(number) => session.place_numbered(number),
    }
}

// What stands behind the first 24 bytes.
fn behind_head(datagram: &[u8]) -> &[u8]
    ensures { result.now ≡ drop 24 datagram.now }
{
    if datagram.len() < 24 {
        return &[];
    }
    &datagram[24..]
}

// Opens a data packet of a client in place.
fn open<S: ClientSession>(
    client: &mut ClientState<S>,
    datagram: &mut [u8],
    now: Moment,
) -> Result<usize, SessionFault>
    requires short { length datagram.old ≤ 65536 }
    requires goes_on { S.goes_on client.old.session }
    requires later { S.since client.old.session ≤ now.0 }
    ensures opened { (x : Client) → StateStands S.stands client.old x →
        Opens S.stands client.new datagram.new now.0 (length datagram.old) x result (data_came datagram.old now x.session) }
    ensures file { client.new.file ≡ client.old.file }
    ensures goes_on { S.goes_on client.new.session }
    ensures count { S.count client.new.session ≡ S.count client.old.session }
    ensures since { S.since client.new.session ≤ now.0 }
{
    let bytes = datagram.len();
    match client.session.unseal(datagram, now) {
        Ok(size) => {
            client.heard = now;
            client.bytes_in = count_up(client.bytes_in, bytes);
            Ok(size)
        }
        Err(fault) => Err(fault),
    }
}

// Why a data packet is refused.
fn refuse<S: ClientSession>(
    core: &mut ServerCore<S>,
    cid: Cid,
    went: Option<Place>,
    fault: SessionFault,
    out: &mut Outbox,
)
    requires { HasRoom out.old 1 0 }
    ensures refused { (before : List Action) (c : Course) (d : server.FromWire) (x : Client) → went ≡ server.data_place c.table.moment d.bytes x.session →
        CourseStands S.stands before core.old out.old c → CourseStands S.stands before core.new out.new (server.refused d cid.0 x c fault) }
    ensures sound { IsSound S.goes_on S.count S.since core.old → IsSound S.goes_on S.count S.since core.new }
    ensures uses { Uses out.old out.new 1 0 }
{
    match fault {
        SessionFault::BadKey { kid } => core.report(Note::BadKey { cid, kid }, out),
        SessionFault::NotSealed => core.report(Note::NotSealed { cid }, out),
        SessionFault::Stale { kind, id, greatest } => {
            core.last_taken = went;
            core.report(
                Note::Stale {
                    cid,
                    kind,
                    id,
                    greatest,
                },
                out,
            );
        }
    }
}

// A data packet was opened by the client at this place, and its id was fresh.
#[tactic(auto, using(crate::proofs::Accepted::accepted_is))]
fn accept<S: ClientSession>(core: &mut ServerCore<S>, went: Option<Place>, bytes: usize)
    ensures accepted { (t : Table) → CoreStands S.stands core.old t → CoreStands S.stands core.new
        (record t { last_taken = went; bytes_in = counted t.bytes_in bytes }) }
    ensures turn_stays { core.new.turn ≡ core.old.turn }
    ensures mark_stays { core.new.mark ≡ core.old.mark }
    ensures sound { IsSound S.goes_on S.count S.since core.old → IsSound S.goes_on S.count S.since core.new }
{
    core.last_taken = went;
    core.bytes_in = count_up(core.bytes_in, bytes);
}

// The client at this place tries to open a data packet, where it lies.
pub(crate) fn open_at<S: ClientSession>(
    core: &mut ServerCore<S>,
    i: usize,
    cid: Cid,
    from: Addr,
    datagram: &mut [u8],
    out: &mut Outbox,
) -> bool
    requires short { length datagram.old ≤ 65536 }
    requires room { HasRoom out.old 4 1524 }
    requires sound { IsSound S.goes_on S.count S.since core.old }
    requires place { place_of cid.0 (entries_of core.old.clients) ≡ Some i }
    requires within { i < length (entries_of core.old.clients) }
    ensures came { (before : List Action) (c : Course) → CourseStands S.stands before core.old out.old c →
        CourseStands S.stands before core.new out.new
        (server.data_for (record { from = from; bytes = datagram.old; lacks = result }) cid.0 c (client_here c.table cid.0)) }
    ensures sound { IsSound S.goes_on S.count S.since core.new }
    ensures uses { Uses out.old out.new 4 1524 }
    ensures length { length datagram.new ≡ length datagram.old }
{
    client_table::lending_sets_the_value::<ClientState<S>>();
    server_state::places_tell_of_clients::<S>();
    server_state::a_changed_core_is_sound::<S>();
    let now = core.moment;
    let bytes = datagram.len();
    let went = find_session(&core.clients.look_at(i).session, datagram, now);
    match open(core.clients.value_at(i), datagram, now) {
        Ok(_) => {
            accept(core, went, bytes);
            follow(core, cid, from, out);
            carry(core, cid, behind_head(datagram), out)
        }
        Err(fault) => {
            refuse(core, cid, went, fault, out);
            false
        }
    }
}
