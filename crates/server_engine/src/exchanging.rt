//! A client's session makes its key exchange.

ghost use Rattle.std.specs.Prelude.{◌≡◌, ◌^◌, ◌<◌, ◌≤◌, List, length, option_map, slice_get, Some};
ghost use Rattle.vpn_links.specs.Actions.{Action};
ghost use Rattle.client_table.specs.Changes.{place_of};
ghost use Rattle.client_table.specs.Tables.{entries_of, most_of};
ghost use Rattle.peer_table.specs.Exchange.{cipher_of, exchanged};
ghost use Rattle.peer_table.specs.Outboxes.{GoesOnUnlessOver, HasRoom, Leaves, Uses};
ghost use Rattle.peer_table.specs.Peer.{Peer};
ghost use Rattle.server_table.specs.Courses.{Course, acted};
ghost use Rattle.server_table.specs.Endings.{turned};
ghost use Rattle.server_table.specs.Exchange.{policy_with};
ghost use Rattle.server_table.specs.Lookups.{client_here};
ghost use Rattle.server_table.specs.Table.{Client, Table};
ghost use Rattle.server_state.specs.Core.{CoreStands, CourseStands, IsSound};
ghost use Rattle.server_state.specs.Endings.{IsSoundBut};
ghost use Rattle.server_engine.specs.Calls.{MayExchangeNow};

use crate::calling::end_if_over;
use peer_table::{ClientSession, Turn};
use server_state::{ClientState, ServerCore};
use vpn_base::{Addr, Cipher, Draw, Moment, Policy};
use vpn_links::Outbox;

// Later sessions keep the cipher of session 0.
fn policy_with(ours: Policy, cipher: Option<Cipher>) -> Policy
    ensures { result ≡ policy_with ours cipher }
{
    match cipher {
        None => ours,
        Some(cipher) => Policy::Fixed(cipher),
    }
}

// The peer id of the client whose turn it is, at this place. It lies below the most clients.
fn peer_id_at<S: ClientSession>(core: &ServerCore<S>, i: usize) -> u32
    requires place { place_of core.now.turn.0 (entries_of core.now.clients) ≡ Some i }
    requires within { i < length (entries_of core.now.clients) }
    requires most { most_of core.now.clients ≤ 4096 }
    ensures peer_id { option_map (λ e. e.key.peer_id) (slice_get (entries_of core.now.clients) i) ≡ Some result }
    ensures below { result < 2 ^ 24 }
{
    let place = core.clients.place(core.turn);
    let Some(key) = core.clients.key(core.turn) else {
        unreachable!();
    };
    let _ = place;
    key.peer_id
}

// The session of a client makes its key exchange.
fn make_exchange<S: ClientSession>(
    client: &mut ClientState<S>,
    ours: Policy,
    peer_id: u32,
    draw: &Draw,
    to: Addr,
    now: Moment,
    out: &mut Outbox,
) -> Turn
    requires peer_id { peer_id < 2 ^ 24 }
    requires room { HasRoom out.old 2 93 }
    requires exchange { S.may_exchange client.old.session }
    requires goes_on { S.goes_on client.old.session }
    ensures left { (p : Peer) → S.stands client.old.session p →
        Leaves S.stands client.new.session out.old out.new to (exchanged (policy_with ours (cipher_of p)) peer_id draw.now p) }
    ensures answer { (p : Peer) → S.stands client.old.session p → result ≡ (exchanged (policy_with ours (cipher_of p)) peer_id draw.now p).answer }
    ensures others { client.new ≡ record client.old { session = client.new.session } }
    ensures goes_on { GoesOnUnlessOver (S.goes_on client.new.session) result }
    ensures count { S.count client.new.session ≡ S.count client.old.session }
    ensures since { S.since client.new.session ≡ S.since client.old.session }
    ensures uses { Uses out.old out.new 2 93 }
{
    let policy = policy_with(ours, client.session.cipher());
    match client
        .session
        .exchange(&policy, peer_id, draw, to, now, out)
    {
        Ok(turn) => turn,
        Err(_) => unreachable!(),
    }
}

/// The session of the client whose turn it is, at this place, makes its key exchange, and says what is to be
/// done. It takes no memory.
pub fn call_exchange<S: ClientSession>(
    core: &mut ServerCore<S>,
    i: usize,
    draw: &Draw,
    out: &mut Outbox,
) -> Turn
    requires room { HasRoom out.old 2 93 }
    requires ready { MayExchangeNow S.may_exchange core.old i }
    requires sound { IsSound S.goes_on S.count S.since core.old }
    ensures acted { (before : List Action) (c : Course) (x : Client) → CourseStands S.stands before core.old out.old c → client_here c.table core.old.turn.0 ≡ Some x →
        CourseStands S.stands before core.new out.new
        (acted core.old.turn.0 x.address (exchanged (policy_with c.table.settings.ciphers (cipher_of x.session)) x.peer_id draw.now x.session) c) }
    ensures answer { (t : Table) (x : Client) → CoreStands S.stands core.old t → client_here t core.old.turn.0 ≡ Some x →
        result ≡ (exchanged (policy_with t.settings.ciphers (cipher_of x.session)) x.peer_id draw.now x.session).answer }
    ensures sound { GoesOnUnlessOver (IsSound S.goes_on S.count S.since core.new) result }
    ensures sound_but { IsSoundBut S.goes_on S.count S.since core.old.turn.0 core.new }
    ensures uses { Uses out.old out.new 2 93 }
    ensures turn_stays { core.new.turn ≡ core.old.turn }
    ensures mark_stays { core.new.mark ≡ core.old.mark }
    ensures only { core.new ≡ record core.old { clients = core.new.clients } }
{
    client_table::lending_sets_the_value::<ClientState<S>>();
    server_state::places_tell_of_clients::<S>();
    server_state::a_changed_core_is_sound::<S>();
    server_state::calls_are_put_into_courses::<S>();
    let to = core.clients.key_at(i).address;
    let peer_id = peer_id_at(core, i);
    let ours = core.settings.ciphers;
    let now = core.moment;
    make_exchange(core.clients.value_at(i), ours, peer_id, draw, to, now, out)
}

/// The client whose turn it is, at this place, makes its key exchange, and ends where its session says so. It
/// takes no memory.
pub fn exchange_keys<S: ClientSession + Drop>(
    core: &mut ServerCore<S>,
    i: usize,
    draw: &Draw,
    out: &mut Outbox,
)
    requires room { HasRoom out.old 7 132 }
    requires ready { MayExchangeNow S.may_exchange core.old i }
    requires sound { IsSound S.goes_on S.count S.since core.old }
    ensures exchanged { (before : List Action) (c : Course) (x : Client) → CourseStands S.stands before core.old out.old c → client_here c.table core.old.turn.0 ≡ Some x →
        CourseStands S.stands before core.new out.new
        (turned core.old.turn.0 (exchanged (policy_with c.table.settings.ciphers (cipher_of x.session)) x.peer_id draw.now x.session).answer
        (acted core.old.turn.0 x.address (exchanged (policy_with c.table.settings.ciphers (cipher_of x.session)) x.peer_id draw.now x.session) c)) }
    ensures sound { IsSound S.goes_on S.count S.since core.new }
    ensures uses { Uses out.old out.new 7 132 }
    ensures turn_stays { core.new.turn ≡ core.old.turn }
    ensures mark_stays { core.new.mark ≡ core.old.mark }
    ensures held_stays { core.new.held ≡ core.old.held }
    ensures room_stays { core.old.routes.spare_rows ≤ core.new.routes.spare_rows }
{
    let turn = call_exchange(core, i, draw, out);
    end_if_over(core, turn, out);
}
