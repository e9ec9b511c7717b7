//! What is taken ahead of a client's step.

ghost use Rattle.std.specs.Prelude.{◌≡◌, ◌<◌, ◌≤◌, ◌+◌, ◌-◌, ◌^◌, ℕ, List, None, Some, IfOk, OnOk, IsTrue, is_some, length, map, if◌then◌else◌};
ghost use Rattle.vpn_base.specs.FileName.{is_name_byte};
ghost use Rattle.client_table.specs.Tables.{entries_of};
ghost use Rattle.peer_table.specs.EngineAnswers.{kept_name};
ghost use Rattle.peer_table.specs.Exchange.{all_unread};
ghost use Rattle.peer_table.specs.Peer.{Peer};
ghost use Rattle.server_table.specs.Courses.{Course};
ghost use Rattle.server_table.specs.Establishing.{ccd_in};
ghost use Rattle.server_table.specs.Lookups.{client_here};
ghost use Rattle.server_table.specs.Table.{Client, Established, Table};
ghost use Rattle.server_state.specs.Core.{CoreStands, IsSoundAhead, StateStands};
ghost use Rattle.server_engine.specs.Calls.{IsNamedAt, IsReadyAt};
ghost use Rattle.server_establishing.specs.Prepared.{IsKept};
ghost use Rattle.server_answers.specs.Texts.{text_in};
ghost use Rattle.server_answers.specs.internal.Ahead.{GivesName, IsAgain, IsMadeAs, IsReadied, IsTurnAt, LongestFits, NameFound, StaysSame};

use ccd_files::Ccd;
use peer_table::ClientSession;
use server_establishing::{Prepared, copy_known, prepare, prepare_again};
use server_state::{ClientState, ServerCore};
use std::alloc::Global;
use vpn_base::{Cid, NoMemory, Text};
use vpn_links::Kind;

// The session of a client takes the memory for an event.
fn ready_client<S: ClientSession>(
    client: &mut ClientState<S>,
    kind: &Kind,
) -> Result<(usize, usize), NoMemory>
    requires few { S.count client.old.session < 2 ^ 64 - 1 }
    requires goes_on { S.goes_on client.old.session }
    ensures same { (x : Client) → StateStands S.stands client.old x → StateStands S.stands client.new x }
    ensures others { client.new ≡ record client.old { session = client.new.session } }
    ensures goes_on { S.goes_on client.new.session }
    ensures count { S.count client.new.session ≡ S.count client.old.session }
    ensures since { S.since client.new.session ≡ S.since client.old.session }
    ensures ready { IfOk result (λ room. S.is_ready client.new.session kind.now (is_some client.new.established) room.0 room.1) }
{
    let established = client.established.is_some();
    client.session.ready(kind, established)
}

// The session of the client at this place takes the memory for an event, and it is answered for how many effects
// and bytes the outbox has to have room.
fn ready_at<S: ClientSession>(
    core: &mut ServerCore<S>,
    i: usize,
    kind: &Kind,
) -> Result<(usize, usize), NoMemory>
    requires at { IsTurnAt core.old i }
    requires few { core.old.events ≤ 2 ^ 48 }
    requires sound { IsSoundAhead S.goes_on S.count S.since core.old }
    ensures stays { StaysSame S.stands S.goes_on S.count S.since core.old core.new }
    ensures only { core.new ≡ record core.old { clients = core.new.clients } }
    ensures at { IsTurnAt core.new i }
    ensures ready { IfOk result (λ room. IsReadyAt S.is_ready core.new i kind.now room.0 room.1) }
{
    client_table::lending_sets_the_value::<ClientState<S>>();
    server_state::places_tell_of_clients::<S>();
    server_state::a_changed_core_is_sound::<S>();
    ready_client(core.clients.value_at(i), kind)
}

// Whether the client at this place has a name, if it is established.
fn is_named<S: ClientSession>(core: &ServerCore<S>, i: usize) -> bool
    requires { i < length (entries_of core.now.clients) }
    ensures { IsTrue result → IsNamedAt core.now i }
{
    if core.clients.look_at(i).established.is_none() {
        return true;
    }
    core.clients.key_at(i).name.is_some()
}

/// The session of the client at this place, which has a name if it is established, takes the memory for an event,
/// and it is answered for how many effects and bytes the outbox has to have room.
pub(crate) fn make_ready<S: ClientSession>(
    core: &mut ServerCore<S>,
    i: usize,
    kind: &Kind,
) -> Result<(usize, usize), NoMemory>
    requires at { IsTurnAt core.old i }
    requires few { core.old.events ≤ 2 ^ 48 }
    requires sound { IsSoundAhead S.goes_on S.count S.since core.old }
    ensures stays { StaysSame S.stands S.goes_on S.count S.since core.old core.new }
    ensures only { core.new ≡ record core.old { clients = core.new.clients } }
    ensures at { IsTurnAt core.new i }
    ensures ready { IfOk result (λ room. IsReadyAt S.is_ready core.new i kind.now room.0 room.1) }
    ensures named { OnOk result (IsNamedAt core.new i) }
{
    match ready_at(core, i, kind) {
        Err(NoMemory) => Err(NoMemory),
        Ok(room) => {
            // Each client that is established has a name.
            if is_named(core, i) {
                return Ok(room);
            }
            Err(NoMemory)
        }
    }
}

// A byte of a name as it is kept: `_` where no file name has it.
fn kept_byte(byte: u8) -> u8
    ensures { result ≡ (if is_name_byte byte then byte else 95) }
{
    if byte.is_ascii_alphanumeric()
        || byte == b'_'
        || byte == b'-'
        || byte == b'.'
        || byte == b'@'
    {
        byte
    } else {
        b'_'
    }
}

// A name as it is kept.
#[tactic(auto, using(crate::proofs::Kept::kept_next))]
fn keep_name(alloc: Global, name: &[u8]) -> Result<Text, NoMemory>
    ensures { IfOk result (λ kept. kept ≡ kept_name name.now) }
{
    let mut kept = Vec::new(alloc);
    for byte in name {
        kept.push(kept_byte(*byte))?;
    }
    Ok(Text::of(kept))
}

// The name that an answer of the engine gives, as it is kept, if it gives one.
fn name_given(alloc: Global, kind: &Kind) -> Result<Option<Text>, NoMemory>
    ensures { IfOk result (λ found. GivesName kind.now found) }
{
    match kind {
        Kind::EngineUp { name, .. } => match keep_name(alloc, name.as_slice()) {
            Ok(name) => Ok(Some(name)),
            Err(NoMemory) => Err(NoMemory),
        },
        _ => Ok(None),
    }
}

// A copy of a name.
fn copy_name(alloc: Global, name: &[u8]) -> Result<Text, NoMemory>
    ensures { IfOk result (λ copied. copied ≡ name.now) }
{
    Text::copy(alloc, name)
}

// The name of a client behind an answer of the engine, if it has one.
fn name_ahead<S: ClientSession>(
    alloc: Global,
    session: &S,
    kind: &Kind,
) -> Result<Option<Text>, NoMemory>
    ensures { IfOk result (λ found. (p : Peer) → S.stands session.now p → NameFound kind.now p found) }
{
    match session.name() {
        Some(name) => match copy_name(alloc, name) {
            Ok(name) => Ok(Some(name)),
            Err(NoMemory) => Err(NoMemory),
        },
        None => name_given(alloc, kind),
    }
}

// Makes ahead what a client of this name and this file is established with.
pub(crate) fn prepare_new<S: ClientSession>(
    core: &mut ServerCore<S>,
    alloc: Global,
    cid: Cid,
    name: &[u8],
    file: &Ccd,
) -> Result<Prepared, NoMemory>
    requires none_held { core.old.held ≡ None }
    ensures made { IfOk result (λ p. (c : Course) → CoreStands S.stands core.old c.table → IsMadeAs c cid.0 name.now file.now p) }
    ensures stays { StaysSame S.stands S.goes_on S.count S.since core.old core.new }
    ensures only { core.new ≡ record core.old { routes = core.new.routes; pool = core.new.pool; held = core.new.held } }
    ensures kept { IfOk result (λ p. IsKept core.new p) }
{
    match prepare(core, alloc, cid, name, file) {
        Ok(ahead) => Ok(Prepared::New(ahead)),
        Err(NoMemory) => Err(NoMemory),
    }
}

// The reply that an established client got.
fn prepare_reply<S: ClientSession>(
    core: &ServerCore<S>,
    alloc: Global,
    cid: Cid,
) -> Result<Prepared, NoMemory>
    ensures again { IfOk result (λ p. (t : Table) (x : Client) (e : Established) → CoreStands S.stands core.now t → client_here t cid.0 ≡ Some x →
        x.established ≡ Some e → IsAgain t x p) }
    ensures kept { core.now.held ≡ None → IfOk result (λ p. IsKept core.now p) }
{
    match prepare_again(core, alloc, cid) {
        Err(NoMemory) => Err(NoMemory),
        Ok(found) => match found {
            None => Err(NoMemory),
            Some(replies) => Ok(Prepared::Again(replies)),
        },
    }
}

// A copy of the name of the client at this place, as it is behind an answer of the engine, if it has one.
fn name_at<S: ClientSession>(
    core: &ServerCore<S>,
    alloc: Global,
    i: usize,
    kind: &Kind,
) -> Result<Option<Text>, NoMemory>
    requires at { IsTurnAt core.now i }
    ensures { IfOk result (λ found. (t : Table) (x : Client) → CoreStands S.stands core.now t → client_here t core.now.turn.0 ≡ Some x →
        NameFound kind.now x.session found) }
{
    server_state::places_tell_of_clients::<S>();
    name_ahead(alloc, &core.clients.look_at(i).session, kind)
}

// A copy of the file of the client at this place.
fn file_at<S: ClientSession>(core: &ServerCore<S>, alloc: Global, i: usize) -> Result<Ccd, NoMemory>
    requires at { IsTurnAt core.now i }
    ensures { IfOk result (λ file. (t : Table) (x : Client) → CoreStands S.stands core.now t → client_here t core.now.turn.0 ≡ Some x →
        ccd_in x.file ≡ file) }
{
    server_state::places_tell_of_clients::<S>();
    copy_known(alloc, &core.clients.look_at(i).file)
}

/// Whether the client at this place is established.
pub(crate) fn is_established<S: ClientSession>(core: &ServerCore<S>, i: usize) -> bool
    requires at { IsTurnAt core.now i }
    ensures { (t : Table) (x : Client) → CoreStands S.stands core.now t → client_here t core.now.turn.0 ≡ Some x → result ≡ is_some x.established }
{
    server_state::places_tell_of_clients::<S>();
    core.clients.look_at(i).established.is_some()
}

// Whether the name of a client is known.
fn is_known<S: ClientSession>(session: &S) -> bool
    ensures { (p : Peer) → S.stands session.now p → result ≡ is_some p.name }
{
    match session.name() {
        None => false,
        Some(_) => true,
    }
}

// Whether the client at this place has a name.
fn has_name<S: ClientSession>(core: &ServerCore<S>, i: usize) -> bool
    requires at { IsTurnAt core.now i }
    ensures { (t : Table) (x : Client) → CoreStands S.stands core.now t → client_here t core.now.turn.0 ≡ Some x → result ≡ is_some x.session.name }
{
    server_state::places_tell_of_clients::<S>();
    is_known(&core.clients.look_at(i).session)
}

/// Prepares the client at this place for what may follow an answer of the engine: to establish it, or to write the
/// same reply again. Nothing follows for one that has no name then.
pub(crate) fn prepare_at<S: ClientSession>(
    core: &mut ServerCore<S>,
    alloc: Global,
    i: usize,
    kind: &Kind,
) -> Result<Prepared, NoMemory>
    requires at { IsTurnAt core.old i }
    requires none_held { core.old.held ≡ None }
    ensures readied { IfOk result (λ p. (c : Course) (x : Client) → CoreStands S.stands core.old c.table → client_here c.table core.old.turn.0 ≡ Some x →
        IsReadied kind.now c core.old.turn.0 x p) }
    ensures stays { StaysSame S.stands S.goes_on S.count S.since core.old core.new }
    ensures only { core.new ≡ record core.old { routes = core.new.routes; pool = core.new.pool; held = core.new.held } }
    ensures kept { IfOk result (λ p. IsKept core.new p) }
{
    let cid = core.turn;
    if is_established(core, i) {
        // Each client that is established has a name.
        if !has_name(core, i) {
            return Err(NoMemory);
        }
        return prepare_reply(core, alloc, cid);
    }
    let found = match name_at(core, alloc, i, kind) {
        Ok(found) => found,
        Err(NoMemory) => return Err(NoMemory),
    };
    let Some(name) = found else {
        return Ok(Prepared::Nothing);
    };
    let file = match file_at(core, alloc, i) {
        Ok(file) => file,
        Err(NoMemory) => return Err(NoMemory),
    };
    prepare_new(core, alloc, cid, name.as_slice(), &file)
}

// The name of a session, which has one.
fn own_name<S: ClientSession>(alloc: Global, session: &S) -> Result<Text, NoMemory>
    ensures { IfOk result (λ name. (p : Peer) → S.stands session.now p → p.name ≡ Some name) }
{
    match session.name() {
        Some(name) => copy_name(alloc, name),
        None => Err(NoMemory),
    }
}

/// A copy of the name of the client at this place, which has one.
pub(crate) fn own_name_at<S: ClientSession>(
    core: &ServerCore<S>,
    alloc: Global,
    i: usize,
) -> Result<Text, NoMemory>
    requires at { IsTurnAt core.now i }
    ensures { IfOk result (λ name. (t : Table) (x : Client) → CoreStands S.stands core.now t → client_here t core.now.turn.0 ≡ Some x →
        x.session.name ≡ Some name) }
{
    server_state::places_tell_of_clients::<S>();
    own_name(alloc, &core.clients.look_at(i).session)
}

// How long a name may be that a file is asked for: the client's own, or any.
fn longest_name<S: ClientSession>(session: &S) -> usize
    ensures { (p : Peer) → S.stands session.now p → LongestFits p.name result }
{
    match session.name() {
        None => 64,
        Some(name) => name.len(),
    }
}

/// How long a name of the client at this place may be that a file is asked for.
pub(crate) fn longest_at<S: ClientSession>(core: &ServerCore<S>, i: usize) -> usize
    requires at { IsTurnAt core.now i }
    ensures { (t : Table) (x : Client) → CoreStands S.stands core.now t → client_here t core.now.turn.0 ≡ Some x → LongestFits x.session.name result }
{
    server_state::places_tell_of_clients::<S>();
    longest_name(&core.clients.look_at(i).session)
}

/// How many bytes of plain text an event brings.
pub(crate) fn text_length(kind: &Kind) -> usize
    ensures { result ≡ text_in kind.now }
{
    match kind {
        Kind::EnginePlain { bytes, .. } => bytes.as_slice().len(),
        _ => 0,
    }
}

// How many bytes are unread behind a text of this length, at most.
fn unread_with<S: ClientSession>(session: &S, more: usize) -> Result<usize, NoMemory>
    ensures { IfOk result (λ left. (p : Peer) → S.stands session.now p → all_unread p.sessions + more ≤ left) }
{
    let Some(unread) = session.unread_in_all() else {
        return Err(NoMemory);
    };
    match unread.checked_add(more) {
        None => Err(NoMemory),
        Some(left) => Ok(left),
    }
}

/// How many bytes of the client at this place are unread behind a text of this length, at most.
pub(crate) fn unread_at<S: ClientSession>(
    core: &ServerCore<S>,
    i: usize,
    more: usize,
) -> Result<usize, NoMemory>
    requires at { IsTurnAt core.now i }
    ensures { IfOk result (λ left. (t : Table) (x : Client) → CoreStands S.stands core.now t → client_here t core.now.turn.0 ≡ Some x →
        all_unread x.session.sessions + more ≤ left) }
{
    server_state::places_tell_of_clients::<S>();
    unread_with(&core.clients.look_at(i).session, more)
}
