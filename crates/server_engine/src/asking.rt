//! Files of clients that are asked for.

ghost use Rattle.std.specs.Prelude.{◌≡◌, ◌≤◌, ◌<◌, ◌∷◌, ◌++◌, [], ℕ, List, length, slice_get, option_map, Some, unwrap_or};
ghost use Rattle.vpn_links.specs.Actions.{Action, Ask, Holds};
ghost use Rattle.ccd_files.specs.ClientFile.{no_ccd};
ghost use Rattle.client_table.specs.Changes.{place_of};
ghost use Rattle.client_table.specs.Tables.{entries_of};
ghost use Rattle.peer_table.specs.Outboxes.{HasRoom, Uses};
ghost use Rattle.peer_table.specs.Peer.{Peer};
ghost use Rattle.server_table.specs.Courses.{Course, with_client};
ghost use Rattle.server_table.specs.Engine.{asked, asked_for, asked_in, default_name};
ghost use Rattle.server_table.specs.Lookups.{client_here};
ghost use Rattle.server_table.specs.Table.{Client, FileState, Table};
ghost use Rattle.server_state.specs.Core.{CoreStands, CourseStands, FileStands, IsSound};
ghost use Rattle.server_engine.specs.Calls.{StaysReady};
ghost use Rattle.server_engine.specs.Files.{HasNameWithin, NameFits};
ghost use Rattle.server_engine.specs.internal.Asked.{is_unasked};

use ccd_files::Ccd;
use peer_table::ClientSession;
use server_state::{ClientFile, ClientState, ServerCore, put};
use std::alloc::Global;
use vpn_base::{Cid, RouteList, TextList};
use vpn_links::{Effect, Outbox};

// What is known of a client that has no file.
pub(crate) fn no_file(alloc: Global) -> Ccd
    ensures { result ≡ no_ccd }
{
    Ccd {
        address: None,
        iroutes: RouteList::new(alloc),
        pushes: TextList::new(alloc),
        reset: false,
        disable: false,
    }
}

fn put_file<S>(client: &mut ClientState<S>, file: ClientFile)
    ensures { client.new ≡ record client.old { file = file } }
{
    client.file = file;
}

// Something else is known of the file of the client at this place.
pub(crate) fn set_file<S: ClientSession>(core: &mut ServerCore<S>, i: usize, file: ClientFile)
    requires { i < length (entries_of core.old.clients) }
    ensures set { (t : Table) (n : ℕ) (state : FileState) → CoreStands S.stands core.old t → place_of n (entries_of core.old.clients) ≡ Some i →
        ((x : Client) → client_here t n ≡ Some x → FileStands x.session.name file state) →
        CoreStands S.stands core.new (with_client n (λ x. record x { file = state }) t) }
    ensures sound { IsSound S.goes_on S.count S.since core.old → IsSound S.goes_on S.count S.since core.new }
    ensures ready { StaysReady S.may_exchange core.old core.new }
    ensures turn_stays { core.new.turn ≡ core.old.turn }
    ensures mark_stays { core.new.mark ≡ core.old.mark }
    ensures only { core.new ≡ record core.old { clients = core.new.clients } }
{
    client_table::lending_sets_the_value::<ClientState<S>>();
    server_state::places_tell_of_clients::<S>();
    server_state::a_changed_core_is_sound::<S>();
    put_file(core.clients.value_at(i), file);
}

// Asks for a file, whose name has no more bytes than there is room for.
fn put_ask(cid: Cid, name: &[u8], longest: usize, out: &mut Outbox)
    requires { HasRoom out.old 1 longest }
    ensures put { length name.now ≤ longest → Holds out.new (out.old.effects ++ Ask cid name.now ∷ []) out.old.staged }
    ensures uses { Uses out.old out.new 1 longest }
{
    if name.len() <= longest {
        put(out, &Effect::Ask { cid, name });
    }
}

// Asks for the file of the client's name.
fn put_ask_own<S: ClientSession>(cid: Cid, session: &S, longest: usize, out: &mut Outbox)
    requires { HasRoom out.old 1 longest }
    ensures put { (p : Peer) → S.stands session.now p → NameFits longest p.name →
        Holds out.new (out.old.effects ++ Ask cid (unwrap_or p.name []) ∷ []) out.old.staged }
    ensures uses { Uses out.old out.new 1 longest }
{
    match session.name() {
        None => {}
        Some(name) => put_ask(cid, name, longest, out),
    }
}

// The client at this place waits for the file of its name.
fn ask_own<S: ClientSession>(
    core: &mut ServerCore<S>,
    i: usize,
    cid: Cid,
    longest: usize,
    out: &mut Outbox,
)
    requires room { HasRoom out.old 1 longest }
    requires place { place_of cid.0 (entries_of core.old.clients) ≡ Some i }
    requires within { i < length (entries_of core.old.clients) }
    ensures asked { (before : List Action) (c : Course) (x : Client) → CourseStands S.stands before core.old out.old c →
        client_here c.table cid.0 ≡ Some x → NameFits longest x.session.name →
        CourseStands S.stands before core.new out.new (asked_for cid.0 (unwrap_or x.session.name []) c) }
    ensures sound { IsSound S.goes_on S.count S.since core.old → IsSound S.goes_on S.count S.since core.new }
    ensures ready { StaysReady S.may_exchange core.old core.new }
    ensures uses { Uses out.old out.new 1 longest }
    ensures turn_stays { core.new.turn ≡ core.old.turn }
    ensures mark_stays { core.new.mark ≡ core.old.mark }
    ensures only { core.new ≡ record core.old { clients = core.new.clients } }
{
    server_state::places_tell_of_clients::<S>();
    put_ask_own(cid, &core.clients.look_at(i).session, longest, out);
    set_file(core, i, ClientFile::AwaitsOwn);
}

// The client at this place waits for the file for all clients that have none.
pub(crate) fn ask_default<S: ClientSession>(
    core: &mut ServerCore<S>,
    i: usize,
    cid: Cid,
    out: &mut Outbox,
)
    requires room { HasRoom out.old 1 7 }
    requires place { place_of cid.0 (entries_of core.old.clients) ≡ Some i }
    requires within { i < length (entries_of core.old.clients) }
    ensures asked { (before : List Action) (c : Course) → CourseStands S.stands before core.old out.old c →
        CourseStands S.stands before core.new out.new (asked_for cid.0 default_name c) }
    ensures sound { IsSound S.goes_on S.count S.since core.old → IsSound S.goes_on S.count S.since core.new }
    ensures ready { StaysReady S.may_exchange core.old core.new }
    ensures uses { Uses out.old out.new 1 7 }
    ensures turn_stays { core.new.turn ≡ core.old.turn }
    ensures mark_stays { core.new.mark ≡ core.old.mark }
    ensures only { core.new ≡ record core.old { clients = core.new.clients } }
{
    put(
        out,
        &Effect::Ask {
            cid,
            name: b"DEFAULT",
        },
    );
    set_file(core, i, ClientFile::AwaitsDefault);
}

fn is_unasked(file: &ClientFile) -> bool
    ensures { result ≡ is_unasked file.now }
{
    match file {
        ClientFile::Unasked => true,
        ClientFile::AwaitsOwn => false,
        ClientFile::AwaitsDefault => false,
        ClientFile::Known(_) => false,
    }
}

// The file of the client at this place, for which none was asked, is looked for.
fn ask_first<S: ClientSession>(
    core: &mut ServerCore<S>,
    alloc: Global,
    i: usize,
    cid: Cid,
    longest: usize,
    out: &mut Outbox,
)
    requires room { HasRoom out.old 1 longest }
    requires place { place_of cid.0 (entries_of core.old.clients) ≡ Some i }
    requires within { i < length (entries_of core.old.clients) }
    ensures asked { (before : List Action) (c : Course) (x : Client) → CourseStands S.stands before core.old out.old c →
        client_here c.table cid.0 ≡ Some x → NameFits longest x.session.name →
        CourseStands S.stands before core.new out.new (asked_in cid.0 (unwrap_or x.session.name []) c c.table.settings.ccd) }
    ensures sound { IsSound S.goes_on S.count S.since core.old → IsSound S.goes_on S.count S.since core.new }
    ensures ready { StaysReady S.may_exchange core.old core.new }
    ensures uses { Uses out.old out.new 1 longest }
    ensures turn_stays { core.new.turn ≡ core.old.turn }
    ensures mark_stays { core.new.mark ≡ core.old.mark }
    ensures only { core.new ≡ record core.old { clients = core.new.clients } }
{
    match &core.settings.ccd {
        None => set_file(core, i, ClientFile::Known(no_file(alloc))),
        Some(_) => ask_own(core, i, cid, longest, out),
    }
}

/// A client that has a name now waits for its file, if a folder has such files; none is asked for twice. Its
/// name is known, and has at most so many bytes. It takes no memory.
pub fn ask_file<S: ClientSession>(
    core: &mut ServerCore<S>,
    alloc: Global,
    cid: Cid,
    longest: usize,
    out: &mut Outbox,
)
    requires { HasRoom out.old 1 longest }
    ensures asked { (before : List Action) (c : Course) → CourseStands S.stands before core.old out.old c → HasNameWithin longest c.table cid.0 →
        CourseStands S.stands before core.new out.new (asked cid.0 c) }
    ensures sound { IsSound S.goes_on S.count S.since core.old → IsSound S.goes_on S.count S.since core.new }
    ensures ready { StaysReady S.may_exchange core.old core.new }
    ensures uses { Uses out.old out.new 1 longest }
    ensures turn_stays { core.new.turn ≡ core.old.turn }
    ensures mark_stays { core.new.mark ≡ core.old.mark }
    ensures only { core.new ≡ record core.old { clients = core.new.clients } }
{
    server_state::places_tell_of_clients::<S>();
    match core.clients.place(cid) {
        None => {}
        Some(i) => {
            if is_unasked(&core.clients.look_at(i).file) {
                ask_first(core, alloc, i, cid, longest, out);
            }
        }
    }
}
