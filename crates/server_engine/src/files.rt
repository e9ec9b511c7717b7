//! Answers for clients' files.

ghost use Rattle.std.specs.Prelude.{◌≡◌, ◌<◌, IfSome, ◌∷◌, ℕ, Bool, List, Option, length, Some, None};
ghost use Rattle.std.specs.Str.{bytes_eq};
ghost use Rattle.vpn_base.specs.declared.names.Draw.{Draw};
ghost use Rattle.vpn_links.specs.Actions.{Action};
ghost use Rattle.vpn_links.specs.declared.events.FileAnswer.{FileAnswer};
ghost use Rattle.client_table.specs.Changes.{place_of};
ghost use Rattle.client_table.specs.Tables.{entries_of};
ghost use Rattle.peer_table.specs.Outboxes.{HasRoom, Uses};
ghost use Rattle.peer_table.specs.Peer.{Peer};
ghost use Rattle.server_table.specs.Courses.{Course};
ghost use Rattle.server_table.specs.Engine.{default_name, file_accepted, file_given, file_lacking};
ghost use Rattle.server_table.specs.Table.{FileState};
ghost use Rattle.server_state.specs.Core.{CourseStands, FileStands, IsSound};
ghost use Rattle.server_engine.specs.Files.{IsTaken, Tells};
ghost use Rattle.server_engine.specs.internal.Asked.{IsTakenAs, awaited_default};

use crate::answers::ReadAnswer;
use crate::asking::{ask_default, no_file};
use ccd_files::Ccd;
use peer_table::ClientSession;
use server_state::{ClientFile, ClientState, ServerCore};
use std::alloc::Global;
use vpn_base::{Cause, Cid};
use vpn_links::{Note, Outbox};

// Whether the client's name is that of the file for all clients that have none.
fn is_default_named<S: ClientSession>(session: &S) -> bool
    ensures { (p : Peer) (name : List ℕ) → S.stands session.now p → p.name ≡ Some name → result ≡ bytes_eq name default_name }
{
    match session.name() {
        None => false,
        Some(name) => name == b"DEFAULT".as_slice(),
    }
}

// Whether the file that a client waits for is the one for all clients that have none, if it waits for one.
fn awaited<S: ClientSession>(client: &ClientState<S>) -> Option<bool>
    ensures { (p : Peer) (state : FileState) → S.stands client.now.session p → FileStands p.name client.now.file state → result ≡ awaited_default state }
{
    match &client.file {
        ClientFile::Unasked => None,
        ClientFile::AwaitsOwn => Some(is_default_named(&client.session)),
        ClientFile::AwaitsDefault => Some(true),
        ClientFile::Known(_) => None,
    }
}

// The client at this place has no file of the name that was asked for.
fn lack_file<S: ClientSession + Drop>(
    core: &mut ServerCore<S>,
    alloc: Global,
    i: usize,
    cid: Cid,
    is_default: bool,
    out: &mut Outbox,
) -> Option<Ccd>
    requires room { HasRoom out.old 5 39 }
    requires turn { cid ≡ core.old.turn }
    requires place { place_of cid.0 (entries_of core.old.clients) ≡ Some i }
    requires within { i < length (entries_of core.old.clients) }
    requires sound { IsSound S.goes_on S.count S.since core.old }
    ensures lacking { (before : List Action) (c : Course) (draw : Draw) (name : List ℕ) → CourseStands S.stands before core.old out.old c →
        is_default ≡ bytes_eq name default_name →
        IsTakenAs S.stands before core.new out.new draw cid.0 c (file_lacking draw cid.0 name c c.table.settings.exclusive) result }
    ensures sound { IsSound S.goes_on S.count S.since core.new }
    ensures uses { Uses out.old out.new 5 39 }
    ensures turn_stays { core.new.turn ≡ core.old.turn }
    ensures mark_stays { core.new.mark ≡ core.old.mark }
    ensures same { IfSome result (λ _. (core.new ≡ core.old) × (out.new ≡ out.old)) }
{
    if core.settings.exclusive {
        core.end(cid, Cause::NoCcd, out);
        return None;
    }
    if is_default {
        return Some(no_file(alloc));
    }
    ask_default(core, i, cid, out);
    None
}

// The client whose turn it is has a file that was read. It is disabled, or goes on with the file.
fn accept_file<S: ClientSession + Drop>(
    core: &mut ServerCore<S>,
    cid: Cid,
    file: Ccd,
    out: &mut Outbox,
) -> Option<Ccd>
    requires room { HasRoom out.old 5 39 }
    requires turn { cid ≡ core.old.turn }
    requires sound { IsSound S.goes_on S.count S.since core.old }
    ensures accepted { (before : List Action) (c : Course) (draw : Draw) → CourseStands S.stands before core.old out.old c →
        IsTakenAs S.stands before core.new out.new draw cid.0 c (file_accepted draw cid.0 c file file.disable) result }
    ensures sound { IsSound S.goes_on S.count S.since core.new }
    ensures uses { Uses out.old out.new 5 39 }
    ensures turn_stays { core.new.turn ≡ core.old.turn }
    ensures mark_stays { core.new.mark ≡ core.old.mark }
    ensures same { IfSome result (λ _. (core.new ≡ core.old) × (out.new ≡ out.old)) }
{
    if file.disable {
        core.end(cid, Cause::Disabled, out);
        return None;
    }
    Some(file)
}

// The client at this place, which waits for a file, gets the answer.
fn give_file<S: ClientSession + Drop>(
    core: &mut ServerCore<S>,
    alloc: Global,
    i: usize,
    cid: Cid,
    is_default: bool,
    answer: ReadAnswer,
    out: &mut Outbox,
) -> Option<Ccd>
    requires room { HasRoom out.old 5 39 }
    requires turn { cid ≡ core.old.turn }
    requires place { place_of cid.0 (entries_of core.old.clients) ≡ Some i }
    requires within { i < length (entries_of core.old.clients) }
    requires sound { IsSound S.goes_on S.count S.since core.old }
    ensures given { (before : List Action) (c : Course) (draw : Draw) (name : List ℕ) (told : FileAnswer) → CourseStands S.stands before core.old out.old c →
        is_default ≡ bytes_eq name default_name → Tells answer told →
        IsTakenAs S.stands before core.new out.new draw cid.0 c (file_given draw cid.0 name c told) result }
    ensures sound { IsSound S.goes_on S.count S.since core.new }
    ensures uses { Uses out.old out.new 5 39 }
    ensures turn_stays { core.new.turn ≡ core.old.turn }
    ensures mark_stays { core.new.mark ≡ core.old.mark }
    ensures same { IfSome result (λ _. (core.new ≡ core.old) × (out.new ≡ out.old)) }
{
    match answer {
        ReadAnswer::Accepted(file) => accept_file(core, cid, file, out),
        ReadAnswer::Refused(fault) => {
            core.end(cid, Cause::CcdRefused { line: fault.line }, out);
            None
        }
        ReadAnswer::Missing => lack_file(core, alloc, i, cid, is_default, out),
        ReadAnswer::Failed => {
            core.end(cid, Cause::CcdFailed, out);
            None
        }
    }
}

/// An answer for the file of the client whose turn it is has come, and was read. One that no client waits for
/// is reported; it may end the client, or the file for all clients that have none may be asked for. What is
/// answered is the file with which the client goes on, and then nothing has changed. It takes no memory.
pub fn take_file<S: ClientSession + Drop>(
    core: &mut ServerCore<S>,
    alloc: Global,
    cid: Cid,
    answer: ReadAnswer,
    out: &mut Outbox,
) -> Option<Ccd>
    requires room { HasRoom out.old 5 39 }
    requires turn { cid ≡ core.old.turn }
    requires sound { IsSound S.goes_on S.count S.since core.old }
    ensures taken { (before : List Action) (c : Course) (draw : Draw) (told : FileAnswer) → CourseStands S.stands before core.old out.old c → Tells answer told →
        IsTaken S.stands before core.new out.new draw cid told c result }
    ensures sound { IsSound S.goes_on S.count S.since core.new }
    ensures uses { Uses out.old out.new 5 39 }
    ensures turn_stays { core.new.turn ≡ core.old.turn }
    ensures mark_stays { core.new.mark ≡ core.old.mark }
    ensures same { IfSome result (λ _. (core.new ≡ core.old) × (out.new ≡ out.old)) }
{
    server_state::places_tell_of_clients::<S>();
    let Some(i) = core.clients.place(cid) else {
        core.report(Note::Unasked { cid }, out);
        return None;
    };
    match awaited(core.clients.look_at(i)) {
        None => {
            core.report(Note::Unasked { cid }, out);
            None
        }
        Some(is_default) => give_file(core, alloc, i, cid, is_default, answer, out),
    }
}
