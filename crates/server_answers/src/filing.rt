//! Answers for clients' files.

ghost use Rattle.std.specs.Prelude.{◌≡◌, ◌≤◌, ◌-◌, ◌^◌, [], Bool, List, ℕ, None, Option, Some, false, OnOk, OnErr, MatchResult};
ghost use Rattle.vpn_links.specs.Actions.{Action, Holds};
ghost use Rattle.peer_table.specs.Outboxes.{HasRoom};
ghost use Rattle.server_table.specs.Courses.{Course, outs};
ghost use Rattle.server_table.specs.Engine as definitions;
ghost use Rattle.server_table.specs.Engine.{file_known};
ghost use Rattle.server_table.specs.Lookups.{client_here};
ghost use Rattle.server_table.specs.Runs.{is_refusal};
ghost use Rattle.server_table.specs.Table.{Client, FileState, Table};
ghost use Rattle.server_state.specs.Core.{CoreStands, CourseStands, FileStands, IsSound, IsSoundAhead, StaysTold};
ghost use Rattle.server_engine.specs.Calls.{MayExchangeNow};
ghost use Rattle.server_answers.specs.internal.Ahead.{IsTurnAt, StaysSame};
ghost use Rattle.server_answers.specs.internal.Filing.{awaits, is_waited_for};

use crate::ahead::{is_established, make_ready, own_name_at, prepare_new, unread_at};
use crate::following::follow_exchange;
use crate::reserving::reserve_exchange;
use ccd_files::Ccd;
use peer_table::ClientSession;
use server_engine::{know_file, read_answer, take_file};
use server_establishing::give_back_held;
use server_state::{ClientFile, ServerCore, a_core_ahead_is_sound};
use server_table::what_is_done_is_no_refusal;
use std::alloc::Global;
use vpn_base::{Cid, Draw, NoMemory};
use vpn_links::{FileAnswer, Kind, Note, Outbox};

// Whether a file is waited for.
fn awaits(file: &ClientFile) -> bool
    ensures { (name : Option (List ℕ)) (s : FileState) → FileStands name file.now s → result ≡ awaits s }
{
    match file {
        ClientFile::Unasked => false,
        ClientFile::AwaitsOwn => true,
        ClientFile::AwaitsDefault => true,
        ClientFile::Known(_) => false,
    }
}

// Whether the client of this number is here and waits for its file.
fn is_waited_for<S: ClientSession>(core: &ServerCore<S>, cid: Cid) -> bool
    ensures { (t : Table) → CoreStands S.stands core.now t → result ≡ is_waited_for (client_here t cid.0) }
{
    server_state::places_tell_of_clients::<S>();
    match core.clients.place(cid) {
        None => false,
        Some(i) => awaits(&core.clients.look_at(i).file),
    }
}

// The client at this place, which may make its key exchange, has this file, and goes on with it. After want of
// memory nothing has changed.
#[tactic(auto, using(crate::proofs::Readied::stays_itself))]
fn file_ready<S: ClientSession + Drop>(
    core: &mut ServerCore<S>,
    alloc: Global,
    draw: &Draw,
    i: usize,
    file: Ccd,
    out: &mut Outbox,
) -> Result<(), NoMemory>
    requires ready { MayExchangeNow S.may_exchange core.old i }
    requires sound { IsSoundAhead S.goes_on S.count S.since core.old }
    requires none_held { core.old.held ≡ None }
    requires mark { core.old.mark ≡ 0 }
    ensures known { OnOk result ((before : List Action) (c : Course) (x : Client) → CourseStands S.stands before core.old out.old c →
        client_here c.table core.old.turn.0 ≡ Some x → CourseStands S.stands before core.new out.new (file_known draw.now core.old.turn.0 file c)) }
    ensures sound { OnOk result (IsSound S.goes_on S.count S.since core.new) }
    ensures stays { OnErr result (StaysSame S.stands S.goes_on S.count S.since core.old core.new) }
    ensures outbox { OnErr result (Holds out.new out.old.effects out.old.staged) }
{
    a_core_ahead_is_sound::<S>();
    server_establishing::what_is_made_stays();
    let cid = core.turn;
    // No client is established whose file is not known.
    if is_established(core, i) {
        return Err(NoMemory);
    }
    let left = match unread_at(core, i, 0) {
        Ok(left) => left,
        Err(NoMemory) => return Err(NoMemory),
    };
    let name = match own_name_at(core, alloc, i) {
        Ok(name) => name,
        Err(NoMemory) => return Err(NoMemory),
    };
    let prepared = match prepare_new(core, alloc, cid, name.as_slice(), &file) {
        Ok(prepared) => prepared,
        Err(NoMemory) => return Err(NoMemory),
    };
    match reserve_exchange(out, &prepared, left) {
        Ok(()) => {}
        Err(NoMemory) => return Err(NoMemory),
    }
    know_file(core, i, file);
    follow_exchange(core, draw, i, prepared, left, out);
    Ok(())
}

// The client whose turn it is has this file, and goes on with it. After want of memory nothing has changed.
#[tactic(auto, using(crate::proofs::Readied::stays_itself))]
fn file_known<S: ClientSession + Drop>(
    core: &mut ServerCore<S>,
    alloc: Global,
    draw: &Draw,
    file: Ccd,
    out: &mut Outbox,
) -> Result<(), NoMemory>
    requires few { core.old.events ≤ 2 ^ 48 }
    requires sound { IsSoundAhead S.goes_on S.count S.since core.old }
    requires none_held { core.old.held ≡ None }
    requires mark { core.old.mark ≡ 0 }
    ensures known { OnOk result ((before : List Action) (c : Course) → CourseStands S.stands before core.old out.old c →
        CourseStands S.stands before core.new out.new (file_known draw.now core.old.turn.0 file c)) }
    ensures sound { OnOk result (IsSound S.goes_on S.count S.since core.new) }
    ensures stays { OnErr result (StaysSame S.stands S.goes_on S.count S.since core.old core.new) }
    ensures outbox { OnErr result (Holds out.new out.old.effects out.old.staged) }
{
    server_state::places_tell_of_clients::<S>();
    let cid = core.turn;
    // Only a client that is here waits for a file.
    let Some(i) = core.clients.place(cid) else {
        return Err(NoMemory);
    };
    let kind = Kind::File {
        cid,
        answer: FileAnswer::Missing,
    };
    let room = match make_ready(core, i, &kind) {
        Ok(room) => room,
        Err(NoMemory) => return Err(NoMemory),
    };
    // A key exchange takes the room that is reserved for it.
    let _ = room;
    file_ready(core, alloc, draw, i, file, out)
}

// The client whose turn it is waits for its file, and has this answer. After want of memory nothing has changed.
#[tactic(auto, using(crate::proofs::Readied::stays_itself))]
fn file_given<S: ClientSession + Drop>(
    core: &mut ServerCore<S>,
    alloc: Global,
    draw: &Draw,
    id: Cid,
    answer: &FileAnswer,
    out: &mut Outbox,
) -> Result<(), NoMemory>
    requires turn { id ≡ core.old.turn }
    requires few { core.old.events ≤ 2 ^ 48 }
    requires sound { IsSoundAhead S.goes_on S.count S.since core.old }
    requires none_held { core.old.held ≡ None }
    requires mark { core.old.mark ≡ 0 }
    ensures came { OnOk result ((before : List Action) (c : Course) → CourseStands S.stands before core.old out.old c →
        CourseStands S.stands before core.new out.new (definitions.file_came draw.now id answer.now c)) }
    ensures sound { OnOk result (IsSound S.goes_on S.count S.since core.new) }
    ensures stays { OnErr result (StaysSame S.stands S.goes_on S.count S.since core.old core.new) }
    ensures outbox { OnErr result (Holds out.new out.old.effects out.old.staged) }
{
    a_core_ahead_is_sound::<S>();
    let read = match read_answer(alloc, answer) {
        Ok(read) => read,
        Err(NoMemory) => return Err(NoMemory),
    };
    match out.reserve(5, 39) {
        Ok(()) => {}
        Err(NoMemory) => return Err(NoMemory),
    }
    match take_file(core, alloc, id, read, out) {
        None => Ok(()),
        Some(file) => file_known(core, alloc, draw, file, out),
    }
}

/// The question for the file of the client of this number is answered. An answer that no client waits for is
/// reported, for which no memory is taken. After want of memory nothing has changed but whose turn it is.
pub fn file_came<S: ClientSession + Drop>(
    core: &mut ServerCore<S>,
    alloc: Global,
    draw: &Draw,
    id: Cid,
    answer: &FileAnswer,
    out: &mut Outbox,
) -> Result<(), NoMemory>
    requires few { core.old.events ≤ 2 ^ 48 }
    requires sound { IsSoundAhead S.goes_on S.count S.since core.old }
    requires room { HasRoom out.old 1 0 }
    requires alone { out.old.staged ≡ [] }
    requires mark { core.old.mark ≡ 0 }
    ensures came { OnOk result ((before : List Action) (c : Course) → CourseStands S.stands before core.old out.old c →
        CourseStands S.stands before core.new out.new (definitions.file_came draw.now id answer.now c)) }
    ensures kept { OnErr result ((before : List Action) (c : Course) → CourseStands S.stands before core.old out.old c →
        CourseStands S.stands before core.new out.new c) }
    ensures sound { MatchResult result (λ _. IsSound S.goes_on S.count S.since core.new) (λ _. IsSoundAhead S.goes_on S.count S.since core.new) }
    ensures still { OnErr result (StaysTold S.since core.old core.new) }
    ensures outbox { OnErr result (Holds out.new out.old.effects out.old.staged) }
    ensures events { OnErr result (core.new.events ≡ core.old.events) }
    ensures lacking { OnErr result ((before : List Action) (c : Course) → CourseStands S.stands before core.old out.old c → c.effects ≡ [] →
        is_refusal (outs (definitions.file_came draw.now id answer.now c)) ≡ false) }
{
    a_core_ahead_is_sound::<S>();
    what_is_done_is_no_refusal();
    if !is_waited_for(core, id) {
        core.report(Note::Unasked { cid: id }, out);
        return Ok(());
    }
    give_back_held(core);
    core.turn = id;
    file_given(core, alloc, draw, id, answer, out)
}
