//! What follows an answer of the engine.

ghost use Rattle.std.specs.Prelude.{◌≡◌, ◌≤◌, ◌+◌, ◌<◌, List, Some, length};
ghost use Rattle.vpn_links.specs.Actions.{Action};
ghost use Rattle.client_table.specs.Tables.{entries_of};
ghost use Rattle.peer_table.specs.EngineAnswers.{engine_came};
ghost use Rattle.peer_table.specs.Exchange.{all_unread, cipher_of};
ghost use Rattle.peer_table.specs.Outboxes.{GoesOnUnlessOver, HasRoom, Uses};
ghost use Rattle.server_table.specs.Courses.{Course};
ghost use Rattle.server_table.specs.Engine.{asked, engine_acted, gone_on, unread_judged};
ghost use Rattle.server_table.specs.Exchange as definitions;
ghost use Rattle.server_table.specs.Exchange.{messages_taken};
ghost use Rattle.server_table.specs.Lookups.{client_here};
ghost use Rattle.server_table.specs.Table.{Client};
ghost use Rattle.server_state.specs.Core.{CourseStands, IsSound};
ghost use Rattle.server_state.specs.Endings.{IsSoundBut};
ghost use Rattle.server_engine.specs.Calls.{IsNamedAt, IsReadyAt, MayExchangeNow};
ghost use Rattle.server_engine.specs.Files.{HasNameWithin, NameFits};
ghost use Rattle.server_establishing.specs.Prepared.{IsKept, IsPrepared};
ghost use Rattle.server_answers.specs.Rooms.{messages_bytes, messages_effects};
ghost use Rattle.server_answers.specs.Texts.{text_in};
ghost use Rattle.server_answers.specs.internal.Ahead.{IsReadied, IsTurnAt, LongestFits};
ghost use Rattle.server_answers.specs.internal.Following.{IfKeyed, MayFollow, exchange_bytes, exchange_effects, follow_bytes, follow_effects};

use crate::exchanged::finish_exchange;
use crate::messages::take_messages;
use peer_table::{ClientSession, Turn};
use server_engine::{ask_file, begin_exchange, call_engine, judge_unread};
use server_establishing::Prepared;
use server_state::ServerCore;
use std::alloc::Global;
use vpn_base::{Cid, Draw};
use vpn_links::{Kind, Note, Outbox};

/// The client whose turn it is, at this place, makes its key exchange where its file is known; it is established
/// where its message asks for it, and every message behind it is taken. It takes no memory.
pub(crate) fn make_exchange<S: ClientSession + Drop>(
    core: &mut ServerCore<S>,
    draw: &Draw,
    i: usize,
    prepared: Prepared,
    left: usize,
    out: &mut Outbox,
)
    requires room { HasRoom out.old (exchange_effects prepared left) (exchange_bytes prepared left) }
    requires ready { MayExchangeNow S.may_exchange core.old i }
    requires kept { IsKept core.old prepared }
    requires first { core.old.mark ≡ 0 }
    requires sound { IsSound S.goes_on S.count S.since core.old }
    ensures made { (before : List Action) (c : Course) (x : Client) → CourseStands S.stands before core.old out.old c → client_here c.table core.old.turn.0 ≡ Some x →
        IsPrepared c core.old.turn.0 x prepared → all_unread x.session.sessions ≤ left →
        CourseStands S.stands before core.new out.new (definitions.exchange draw.now core.old.turn.0 c) }
    ensures sound { IsSound S.goes_on S.count S.since core.new }
    ensures uses { Uses out.old out.new (exchange_effects prepared left) (exchange_bytes prepared left) }
    ensures turn_stays { core.new.turn ≡ core.old.turn }
    ensures mark_stays { core.new.mark ≡ core.old.mark }
{
    server_state::places_tell_of_clients::<S>();
    crate::laws::unread_text_is_read_in_order();
    server_engine::names_stay();
    server_establishing::what_is_made_stays();
    if begin_exchange(core, i, draw, out) {
        let _ = finish_exchange(core, prepared, left, out);
    }
}

// Every message that waits at the client whose turn it is, at this place, is taken. Where there are no keys, none
// waits. It takes no memory.
fn read_messages<S: ClientSession + Drop>(
    core: &mut ServerCore<S>,
    i: usize,
    prepared: Prepared,
    left: usize,
    out: &mut Outbox,
)
    requires at { IsTurnAt core.old i }
    requires kept { IsKept core.old prepared }
    requires room { HasRoom out.old (messages_effects prepared left) (messages_bytes prepared left) }
    requires first { core.old.mark ≡ 0 }
    requires sound { IsSound S.goes_on S.count S.since core.old }
    ensures taken { (before : List Action) (c : Course) (x : Client) → CourseStands S.stands before core.old out.old c → client_here c.table core.old.turn.0 ≡ Some x →
        IfKeyed (cipher_of x.session) (IsPrepared c core.old.turn.0 x prepared) → all_unread x.session.sessions ≤ left →
        CourseStands S.stands before core.new out.new (messages_taken core.old.turn.0 c) }
    ensures sound { IsSound S.goes_on S.count S.since core.new }
    ensures uses { Uses out.old out.new (messages_effects prepared left) (messages_bytes prepared left) }
    ensures turn_stays { core.new.turn ≡ core.old.turn }
    ensures mark_stays { core.new.mark ≡ core.old.mark }
{
    server_state::places_tell_of_clients::<S>();
    match core.clients.look_at(i).session.cipher() {
        None => {}
        Some(_) => {
            let _ = take_messages(core, prepared, left, out);
        }
    }
}

// The messages of the client whose turn it is, at this place, are taken, and how much stays unread is judged.
fn follow_going<S: ClientSession + Drop>(
    core: &mut ServerCore<S>,
    i: usize,
    prepared: Prepared,
    left: usize,
    out: &mut Outbox,
)
    requires at { IsTurnAt core.old i }
    requires kept { IsKept core.old prepared }
    requires room { HasRoom out.old (messages_effects prepared left + 5) (messages_bytes prepared left + 39) }
    requires first { core.old.mark ≡ 0 }
    requires sound { IsSound S.goes_on S.count S.since core.old }
    ensures followed { (before : List Action) (c : Course) (x : Client) → CourseStands S.stands before core.old out.old c → client_here c.table core.old.turn.0 ≡ Some x →
        IfKeyed (cipher_of x.session) (IsPrepared c core.old.turn.0 x prepared) → all_unread x.session.sessions ≤ left →
        CourseStands S.stands before core.new out.new (unread_judged core.old.turn.0 (messages_taken core.old.turn.0 c)) }
    ensures sound { IsSound S.goes_on S.count S.since core.new }
{
    let cid = core.turn;
    read_messages(core, i, prepared, left, out);
    judge_unread(core, cid, out);
}

/// The client whose turn it is, at this place, makes its key exchange, and how much stays unread is judged.
pub(crate) fn follow_exchange<S: ClientSession + Drop>(
    core: &mut ServerCore<S>,
    draw: &Draw,
    i: usize,
    prepared: Prepared,
    left: usize,
    out: &mut Outbox,
)
    requires room { HasRoom out.old (5 + exchange_effects prepared left) (39 + exchange_bytes prepared left) }
    requires ready { MayExchangeNow S.may_exchange core.old i }
    requires kept { IsKept core.old prepared }
    requires first { core.old.mark ≡ 0 }
    requires sound { IsSound S.goes_on S.count S.since core.old }
    ensures followed { (before : List Action) (c : Course) (x : Client) → CourseStands S.stands before core.old out.old c → client_here c.table core.old.turn.0 ≡ Some x →
        IsPrepared c core.old.turn.0 x prepared → all_unread x.session.sessions ≤ left →
        CourseStands S.stands before core.new out.new (unread_judged core.old.turn.0 (definitions.exchange draw.now core.old.turn.0 c)) }
    ensures sound { IsSound S.goes_on S.count S.since core.new }
{
    let cid = core.turn;
    make_exchange(core, draw, i, prepared, left, out);
    judge_unread(core, cid, out);
}

// The file of the client whose turn it is is looked for, and how much stays unread is judged.
fn follow_named<S: ClientSession + Drop>(
    core: &mut ServerCore<S>,
    alloc: Global,
    cid: Cid,
    longest: usize,
    out: &mut Outbox,
)
    requires room { HasRoom out.old 6 (longest + 39) }
    requires turn { cid ≡ core.old.turn }
    requires sound { IsSound S.goes_on S.count S.since core.old }
    ensures followed { (before : List Action) (c : Course) → CourseStands S.stands before core.old out.old c → HasNameWithin longest c.table cid.0 →
        CourseStands S.stands before core.new out.new (unread_judged cid.0 (asked cid.0 c)) }
    ensures sound { IsSound S.goes_on S.count S.since core.new }
{
    ask_file(core, alloc, cid, longest, out);
    judge_unread(core, cid, out);
}

// The file of the client whose turn it is, at this place, is looked for, and it makes its key exchange.
fn follow_message<S: ClientSession + Drop>(
    core: &mut ServerCore<S>,
    alloc: Global,
    draw: &Draw,
    i: usize,
    prepared: Prepared,
    left: usize,
    longest: usize,
    out: &mut Outbox,
)
    requires room { HasRoom out.old (follow_effects prepared left) (follow_bytes prepared left longest) }
    requires ready { MayExchangeNow S.may_exchange core.old i }
    requires kept { IsKept core.old prepared }
    requires first { core.old.mark ≡ 0 }
    requires sound { IsSound S.goes_on S.count S.since core.old }
    ensures followed { (before : List Action) (c : Course) (x : Client) → CourseStands S.stands before core.old out.old c → client_here c.table core.old.turn.0 ≡ Some x →
        IsPrepared c core.old.turn.0 x prepared → all_unread x.session.sessions ≤ left → NameFits longest x.session.name →
        CourseStands S.stands before core.new out.new (unread_judged core.old.turn.0 (definitions.exchange draw.now core.old.turn.0 (asked core.old.turn.0 c))) }
    ensures sound { IsSound S.goes_on S.count S.since core.new }
{
    server_establishing::what_is_made_stays();
    let cid = core.turn;
    ask_file(core, alloc, cid, longest, out);
    follow_exchange(core, draw, i, prepared, left, out);
}

/// What the session of the client whose turn it is, at this place, has answered is done, with all that follows it.
/// It takes no memory.
pub(crate) fn follow<S: ClientSession + Drop>(
    core: &mut ServerCore<S>,
    alloc: Global,
    draw: &Draw,
    i: usize,
    turn: Turn,
    prepared: Prepared,
    left: usize,
    longest: usize,
    out: &mut Outbox,
)
    requires room { HasRoom out.old (follow_effects prepared left) (follow_bytes prepared left longest) }
    requires ready { MayExchangeNow S.may_exchange core.old i }
    requires kept { IsKept core.old prepared }
    requires first { core.old.mark ≡ 0 }
    requires sound { GoesOnUnlessOver (IsSound S.goes_on S.count S.since core.old) turn }
    requires sound_but { IsSoundBut S.goes_on S.count S.since core.old.turn.0 core.old }
    ensures followed { (before : List Action) (c : Course) (x : Client) → CourseStands S.stands before core.old out.old c → client_here c.table core.old.turn.0 ≡ Some x →
        MayFollow turn c core.old.turn.0 x prepared left longest →
        CourseStands S.stands before core.new out.new (gone_on draw.now core.old.turn.0 c turn) }
    ensures sound { IsSound S.goes_on S.count S.since core.new }
{
    let cid = core.turn;
    match turn {
        Turn::Going => follow_going(core, i, prepared, left, out),
        Turn::Ignored => core.report(Note::Ignored { cid }, out),
        Turn::Named => follow_named(core, alloc, cid, longest, out),
        Turn::Exchange => {
            follow_message(core, alloc, draw, i, prepared, left, longest, out);
        }
        Turn::Over(cause) => core.end(cid, cause, out),
    }
}

/// The engine has plain text or a name on a connection of the client whose turn it is, at this place, and all that
/// follows it is done. It takes no memory.
pub(crate) fn take_plain<S: ClientSession + Drop>(
    core: &mut ServerCore<S>,
    alloc: Global,
    draw: &Draw,
    i: usize,
    kind: &Kind,
    room: (usize, usize),
    prepared: Prepared,
    left: usize,
    longest: usize,
    out: &mut Outbox,
)
    requires room { HasRoom out.old (room.0 + follow_effects prepared left) (room.1 + follow_bytes prepared left longest) }
    requires ready { IsReadyAt S.is_ready core.old i kind.now room.0 room.1 }
    requires at { IsTurnAt core.old i }
    requires named { IsNamedAt core.old i }
    requires kept { IsKept core.old prepared }
    requires first { core.old.mark ≡ 0 }
    requires sound { IsSound S.goes_on S.count S.since core.old }
    ensures came { (before : List Action) (c : Course) (x : Client) → CourseStands S.stands before core.old out.old c → client_here c.table core.old.turn.0 ≡ Some x →
        IsReadied kind.now c core.old.turn.0 x prepared → all_unread x.session.sessions + text_in kind.now ≤ left → LongestFits x.session.name longest →
        CourseStands S.stands before core.new out.new (engine_acted draw.now core.old.turn.0 x c (engine_came kind.now c.table.moment x.session)) }
    ensures sound { IsSound S.goes_on S.count S.since core.new }
{
    crate::laws::unread_text_is_read_in_order();
    server_engine::names_fit();
    server_engine::names_stay();
    server_establishing::what_is_made_stays();
    let turn = call_engine(core, i, kind, room, out);
    follow(core, alloc, draw, i, turn, prepared, left, longest, out);
}
