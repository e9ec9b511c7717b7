//! A client asks for its options.

ghost use Rattle.std.specs.Prelude.{◌≡◌, ◌≤◌, ◌+◌, List, Some, IfOk};
ghost use Rattle.vpn_links.specs.Actions.{Action};
ghost use Rattle.peer_table.specs.Outboxes.{HasRoom, Uses};
ghost use Rattle.server_table.specs.Courses.{Course};
ghost use Rattle.server_table.specs.Establishing.{client_established};
ghost use Rattle.server_table.specs.Exchange.{established_as_asked, requested};
ghost use Rattle.server_table.specs.Lookups.{client_here};
ghost use Rattle.server_table.specs.Table.{Client, Table};
ghost use Rattle.server_state.specs.Core.{CoreStands, CourseStands, IsSound};
ghost use Rattle.server_establishing.specs.internal.Asking.{asked_on, prepared_after};
ghost use Rattle.server_establishing.specs.Prepared.{IsAwaited, IsKept, IsKeptFor, IsPrepared, prepared_bytes, prepared_effects};
ghost use Rattle.server_establishing.specs.Ahead.{bytes_with, effects_with};

use crate::ahead::Ahead;
use crate::establishing::establish;
use crate::replying::reply_again;
use peer_table::ClientSession;
use server_state::ServerCore;
use server_texts::ReplyAhead;
use vpn_base::{Cid, Conn, NoMemory};
use vpn_links::Outbox;

/// What is prepared in a step for a client that may ask for its options.
#[derive(Drop)]
pub enum Prepared {
    /// It is not established, and this was made ahead for it.
    New(Ahead),
    /// It is established, and this is the reply that it got.
    Again(ReplyAhead),
    /// It is not here.
    Nothing,
}

impl Prepared {
    /// How many effects and bytes an outbox takes at most of it. Want of memory is only where they pass every
    /// number.
    pub fn room(&self) -> Result<(usize, usize), NoMemory>
        ensures effects { IfOk result (λ r. r.0 ≡ prepared_effects self.now) }
        ensures bytes { IfOk result (λ r. r.1 ≡ prepared_bytes self.now) }
    {
        match self {
            Prepared::New(ahead) => ahead.room(),
            Prepared::Again(replies) => Ok(replies.room()),
            Prepared::Nothing => Ok((0, 0)),
        }
    }
}

fn prepared_after(replies: Option<ReplyAhead>) -> Prepared
    ensures { result ≡ prepared_after replies }
{
    match replies {
        None => Prepared::Nothing,
        Some(replies) => Prepared::Again(replies),
    }
}

// Establishes a client for which this was made ahead.
fn establish_new<S: ClientSession + Drop>(
    core: &mut ServerCore<S>,
    cid: Cid,
    conn: Conn,
    ahead: Ahead,
    out: &mut Outbox,
) -> Prepared
    requires kept { IsKeptFor core.old ahead }
    requires room { HasRoom out.old (5 + effects_with ahead.file ahead.lease) (39 + bytes_with ahead.file ahead.lease) }
    requires first { core.old.mark ≡ 0 }
    ensures established { (before : List Action) (c : Course) (x : Client) → CourseStands S.stands before core.old out.old c →
        client_here c.table cid.0 ≡ Some x → IsAwaited c cid.0 x ahead → CourseStands S.stands before core.new out.new (client_established cid.0 conn c) }
    ensures prepared { (c : Course) (x y : Client) → client_here c.table cid.0 ≡ Some x → IsAwaited c cid.0 x ahead →
        client_here (client_established cid.0 conn c).table cid.0 ≡ Some y → IsPrepared (client_established cid.0 conn c) cid.0 y result }
    ensures kept { IsKept core.new result }
    ensures sound { IsSound S.goes_on S.count S.since core.old → IsSound S.goes_on S.count S.since core.new }
    ensures uses { Uses out.old out.new (5 + effects_with ahead.file ahead.lease) (39 + bytes_with ahead.file ahead.lease) }
    ensures less { (prepared_effects result ≤ 5 + effects_with ahead.file ahead.lease) × (prepared_bytes result ≤ 39 + bytes_with ahead.file ahead.lease) }
    ensures turn_stays { core.new.turn ≡ core.old.turn }
    ensures mark_stays { core.new.mark ≡ core.old.mark }
{
    prepared_after(establish(core, cid, conn, ahead, out))
}

/// Answers a client that is here and requests its options, on this connection: it is established, or the same
/// reply is written again. The answer is what is prepared for it from then on. It takes no memory.
pub fn answer_request<S: ClientSession + Drop>(
    core: &mut ServerCore<S>,
    cid: Cid,
    conn: Conn,
    prepared: Prepared,
    out: &mut Outbox,
) -> Prepared
    requires kept { IsKept core.old prepared }
    requires room { HasRoom out.old (prepared_effects prepared) (prepared_bytes prepared) }
    requires first { core.old.mark ≡ 0 }
    ensures requested { (before : List Action) (c : Course) (x : Client) → CourseStands S.stands before core.old out.old c →
        client_here c.table cid.0 ≡ Some x → IsPrepared c cid.0 x prepared → CourseStands S.stands before core.new out.new (requested cid.0 conn c (Some x)) }
    ensures prepared { (c : Course) (x y : Client) → client_here c.table cid.0 ≡ Some x → IsPrepared c cid.0 x prepared →
        client_here (requested cid.0 conn c (Some x)).table cid.0 ≡ Some y → IsPrepared (requested cid.0 conn c (Some x)) cid.0 y result }
    ensures kept { IsKept core.new result }
    ensures sound { IsSound S.goes_on S.count S.since core.old → IsSound S.goes_on S.count S.since core.new }
    ensures uses { Uses out.old out.new (prepared_effects prepared) (prepared_bytes prepared) }
    ensures less { (prepared_effects result ≤ prepared_effects prepared) × (prepared_bytes result ≤ prepared_bytes prepared) }
    ensures turn_stays { core.new.turn ≡ core.old.turn }
    ensures mark_stays { core.new.mark ≡ core.old.mark }
{
    match prepared {
        Prepared::New(ahead) => establish_new(core, cid, conn, ahead, out),
        Prepared::Again(replies) => {
            reply_again(core, cid, conn, &replies, out);
            Prepared::Again(replies)
        }
        Prepared::Nothing => Prepared::Nothing,
    }
}

// The connection on which a client is established that asks for it.
fn asked_on<S: ClientSession>(core: &ServerCore<S>, cid: Cid) -> Option<Conn>
    ensures { (t : Table) (x : Client) → CoreStands S.stands core.now t → client_here t cid.0 ≡ Some x → result ≡ asked_on x.session x.session.asks_push }
{
    server_state::places_tell_of_clients::<S>();
    let Some(i) = core.clients.place(cid) else {
        return None;
    };
    let client = core.clients.look_at(i);
    if client.session.asks_push() {
        return client.session.first_conn();
    }
    None
}

/// Establishes a client that is here, is not established, and asked for it in its key exchange, on the connection
/// of its key session 0. The answer is what is prepared for it from then on. It takes no memory.
pub fn establish_as_asked<S: ClientSession + Drop>(
    core: &mut ServerCore<S>,
    cid: Cid,
    prepared: Prepared,
    out: &mut Outbox,
) -> Prepared
    requires kept { IsKept core.old prepared }
    requires room { HasRoom out.old (prepared_effects prepared) (prepared_bytes prepared) }
    requires first { core.old.mark ≡ 0 }
    ensures established { (before : List Action) (c : Course) (x : Client) → CourseStands S.stands before core.old out.old c →
        client_here c.table cid.0 ≡ Some x → IsPrepared c cid.0 x prepared → CourseStands S.stands before core.new out.new (established_as_asked cid.0 c (Some x)) }
    ensures prepared { (c : Course) (x y : Client) → CoreStands S.stands core.old c.table → client_here c.table cid.0 ≡ Some x → IsPrepared c cid.0 x prepared →
        client_here (established_as_asked cid.0 c (Some x)).table cid.0 ≡ Some y → IsPrepared (established_as_asked cid.0 c (Some x)) cid.0 y result }
    ensures kept { IsKept core.new result }
    ensures sound { IsSound S.goes_on S.count S.since core.old → IsSound S.goes_on S.count S.since core.new }
    ensures uses { Uses out.old out.new (prepared_effects prepared) (prepared_bytes prepared) }
    ensures less { (prepared_effects result ≤ prepared_effects prepared) × (prepared_bytes result ≤ prepared_bytes prepared) }
    ensures turn_stays { core.new.turn ≡ core.old.turn }
    ensures mark_stays { core.new.mark ≡ core.old.mark }
{
    match prepared {
        Prepared::New(ahead) => match asked_on(core, cid) {
            None => Prepared::New(ahead),
            Some(conn) => establish_new(core, cid, conn, ahead, out),
        },
        Prepared::Again(replies) => Prepared::Again(replies),
        Prepared::Nothing => Prepared::Nothing,
    }
}
