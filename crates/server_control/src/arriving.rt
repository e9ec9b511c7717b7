//! Control packets that come from the wire.

ghost use Rattle.std.specs.Prelude.{◌≡◌, ◌≤◌, ◌+◌, ◌-◌, ◌^◌, ◌==◌, ◌%◌, ◌∷◌, [], List, Bool, ℕ, drop, length, slice_get, true, false, IsTrue, IfOk, OnOk, OnErr, MatchResult};
ghost use Rattle.vpn_links.specs.Actions.{Action, Holds};
ghost use Rattle.vpn_links.specs.declared.events.Kind.TheVariants.{Datagram};
ghost use Rattle.opcode_codec.specs.ControlText.{control_of};
ghost use Rattle.peer_table.specs.Outboxes.{HasRoom};
ghost use Rattle.tls_crypt.specs.Unwrapping.{unwrapping};
ghost use Rattle.server_table.specs.ControlDatagrams as server;
ghost use Rattle.server_table.specs.Courses.{Course, outs};
ghost use Rattle.server_table.specs.Lookups.{by_session};
ghost use Rattle.server_table.specs.Runs.{is_refusal};
ghost use Rattle.server_state.specs.Core.{CourseStands, IsSound, IsSoundAhead, StaysTold};
ghost use Rattle.server_control.specs.Packets.{HasBytes, opened_packet, packet_of};

use crate::admitting::admit;
use crate::taking::to_client;
use opcode_codec::{ControlView, Opcode, read_control};
use peer_table::ClientSession;
use server_state::{ServerCore, a_core_ahead_is_sound};
use server_table::what_is_done_is_no_refusal;
use std::alloc::Global;
use tls_crypt::{Opened, Wrap, Wrapper};
use vpn_base::{Addr, Draw, NoMemory, Role};
use vpn_links::{Kind, Note, Outbox};

// The bytes in front of the plain text of an unwrapped datagram.
const OVERHEAD: usize = 49;

// Whether a packet begins a client.
fn begins_client(op: Opcode, opened: &Opened<'_>, view: &ControlView<'_>) -> bool
    ensures begins { result ≡ server.begins_client op (packet_of opened.now view.now) }
    ensures first { IsTrue result → (opened.now.first % 8 == 0) ≡ true }
{
    op == Opcode::ClientReset && opened.first % 8 == 0 && view.id == Some(0)
}

// A packet of no client: it admits one, or is reported.
fn of_nobody<S: ClientSession + Drop>(
    core: &mut ServerCore<S>,
    alloc: Global,
    from: Addr,
    draw: &Draw,
    op: Opcode,
    kind: &Kind,
    opened: &Opened<'_>,
    view: &ControlView<'_>,
    out: &mut Outbox,
) -> Result<(), NoMemory>
    requires acks { view.now.acks.count ≤ 8 }
    requires wire { HasBytes kind.now (length view.now.payload.now) }
    requires counted { 1 ≤ core.old.events }
    requires few { core.old.events ≤ 2 ^ 48 }
    requires sound { IsSoundAhead S.goes_on S.count S.since core.old }
    requires room { HasRoom out.old 1 0 }
    requires alone { out.old.staged ≡ [] }
    requires mark { core.old.mark ≡ 0 }
    ensures nobody { OnOk result ((before : List Action) (c : Course) (bytes : List ℕ) (lacks : Bool) → CourseStands S.stands before core.old out.old c →
        CourseStands S.stands before core.new out.new
        (server.of_nobody (record { from = from; bytes = bytes; lacks = lacks }) draw.now (packet_of opened.now view.now) c (server.begins_client op (packet_of opened.now view.now)))) }
    ensures kept { OnErr result ((before : List Action) (c : Course) → CourseStands S.stands before core.old out.old c →
        CourseStands S.stands before core.new out.new c) }
    ensures sound { MatchResult result (λ _. IsSound S.goes_on S.count S.since core.new) (λ _. IsSoundAhead S.goes_on S.count S.since core.new) }
    ensures still { OnErr result (StaysTold S.since core.old core.new) }
    ensures outbox { OnErr result (Holds out.new out.old.effects out.old.staged) }
    ensures lacking { OnErr result ((before : List Action) (c : Course) (bytes : List ℕ) (lacks : Bool) → CourseStands S.stands before core.old out.old c → c.effects ≡ [] →
        is_refusal (outs (server.of_nobody (record { from = from; bytes = bytes; lacks = lacks }) draw.now (packet_of opened.now view.now) c (server.begins_client op (packet_of opened.now view.now)))) ≡ false) }
{
    a_core_ahead_is_sound::<S>();
    what_is_done_is_no_refusal();
    if !begins_client(op, opened, view) {
        core.report(Note::UnknownSession { sid: opened.sid }, out);
        return Ok(());
    }
    if !core.clients.has_room() {
        let most = core.settings.max_clients;
        core.report(Note::Full { most }, out);
        return Ok(());
    }
    if opened.id == 0 {
        let (time, id) = (opened.time, opened.id);
        core.report(Note::Replayed { time, id }, out);
        return Ok(());
    }
    admit(core, alloc, from, draw, kind, opened, view, out)
}

// The client at the sender's address with its session id takes the packet; else it is one of no client.
fn find_client<S: ClientSession + Drop>(
    core: &mut ServerCore<S>,
    alloc: Global,
    from: Addr,
    draw: &Draw,
    op: Opcode,
    kind: &Kind,
    opened: &Opened<'_>,
    view: &ControlView<'_>,
    out: &mut Outbox,
) -> Result<(), NoMemory>
    requires acks { view.now.acks.count ≤ 8 }
    requires wire { HasBytes kind.now (length view.now.payload.now) }
    requires counted { 1 ≤ core.old.events }
    requires few { core.old.events ≤ 2 ^ 48 }
    requires sound { IsSoundAhead S.goes_on S.count S.since core.old }
    requires room { HasRoom out.old 1 0 }
    requires alone { out.old.staged ≡ [] }
    requires mark { core.old.mark ≡ 0 }
    ensures found { OnOk result ((before : List Action) (c : Course) (bytes : List ℕ) (lacks : Bool) → CourseStands S.stands before core.old out.old c →
        CourseStands S.stands before core.new out.new
        (server.control_at (record { from = from; bytes = bytes; lacks = lacks }) draw.now op (packet_of opened.now view.now) c (by_session c.table from opened.now.sid))) }
    ensures kept { OnErr result ((before : List Action) (c : Course) → CourseStands S.stands before core.old out.old c →
        CourseStands S.stands before core.new out.new c) }
    ensures sound { MatchResult result (λ _. IsSound S.goes_on S.count S.since core.new) (λ _. IsSoundAhead S.goes_on S.count S.since core.new) }
    ensures still { OnErr result (StaysTold S.since core.old core.new) }
    ensures outbox { OnErr result (Holds out.new out.old.effects out.old.staged) }
    ensures lacking { OnErr result ((before : List Action) (c : Course) (bytes : List ℕ) (lacks : Bool) → CourseStands S.stands before core.old out.old c → c.effects ≡ [] →
        is_refusal (outs (server.control_at (record { from = from; bytes = bytes; lacks = lacks }) draw.now op (packet_of opened.now view.now) c (by_session c.table from opened.now.sid))) ≡ false) }
{
    what_is_done_is_no_refusal();
    match core.by_session(from, opened.sid) {
        None => of_nobody(core, alloc, from, draw, op, kind, opened, view, out),
        Some(cid) => {
            core.turn = cid;
            to_client(core, kind, opened, view, out)
        }
    }
}

// The plain text is read, or reported as malformed with the first byte of its datagram.
fn read_text<S: ClientSession + Drop>(
    core: &mut ServerCore<S>,
    alloc: Global,
    from: Addr,
    draw: &Draw,
    op: Opcode,
    kind: &Kind,
    first: Option<u8>,
    opened: &Opened<'_>,
    out: &mut Outbox,
) -> Result<(), NoMemory>
    requires wire { HasBytes kind.now (length opened.now.plain.now) }
    requires counted { 1 ≤ core.old.events }
    requires few { core.old.events ≤ 2 ^ 48 }
    requires sound { IsSoundAhead S.goes_on S.count S.since core.old }
    requires room { HasRoom out.old 1 0 }
    requires alone { out.old.staged ≡ [] }
    requires mark { core.old.mark ≡ 0 }
    ensures read { OnOk result ((before : List Action) (c : Course) (bytes : List ℕ) (lacks : Bool) → first ≡ slice_get bytes 0 → CourseStands S.stands before core.old out.old c →
        CourseStands S.stands before core.new out.new
        (server.control_read (record { from = from; bytes = bytes; lacks = lacks }) draw.now op (opened_packet opened.now) c (control_of op opened.now.plain.now))) }
    ensures kept { OnErr result ((before : List Action) (c : Course) → CourseStands S.stands before core.old out.old c →
        CourseStands S.stands before core.new out.new c) }
    ensures sound { MatchResult result (λ _. IsSound S.goes_on S.count S.since core.new) (λ _. IsSoundAhead S.goes_on S.count S.since core.new) }
    ensures still { OnErr result (StaysTold S.since core.old core.new) }
    ensures outbox { OnErr result (Holds out.new out.old.effects out.old.staged) }
    ensures lacking { OnErr result ((before : List Action) (c : Course) (bytes : List ℕ) (lacks : Bool) → first ≡ slice_get bytes 0 → CourseStands S.stands before core.old out.old c → c.effects ≡ [] →
        is_refusal (outs (server.control_read (record { from = from; bytes = bytes; lacks = lacks }) draw.now op (opened_packet opened.now) c (control_of op opened.now.plain.now))) ≡ false) }
{
    a_core_ahead_is_sound::<S>();
    match read_control(opened.plain, op) {
        Err(kind) => {
            core.report(Note::Malformed { kind, first }, out);
            Ok(())
        }
        Ok(view) => find_client(core, alloc, from, draw, op, kind, opened, &view, out),
    }
}

fn first_of(datagram: &[u8]) -> Option<u8>
    ensures { result ≡ server.first_of datagram.now }
{
    datagram.first().copied()
}

// The plain text of a datagram that was unwrapped where it lies.
fn plain_of(datagram: &[u8]) -> &[u8]
    ensures plain { result.now ≡ drop 49 datagram.now }
    ensures short { length result.now ≤ length datagram.now }
{
    if datagram.len() < OVERHEAD {
        return &[];
    }
    &datagram[OVERHEAD..]
}

// The datagram is unwrapped where it lies, or reported where no client has wrapped it.
fn unwrap_datagram<S: ClientSession + Drop, W: Wrap>(
    core: &mut ServerCore<S>,
    alloc: Global,
    from: Addr,
    draw: &Draw,
    op: Opcode,
    kind: &Kind,
    wrap: &W,
    datagram: &mut [u8],
    out: &mut Outbox,
) -> Result<(), NoMemory>
    requires wire { kind.now ≡ Datagram from datagram.old }
    requires counted { 1 ≤ core.old.events }
    requires few { core.old.events ≤ 2 ^ 48 }
    requires sound { IsSoundAhead S.goes_on S.count S.since core.old }
    requires room { HasRoom out.old 1 0 }
    requires alone { out.old.staged ≡ [] }
    requires mark { core.old.mark ≡ 0 }
    ensures unwrapped { OnOk result ((before : List Action) (c : Course) (lacks : Bool) → CourseStands S.stands before core.old out.old c →
        CourseStands S.stands before core.new out.new
        (server.control_unwrapped (record { from = from; bytes = datagram.old; lacks = lacks }) draw.now op c (unwrapping (W.unwrapped wrap.now) datagram.old))) }
    ensures kept { OnErr result ((before : List Action) (c : Course) → CourseStands S.stands before core.old out.old c →
        CourseStands S.stands before core.new out.new c) }
    ensures sound { MatchResult result (λ _. IsSound S.goes_on S.count S.since core.new) (λ _. IsSoundAhead S.goes_on S.count S.since core.new) }
    ensures still { OnErr result (StaysTold S.since core.old core.new) }
    ensures outbox { OnErr result (Holds out.new out.old.effects out.old.staged) }
    ensures lacking { OnErr result ((before : List Action) (c : Course) (lacks : Bool) → CourseStands S.stands before core.old out.old c → c.effects ≡ [] →
        is_refusal (outs (server.control_unwrapped (record { from = from; bytes = datagram.old; lacks = lacks }) draw.now op c (unwrapping (W.unwrapped wrap.now) datagram.old))) ≡ false) }
{
    a_core_ahead_is_sound::<S>();
    let first = first_of(datagram);
    match wrap.unwrap_in_place(datagram) {
        Err(_) => {
            core.report(Note::NotWrapped, out);
            Ok(())
        }
        Ok(header) => {
            let opened = Opened {
                first: header.first,
                sid: header.sid,
                id: header.id,
                time: header.time,
                plain: plain_of(datagram),
            };
            read_text(core, alloc, from, draw, op, kind, first, &opened, out)
        }
    }
}

/// Takes a control packet of this opcode, which came in a datagram that is unwrapped where it lies. Refused
/// are, in this order, a packet that no client has wrapped, one whose plain text is malformed, one of no client
/// that admits none, one whose wrap is replayed, and one that no key session takes. The kind is that of the
/// event, and the events count it already. After want of memory nothing has changed but the datagram.
pub fn control_arrived<S: ClientSession + Drop>(
    core: &mut ServerCore<S>,
    alloc: Global,
    from: Addr,
    draw: &Draw,
    op: Opcode,
    kind: &Kind,
    datagram: &mut [u8],
    out: &mut Outbox,
) -> Result<(), NoMemory>
    requires wire { kind.now ≡ Datagram from datagram.old }
    requires counted { 1 ≤ core.old.events }
    requires few { core.old.events ≤ 2 ^ 48 }
    requires sound { IsSoundAhead S.goes_on S.count S.since core.old }
    requires room { HasRoom out.old 1 0 }
    requires alone { out.old.staged ≡ [] }
    requires mark { core.old.mark ≡ 0 }
    ensures arrived { OnOk result ((before : List Action) (c : Course) (lacks : Bool) → CourseStands S.stands before core.old out.old c →
        CourseStands S.stands before core.new out.new
        (server.control_arrived (record { from = from; bytes = datagram.old; lacks = lacks }) draw.now op c)) }
    ensures kept { OnErr result ((before : List Action) (c : Course) → CourseStands S.stands before core.old out.old c →
        CourseStands S.stands before core.new out.new c) }
    ensures sound { MatchResult result (λ _. IsSound S.goes_on S.count S.since core.new) (λ _. IsSoundAhead S.goes_on S.count S.since core.new) }
    ensures still { OnErr result (StaysTold S.since core.old core.new) }
    ensures outbox { OnErr result (Holds out.new out.old.effects out.old.staged) }
    ensures lacking { OnErr result ((before : List Action) (c : Course) (lacks : Bool) → CourseStands S.stands before core.old out.old c → c.effects ≡ [] →
        is_refusal (outs (server.control_arrived (record { from = from; bytes = datagram.old; lacks = lacks }) draw.now op c)) ≡ false) }
{
    let wrapper = Wrapper::new(&core.key, Role::Server);
    unwrap_datagram(core, alloc, from, draw, op, kind, &wrapper, datagram, out)
}
