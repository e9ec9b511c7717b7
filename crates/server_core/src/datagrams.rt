//! Datagrams of the line.

ghost use Rattle.std.specs.Prelude.{◌≡◌, ◌≤◌, ◌^◌, [], Bool, List, length, slice_get, false, IfOk, OnOk, OnErr, MatchResult};
ghost use Rattle.vpn_links.specs.Actions.{Action, Holds};
ghost use Rattle.vpn_links.specs.declared.events.Kind.TheVariants.{Datagram};
ghost use Rattle.opcode_codec.specs.Packet.{packet_of};
ghost use Rattle.peer_table.specs.Outboxes.{HasRoom};
ghost use Rattle.server_table.specs.ControlDatagrams as server;
ghost use Rattle.server_table.specs.Courses.{Course, outs};
ghost use Rattle.server_table.specs.Runs.{is_free_packet, is_refusal};
ghost use Rattle.server_table.specs.Step.{datagram_as};
ghost use Rattle.server_state.specs.Core.{CourseStands, IsSound, IsSoundAhead, StaysTold};

use opcode_codec::{Opcode, Packet, read_packet};
use peer_table::ClientSession;
use server_control::control_arrived;
use server_data::{copy_in, data_came};
use server_state::{ServerCore, a_core_ahead_is_sound};
use std::alloc::Global;
use vpn_base::{Addr, Draw, NoMemory};
use vpn_links::{Kind, Note, Outbox};

// The longest datagram, in bytes.
pub(crate) const LONGEST: usize = 65_536;

// A control packet is unwrapped in the buffer.
fn control_came<S: ClientSession + Drop>(
    core: &mut ServerCore<S>,
    alloc: Global,
    from: Addr,
    bytes: &[u8],
    kind: &Kind,
    op: Opcode,
    draw: &Draw,
    buffer: &mut [u8],
    out: &mut Outbox,
) -> Result<(), NoMemory>
    requires kind { kind.now ≡ Datagram from bytes.now }
    requires fits { length bytes.now ≤ length buffer.old }
    requires counted { 1 ≤ core.old.events }
    requires few { core.old.events ≤ 2 ^ 48 }
    requires sound { IsSoundAhead S.goes_on S.count S.since core.old }
    requires room { HasRoom out.old 1 0 }
    requires alone { out.old.staged ≡ [] }
    requires mark { core.old.mark ≡ 0 }
    ensures came { OnOk result ((before : List Action) (c : Course) (lacks : Bool) → CourseStands S.stands before core.old out.old c →
        CourseStands S.stands before core.new out.new (server.control_arrived (record { from = from; bytes = bytes.now; lacks = lacks }) draw.now op c)) }
    ensures kept { OnErr result ((before : List Action) (c : Course) → CourseStands S.stands before core.old out.old c →
        CourseStands S.stands before core.new out.new c) }
    ensures sound { MatchResult result (λ _. IsSound S.goes_on S.count S.since core.new) (λ _. IsSoundAhead S.goes_on S.count S.since core.new) }
    ensures still { OnErr result (StaysTold S.since core.old core.new) }
    ensures outbox { OnErr result (Holds out.new out.old.effects out.old.staged) }
    ensures lacking { OnErr result ((before : List Action) (c : Course) (lacks : Bool) → CourseStands S.stands before core.old out.old c → c.effects ≡ [] →
        is_refusal (outs (server.control_arrived (record { from = from; bytes = bytes.now; lacks = lacks }) draw.now op c)) ≡ false) }
    ensures length { length buffer.new ≡ length buffer.old }
{
    copy_in(bytes, buffer);
    control_arrived(
        core,
        alloc,
        from,
        draw,
        op,
        kind,
        &mut buffer[..bytes.len()],
        out,
    )
}

fn first_of(datagram: &[u8]) -> Option<u8>
    ensures { result ≡ server.first_of datagram.now }
{
    datagram.first().copied()
}

/// A datagram has come: a control packet is unwrapped and a data packet opened in the buffer, which has room for
/// each, and any other is reported. The answer is whether there was no memory to learn a host of it. After want of
/// memory nothing has changed.
pub(crate) fn datagram_came<S: ClientSession + Drop>(
    core: &mut ServerCore<S>,
    alloc: Global,
    from: Addr,
    bytes: &[u8],
    kind: &Kind,
    draw: &Draw,
    buffer: &mut [u8],
    out: &mut Outbox,
) -> Result<bool, NoMemory>
    requires kind { kind.now ≡ Datagram from bytes.now }
    requires short { length bytes.now ≤ 65536 }
    requires buffer { length buffer.old ≡ 65536 }
    requires counted { 1 ≤ core.old.events }
    requires few { core.old.events ≤ 2 ^ 48 }
    requires sound { IsSoundAhead S.goes_on S.count S.since core.old }
    requires room { HasRoom out.old 4 4096 }
    requires alone { out.old.staged ≡ [] }
    requires mark { core.old.mark ≡ 0 }
    ensures came { IfOk result (λ lacks. (before : List Action) (c : Course) → CourseStands S.stands before core.old out.old c →
        CourseStands S.stands before core.new out.new (datagram_as (record { from = from; bytes = bytes.now; lacks = lacks }) draw.now c (packet_of bytes.now))) }
    ensures kept { OnErr result ((before : List Action) (c : Course) → CourseStands S.stands before core.old out.old c →
        CourseStands S.stands before core.new out.new c) }
    ensures sound { MatchResult result (λ _. IsSound S.goes_on S.count S.since core.new) (λ _. IsSoundAhead S.goes_on S.count S.since core.new) }
    ensures still { OnErr result (StaysTold S.since core.old core.new) }
    ensures outbox { OnErr result (Holds out.new out.old.effects out.old.staged) }
    ensures lacking { OnErr result ((before : List Action) (c : Course) (lacks : Bool) → CourseStands S.stands before core.old out.old c → c.effects ≡ [] →
        (is_free_packet (packet_of bytes.now) ≡ false)
        × (is_refusal (outs (datagram_as (record { from = from; bytes = bytes.now; lacks = lacks }) draw.now c (packet_of bytes.now))) ≡ false)) }
    ensures length { length buffer.new ≡ 65536 }
{
    a_core_ahead_is_sound::<S>();
    match read_packet(bytes) {
        Err(kind) => {
            let first = first_of(bytes);
            core.report(Note::Malformed { kind, first }, out);
            Ok(false)
        }
        Ok(Packet::Wrapped { op, .. }) => {
            match control_came(core, alloc, from, bytes, kind, op, draw, buffer, out) {
                Ok(()) => Ok(false),
                Err(NoMemory) => Err(NoMemory),
            }
        }
        Ok(Packet::Inner(view)) => Ok(data_came(core, from, view.peer, bytes, buffer, out)),
    }
}
