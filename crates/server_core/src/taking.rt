//! A core takes an event, or has not changed.

ghost use Rattle.std.specs.Prelude.{◌≡◌, ◌≤◌, ◌^◌, [], List, length, OnOk, OnErr};
ghost use Rattle.vpn_links.specs.Actions as links;
ghost use Rattle.vpn_links.specs.Actions.{Action, Contents, Holds};
ghost use Rattle.vpn_links.specs.Rounds.{IsOfLine};
ghost use Rattle.vpn_links.specs.Steps.{LacksAll, Stepped};
ghost use Rattle.vpn_links.specs.declared.events.Event.{Event};
ghost use Rattle.server_table.specs.Runs.{MayLack};
ghost use Rattle.server_table.specs.Step.{course_begun};
ghost use Rattle.server_table.specs.Table.{Table};
ghost use Rattle.server_state.specs.Core.{CoreStands, CourseStands, IsSound, IsSoundAhead, NoneIsLater};
ghost use Rattle.server_core.specs.Steps.{next_table, told_of};

use crate::beginning::{begin, is_over};
use crate::dispatch::came;
use peer_table::ClientSession;
use server_state::ServerCore;
use std::alloc::Global;
use vpn_base::{Cid, Moment, NoMemory, Place};
use vpn_links::{Event, Outbox};

// The room of an outbox that was made, which events that take no memory need.
const EFFECTS: usize = 4;

const BYTES: usize = 4_096;

// A step that found no memory is taken back: the event does not count.
fn take_back<S: ClientSession>(core: &mut ServerCore<S>, moment: Moment, last_taken: Option<Place>)
    ensures back { (before : List Action) (out : Contents) (t : Table) (event : Event) → CourseStands S.stands before core.old out (course_begun t event) → moment.0 ≡ t.moment →
        last_taken ≡ t.last_taken → CoreStands S.stands core.new t }
    ensures sound { IsSoundAhead S.goes_on S.count S.since core.old → NoneIsLater S.since moment.0 core.old → moment.0 ≤ 2 ^ 52 → IsSound S.goes_on S.count S.since core.new }
{
    core.moment = moment;
    core.events = core.events.saturating_sub(1);
    core.last_taken = last_taken;
}

/// Takes an event, and adds to the outbox what it does. After want of memory core and outbox are as before, and
/// the event is one that may lack it.
pub(crate) fn take<S: ClientSession + Drop>(
    core: &mut ServerCore<S>,
    alloc: Global,
    event: &Event,
    buffer: &mut [u8],
    out: &mut Outbox,
) -> Result<(), NoMemory>
    requires line { IsOfLine event.now.kind }
    requires alone { out.old.staged ≡ [] }
    requires buffer { length buffer.old ≡ 65536 }
    requires sound { IsSound S.goes_on S.count S.since core.old }
    ensures stepped { OnOk result ((t : Table) → CoreStands S.stands core.old t →
        Stepped next_table told_of MayLack (CoreStands S.stands core.new) t event.entry.now out.old.effects out.new) }
    ensures unchanged { OnErr result ((t : Table) → CoreStands S.stands core.old t → CoreStands S.stands core.new t) }
    ensures err { OnErr result (Holds out.new out.old.effects []) }
    ensures lacking { OnErr result (links.HasRoom out.old → (t : Table) → CoreStands S.stands core.old t → MayLack t event.entry.now LacksAll) }
    ensures sound { IsSound S.goes_on S.count S.since core.new }
    ensures length { length buffer.new ≡ 65536 }
{
    if is_over(core) {
        return Ok(());
    }
    match out.reserve(EFFECTS, BYTES) {
        Ok(()) => {}
        Err(NoMemory) => return Err(NoMemory),
    }
    let (moment, last_taken) = (core.moment, core.last_taken);
    begin(core, event.now, Cid(0));
    match came(core, alloc, &event.draw, &event.kind, buffer, out) {
        Ok(_) => {
            out.settle();
            Ok(())
        }
        Err(NoMemory) => {
            take_back(core, moment, last_taken);
            Err(NoMemory)
        }
    }
}
