//! How a step begins, and how the server stops.

ghost use Rattle.std.specs.Prelude.{◌≡◌, ◌≤◌, ◌+◌, ◌^◌, [], List, false};
ghost use Rattle.vpn_links.specs.Actions.{Action, Contents};
ghost use Rattle.vpn_links.specs.declared.events.Event.{Event};
ghost use Rattle.peer_table.specs.Outboxes.{HasRoom, Uses};
ghost use Rattle.server_table.specs.Courses.{Course};
ghost use Rattle.server_table.specs.Step as definitions;
ghost use Rattle.server_table.specs.Table.{Table};
ghost use Rattle.server_state.specs.Core.{CoreStands, CourseStands, IsSound, IsSoundAhead};

use peer_table::ClientSession;
use server_state::{ServerCore, put};
use vpn_base::{Cid, Moment};
use vpn_links::{Effect, Outbox};

// The latest moment, in milliseconds.
const LATEST: u64 = 1 << 52;

// So many events are taken at most.
const MOST_EVENTS: u64 = 1 << 48;

/// Whether no event is taken any more: the server was stopped, or 2^48 events came.
pub fn is_over<S: ClientSession>(core: &ServerCore<S>) -> bool
    ensures over { (t : Table) → CoreStands S.stands core.now t → result ≡ definitions.is_over t }
    ensures few { result ≡ false → core.now.events + 1 ≤ 2 ^ 48 }
{
    core.is_stopped || MOST_EVENTS <= core.events
}

/// A step begins: the moment is set, the event counted, no datagram has gone anywhere, and it is the turn of the
/// client of this number.
pub fn begin<S: ClientSession>(core: &mut ServerCore<S>, now: Moment, turn: Cid)
    requires { core.old.events + 1 ≤ 2 ^ 48 }
    ensures begun { (before : List Action) (t : Table) (event : Event) (out : Contents) → CoreStands S.stands core.old t → event.now ≡ now →
        out.effects ≡ before → out.staged ≡ [] → CourseStands S.stands before core.new out (definitions.course_begun t event) }
    ensures sound { IsSound S.goes_on S.count S.since core.old → IsSoundAhead S.goes_on S.count S.since core.new }
    ensures events { core.new.events ≡ core.old.events + 1 }
    ensures turn { core.new.turn ≡ turn }
    ensures mark { core.new.mark ≡ 0 }
    ensures clients { core.new.clients ≡ core.old.clients }
{
    core.moment = Moment(core.moment.0.max(now.0).min(LATEST));
    core.events += 1;
    core.last_taken = None;
    core.turn = turn;
    core.mark = 0;
}

/// The server stops. It takes no memory.
pub fn halt<S: ClientSession>(core: &mut ServerCore<S>, out: &mut Outbox)
    requires room { HasRoom out.old 1 0 }
    ensures halted { (before : List Action) (c : Course) → CourseStands S.stands before core.old out.old c →
        CourseStands S.stands before core.new out.new (definitions.halted c) }
    ensures sound { IsSound S.goes_on S.count S.since core.old → IsSound S.goes_on S.count S.since core.new }
    ensures uses { Uses out.old out.new 1 0 }
{
    core.is_stopped = true;
    put(out, &Effect::Stop);
}
