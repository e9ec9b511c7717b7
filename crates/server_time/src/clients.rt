//! Time passes for all clients.

ghost use Rattle.std.specs.Prelude.{◌≡◌, ◌+◌, ◌-◌, ◌≤◌, ◌<◌, ◌^◌, [], List, IfSome, IfNone, MatchResult, OnOk, OnErr, length};
ghost use Rattle.vpn_links.specs.Actions.{Action, Holds};
ghost use Rattle.client_table.specs.Tables.{admitted_by};
ghost use Rattle.server_table.specs.Courses.{Course};
ghost use Rattle.server_table.specs.Time as definitions;
ghost use Rattle.server_table.specs.Time.{clients_ticked};
ghost use Rattle.server_state.specs.Core.{CourseStands, IsSound, IsSoundAhead, StaysTold};
ghost use Rattle.server_time.specs.Others.{KeepsRest};
ghost use Rattle.server_time.specs.internal.Walks.{MayGoOn, PassesTo, next_ticked};

use crate::memory::take_memory;
use crate::turn::client_ticked;
use peer_table::ClientSession;
use server_state::{ClientState, ServerCore};
use vpn_base::{Cid, NoMemory};
use vpn_links::Outbox;

// Time passes for the next client from this number on, if there is one.
fn tick_next<S: ClientSession + Drop>(
    core: &mut ServerCore<S>,
    from: Cid,
    out: &mut Outbox,
) -> Option<Cid>
    requires ready { MayGoOn S.is_ready S.goes_on S.count S.since from.0 core.old out.old }
    ensures ticked { (before : List Action) (c : Course) → CourseStands S.stands before core.old out.old c →
        CourseStands S.stands before core.new out.new (next_ticked result c) }
    ensures passes { (before : List Action) (c : Course) → CourseStands S.stands before core.old out.old c → PassesTo from.0 result c }
    ensures ready { IfSome result (λ cid. MayGoOn S.is_ready S.goes_on S.count S.since (cid.0 + 1) core.new out.new) }
    ensures later { IfSome result (λ cid. from.0 ≤ cid.0) }
    ensures admitted { IfSome result (λ cid. cid.0 < admitted_by core.old.clients) }
    ensures admitted_stays { admitted_by core.new.clients ≡ admitted_by core.old.clients }
    ensures sound { IsSound S.goes_on S.count S.since core.new }
    ensures rest { KeepsRest core.old core.new }
{
    server_state::places_tell_of_clients::<S>();
    match core.clients.next_from(from) {
        None => None,
        Some(cid) => {
            client_ticked(core, cid, out);
            Some(cid)
        }
    }
}

// Time passes for all clients, in order of number.
fn tick_clients<S: ClientSession + Drop>(core: &mut ServerCore<S>, out: &mut Outbox)
    requires ready { MayGoOn S.is_ready S.goes_on S.count S.since 0 core.old out.old }
    ensures ticked { (before : List Action) (c : Course) → CourseStands S.stands before core.old out.old c →
        CourseStands S.stands before core.new out.new (clients_ticked (length c.table.clients) 0 c) }
    ensures sound { IsSound S.goes_on S.count S.since core.new }
    ensures rest { KeepsRest core.old core.new }
{
    let mut from = Cid(0);
    while let Some(cid) = tick_next(core, from, out) {
        from = Cid(cid.0 + 1);
    }
}

/// Time passes for all clients that are here, in order of number. Nothing is told of byte counts, since their
/// interval is 0. All memory is taken first: after want of it the core stands for the same, and the outbox holds
/// the same.
pub fn tick<S: ClientSession + Drop>(
    core: &mut ServerCore<S>,
    out: &mut Outbox,
) -> Result<(), NoMemory>
    requires sound { IsSoundAhead S.goes_on S.count S.since core.old }
    requires counted { 1 ≤ core.old.events }
    requires few { core.old.events ≤ 2 ^ 48 }
    requires alone { out.old.staged ≡ [] }
    ensures ticked { OnOk result ((before : List Action) (c : Course) → CourseStands S.stands before core.old out.old c →
        CourseStands S.stands before core.new out.new (definitions.tick c)) }
    ensures kept { OnErr result ((before : List Action) (c : Course) → CourseStands S.stands before core.old out.old c →
        CourseStands S.stands before core.new out.new c) }
    ensures sound { MatchResult result (λ _. IsSound S.goes_on S.count S.since core.new) (λ _. IsSoundAhead S.goes_on S.count S.since core.new) }
    ensures rest { KeepsRest core.old core.new }
    ensures still { OnErr result (StaysTold S.since core.old core.new) }
    ensures outbox { OnErr result (Holds out.new out.old.effects out.old.staged) }
{
    client_table::no_more_are_here_than_may_be::<ClientState<S>>();
    match take_memory(core, out) {
        Ok(()) => {
            tick_clients(core, out);
            Ok(())
        }
        Err(NoMemory) => Err(NoMemory),
    }
}
