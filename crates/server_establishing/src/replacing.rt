//! An established client of the same name is replaced.

ghost use Rattle.std.specs.Prelude.{◌≡◌, ◌≤◌, ℕ, List, option_map};
ghost use Rattle.vpn_links.specs.Actions.{Action};
ghost use Rattle.peer_table.specs.Outboxes.{HasRoom, Uses};
ghost use Rattle.server_table.specs.Courses.{Course};
ghost use Rattle.server_table.specs.Establishing.{replaced, replaced_unless};
ghost use Rattle.server_state.specs.Core.{CoreStands, CourseStands, IsSound};

use peer_table::ClientSession;
use server_state::ServerCore;
use vpn_base::{Cause, Cid};
use vpn_links::Outbox;

// Whom a client of this name replaces.
pub(crate) fn replaced_by<S: ClientSession>(core: &ServerCore<S>, name: &[u8]) -> Option<Cid>
    ensures { (n : ℕ) (c : Course) → CoreStands S.stands core.now c.table →
        replaced_unless n name.now c c.table.settings.duplicate ≡ replaced n c (option_map (λ cid. cid.0) result) }
{
    if core.settings.duplicate {
        return None;
    }
    core.established_named(name)
}

/// Ends the established client of this name, if there is one, which this client replaces; several clients may
/// have one name where the settings say so. No datagram of a client may be staged that came before the one
/// whose turn it is. It takes no memory.
pub fn replace<S: ClientSession + Drop>(
    core: &mut ServerCore<S>,
    cid: Cid,
    name: &[u8],
    out: &mut Outbox,
)
    requires room { HasRoom out.old 5 39 }
    requires first { core.old.mark ≡ 0 }
    ensures replaced { (before : List Action) (c : Course) → CourseStands S.stands before core.old out.old c →
        CourseStands S.stands before core.new out.new (replaced_unless cid.0 name.now c c.table.settings.duplicate) }
    ensures sound { IsSound S.goes_on S.count S.since core.old → IsSound S.goes_on S.count S.since core.new }
    ensures uses { Uses out.old out.new 5 39 }
    ensures turn_stays { core.new.turn ≡ core.old.turn }
    ensures mark_stays { core.new.mark ≡ core.old.mark }
    ensures held_stays { core.new.held ≡ core.old.held }
    ensures room_stays { core.old.routes.spare_rows ≤ core.new.routes.spare_rows }
{
    match replaced_by(core, name) {
        None => {}
        Some(other) => core.end(other, Cause::Replaced { by: cid }, out),
    }
}
