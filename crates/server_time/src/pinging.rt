//! Pings to clients.

ghost use Rattle.std.specs.Prelude.{◌≡◌, List};
ghost use Rattle.vpn_links.specs.Actions.{Action};
ghost use Rattle.peer_table.specs.Outboxes.{HasRoom, Uses};
ghost use Rattle.server_table.specs.Courses.{Course};
ghost use Rattle.server_table.specs.DataDatagrams as definitions;
ghost use Rattle.server_table.specs.Table.{Table};
ghost use Rattle.server_table.specs.Time.{then_pinged};
ghost use Rattle.server_state.specs.Core.{CoreStands, CourseStands, IsSound};
ghost use Rattle.server_time.specs.Others.{LeavesOthers};
ghost use Rattle.server_time.specs.internal.Pings.{is_due};

use crate::keepalive::ping_is_due;
use peer_table::ClientSession;
use server_state::ServerCore;
use vpn_base::Cid;
use vpn_links::Outbox;

// The payload by which an end says that it is there (OpenVPN 2.6, src/openvpn/ping.c).
fn ping_payload() -> [u8; 16]
    ensures { result ≡ definitions.ping }
{
    [
        42, 24, 123, 243, 100, 30, 180, 203, 7, 237, 45, 10, 152, 31, 199, 72,
    ]
}

// Whether a ping is due to the client of this number.
fn is_due<S: ClientSession>(core: &ServerCore<S>, cid: Cid) -> bool
    ensures due { (t : Table) → CoreStands S.stands core.now t → result ≡ is_due t cid.0 }
{
    server_state::places_tell_of_clients::<S>();
    match core.clients.place(cid) {
        None => false,
        Some(i) => {
            let client = core.clients.look_at(i);
            ping_is_due(
                core.settings.keepalive,
                client.established.is_some(),
                client.sealed_at,
                core.moment,
            )
        }
    }
}

/// Seals a ping to the client of this number, if it is here and one is due. It takes no memory.
#[tactic(auto, using(crate::proofs::Others::others_itself, crate::proofs::Others::others_sealed))]
pub fn ping<S: ClientSession>(core: &mut ServerCore<S>, cid: Cid, out: &mut Outbox)
    requires room { HasRoom out.old 2 1524 }
    requires sound { IsSound S.goes_on S.count S.since core.old }
    ensures pinged { (before : List Action) (c : Course) → CourseStands S.stands before core.old out.old c →
        CourseStands S.stands before core.new out.new (then_pinged cid.0 c) }
    ensures sound { IsSound S.goes_on S.count S.since core.new }
    ensures uses { Uses out.old out.new 2 1524 }
    ensures turn_stays { core.new.turn ≡ core.old.turn }
    ensures others { LeavesOthers cid.0 0 core.old core.new }
{
    if is_due(core, cid) {
        let payload = ping_payload();
        core.seal_to(cid, &payload, out);
    }
}
