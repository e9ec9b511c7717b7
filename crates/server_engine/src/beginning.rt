//! A client whose file is known makes its key exchange.

ghost use Rattle.std.specs.Prelude.{◌≡◌, ◌<◌, ◌≤◌, List, length, Some};
ghost use Rattle.vpn_links.specs.Actions.{Action, Contents};
ghost use Rattle.client_table.specs.Changes.{place_of};
ghost use Rattle.client_table.specs.Tables.{entries_of};
ghost use Rattle.peer_table.specs.Outboxes.{HasRoom, Uses};
ghost use Rattle.server_table.specs.Courses.{Course};
ghost use Rattle.server_table.specs.Engine.{file_is};
ghost use Rattle.server_table.specs.Lookups.{client_here};
ghost use Rattle.server_table.specs.Table.{Client, Known};
ghost use Rattle.server_state.specs.Core.{CourseStands, IsSound};
ghost use Rattle.server_engine.specs.Calls.{MayExchangeNow, StaysReady};
ghost use Rattle.server_engine.specs.Rests.{HasBegun, HasMade};
ghost use Rattle.server_engine.specs.internal.Asked.{is_known};

use crate::asking::set_file;
use crate::exchanging::exchange_keys;
use ccd_files::Ccd;
use peer_table::ClientSession;
use server_state::{ClientFile, ServerCore};
use vpn_base::Draw;
use vpn_links::Outbox;

fn is_known(file: &ClientFile) -> bool
    ensures { result ≡ is_known file.now }
{
    match file {
        ClientFile::Unasked => false,
        ClientFile::AwaitsOwn => false,
        ClientFile::AwaitsDefault => false,
        ClientFile::Known(_) => true,
    }
}

/// The file of the client whose turn it is, at this place, is known now. It takes no memory.
pub fn know_file<S: ClientSession>(core: &mut ServerCore<S>, i: usize, file: Ccd)
    requires place { place_of core.old.turn.0 (entries_of core.old.clients) ≡ Some i }
    requires within { i < length (entries_of core.old.clients) }
    ensures known { (before : List Action) (out : Contents) (c : Course) → CourseStands S.stands before core.old out c →
        CourseStands S.stands before core.new out (file_is core.old.turn.0 (Known file) c) }
    ensures sound { IsSound S.goes_on S.count S.since core.old → IsSound S.goes_on S.count S.since core.new }
    ensures ready { StaysReady S.may_exchange core.old core.new }
    ensures turn_stays { core.new.turn ≡ core.old.turn }
    ensures mark_stays { core.new.mark ≡ core.old.mark }
    ensures only { core.new ≡ record core.old { clients = core.new.clients } }
{
    set_file(core, i, ClientFile::Known(file));
}

/// The client whose turn it is, at this place, makes its key exchange, where its file is known, and ends where
/// its session says so. The answer is whether its file is known. It takes no memory.
pub fn begin_exchange<S: ClientSession + Drop>(
    core: &mut ServerCore<S>,
    i: usize,
    draw: &Draw,
    out: &mut Outbox,
) -> bool
    requires room { HasRoom out.old 7 132 }
    requires ready { MayExchangeNow S.may_exchange core.old i }
    requires sound { IsSound S.goes_on S.count S.since core.old }
    ensures begun { (before : List Action) (c : Course) → CourseStands S.stands before core.old out.old c →
        HasBegun S.stands before core.new out.new draw.now core.old.turn.0 c result }
    ensures made { (before : List Action) (c : Course) (x : Client) → CourseStands S.stands before core.old out.old c → client_here c.table core.old.turn.0 ≡ Some x →
        HasMade S.stands before core.new out.new draw.now core.old.turn.0 x c result }
    ensures sound { IsSound S.goes_on S.count S.since core.new }
    ensures uses { Uses out.old out.new 7 132 }
    ensures turn_stays { core.new.turn ≡ core.old.turn }
    ensures mark_stays { core.new.mark ≡ core.old.mark }
    ensures held_stays { core.new.held ≡ core.old.held }
    ensures room_stays { core.old.routes.spare_rows ≤ core.new.routes.spare_rows }
{
    server_state::places_tell_of_clients::<S>();
    if !is_known(&core.clients.look_at(i).file) {
        return false;
    }
    exchange_keys(core, i, draw, out);
    true
}
