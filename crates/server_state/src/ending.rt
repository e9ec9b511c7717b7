//! A client ends.

ghost use Rattle.std.specs.Prelude.{◌≡◌, ◌≤◌, ◌==◌, ◌++◌, List, true, false};
ghost use Rattle.vpn_links.specs.Actions.{Action, Holds};
ghost use Rattle.client_table.specs.Changes.{without};
ghost use Rattle.client_table.specs.Tables.{Has, admitted_by, entries_of, most_of};
ghost use Rattle.peer_table.specs.Outboxes.{HasRoom, Uses, actions_of};
ghost use Rattle.peer_table.specs.Peer.{Peer};
ghost use Rattle.peer_table.specs.Time.{closings};
ghost use Rattle.server_table.specs.Courses.{Course};
ghost use Rattle.server_table.specs.Endings.{ended, ending_effects};
ghost use Rattle.server_table.specs.Table.{Client};
ghost use Rattle.server_state.specs.Core.{CourseStands, IsSound, StateStands};
ghost use Rattle.server_state.specs.Endings.{GivesBack, IsSoundBut, left_out};

use crate::client::ClientState;
use crate::effects::put;
use crate::state::ServerCore;
use address_pool::Pool;
use peer_table::ClientSession;
use server_texts::say_disconnect;
use vpn_base::{Cause, Cid, Ip4, Moment};
use vpn_links::{Effect, Note, Outbox};

// Closes the engine connections of a client's open key sessions.
fn close_sessions<S: ClientSession>(session: &S, out: &mut Outbox)
    requires { HasRoom out.old 3 0 }
    ensures closed { (p : Peer) → S.stands session.now p →
        Holds out.new (out.old.effects ++ actions_of p.role (closings p.sessions)) out.old.staged }
    ensures uses { Uses out.old out.new 3 0 }
{
    let closed = session.close_all(out);
    prove!(closed.is_ok());
    let _ = closed;
}

// What is done at the end of a client: a note, a line for a manager where it was established, and each open engine
// connection closed.

fn say_ending<S: ClientSession>(cid: Cid, cause: Cause, client: &ClientState<S>, out: &mut Outbox)
    requires { HasRoom out.old 5 39 }
    ensures said { (x : Client) → StateStands S.stands client.now x →
        Holds out.new (out.old.effects ++ ending_effects cid.0 cause x) out.old.staged }
    ensures uses { Uses out.old out.new 5 39 }
{
    put(out, &Effect::Report(Note::Ended { cid, cause }));
    say_disconnect(cid, client.established.is_some(), out);
    close_sessions(&client.session, out);
}

// Leaves out the control datagrams from this place on.
fn cut_staged(out: &mut Outbox, mark: usize)
    ensures cut { Holds out.new out.old.effects (left_out true mark out.old.staged) }
    ensures uses { Uses out.old out.new 0 0 }
{
    if mark < out.staged() {
        let effects = out.count();
        out.cut(effects, mark);
    }
}

// Gives back the address of a client in the tunnel, if it has one.
fn give_back(pool: &mut Pool, established: Option<(Ip4, Moment)>)
    ensures { GivesBack established pool.old pool.new }
{
    match established {
        None => {}
        Some((address, _)) => pool.give_back(address),
    }
}

impl<S: ClientSession + Drop> ServerCore<S> {
    // Leaves out the control datagrams that are staged for a client, if it is its turn.
    fn leave_out(&self, cid: Cid, out: &mut Outbox)
        ensures left_out { Holds out.new out.old.effects (left_out (cid.0 == self.now.turn.0) self.now.mark out.old.staged) }
        ensures uses { Uses out.old out.new 0 0 }
    {
        if cid.0 == self.turn.0 {
            cut_staged(out, self.mark);
        }
    }

    /// Ends the client of this number, if it is here: that is reported and told, its engine connections are
    /// closed, and it gives up its rows, its address and its peer id. What was staged for it in this step is not
    /// sent; where another client's turn is on, no datagram of an earlier one may be staged. It takes no memory.
    pub fn end(&mut self, cid: Cid, cause: Cause, out: &mut Outbox)
        requires room { HasRoom out.old 5 39 }
        requires turn { (cid.0 == self.old.turn.0 ≡ false) → self.old.mark ≡ 0 }
        ensures ended { (before : List Action) (c : Course) → CourseStands S.stands before self.old out.old c →
            CourseStands S.stands before self.new out.new (ended cid.0 cause c) }
        ensures sound { IsSoundBut S.goes_on S.count S.since cid.0 self.old → IsSound S.goes_on S.count S.since self.new }
        ensures uses { Uses out.old out.new 5 39 }
        ensures turn_stays { self.new.turn ≡ self.old.turn }
        ensures mark_stays { self.new.mark ≡ self.old.mark }
        ensures held_stays { self.new.held ≡ self.old.held }
        ensures room_stays { self.old.routes.spare_rows ≤ self.new.routes.spare_rows }
        ensures gone { Has self.new.clients (without cid.0 (entries_of self.old.clients)) (most_of self.old.clients) (admitted_by self.old.clients) }
        ensures others { self.new ≡ record self.old { clients = self.new.clients; routes = self.new.routes; pool = self.new.pool } }
    {
        let Some(_) = self.clients.place(cid) else {
            return;
        };
        let Some(client) = self.clients.remove(cid) else {
            unreachable!();
        };
        say_ending(cid, cause, &client, out);
        self.leave_out(cid, out);
        self.routes.drop_client(cid);
        give_back(&mut self.pool, client.established);
    }
}
