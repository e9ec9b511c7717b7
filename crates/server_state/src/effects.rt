//! Effects that a step puts into its outbox.

ghost use Rattle.std.specs.Prelude.{◌≡◌, ◌∷◌, ◌++◌, [], List};
ghost use Rattle.vpn_links.specs.Actions.{Action, Holds, IsPlain, action, carried};
ghost use Rattle.peer_table.specs.Outboxes.{HasRoom, Uses};
ghost use Rattle.server_table.specs.Courses.{Course, reported};
ghost use Rattle.server_state.specs.Core.{CourseStands};

use crate::state::ServerCore;
use peer_table::ClientSession;
use vpn_links::{Effect, Note, Outbox};

/// Puts an effect behind those that are there, where there is room for it.
pub fn put(out: &mut Outbox, effect: &Effect<'_>)
    requires plain { IsPlain effect.now }
    requires room { HasRoom out.old 1 (carried (action effect.now)) }
    ensures put { Holds out.new (out.old.effects ++ action effect.now ∷ []) out.old.staged }
    ensures uses { Uses out.old out.new 1 (carried (action effect.now)) }
{
    let added = out.add(effect);
    prove!(added.is_ok());
    let _ = added;
}

impl<S: ClientSession> ServerCore<S> {
    /// Reports a note, where there is room for it.
    #[tactic(auto, using(crate::proofs::Courses::did_stands))]
    pub fn report(&self, note: Note, out: &mut Outbox)
        requires room { HasRoom out.old 1 0 }
        ensures reported { (before : List Action) (c : Course) → CourseStands S.stands before self.now out.old c →
            CourseStands S.stands before self.now out.new (reported note c) }
        ensures uses { Uses out.old out.new 1 0 }
    {
        put(out, &Effect::Report(note));
    }
}
