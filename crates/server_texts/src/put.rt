//! Effects that are added where there is room for them.

ghost use Rattle.std.specs.Prelude.{◌∷◌, [], ◌++◌};
ghost use Rattle.vpn_links.specs.Actions.{Holds, IsPlain, action, carried};
ghost use Rattle.peer_table.specs.Outboxes.{HasRoom, Uses};

use vpn_links::{Effect, Outbox};

// Adds an effect at the end.
pub(crate) fn put(out: &mut Outbox, e: &Effect<'_>)
    requires plain { IsPlain e.now }
    requires room { HasRoom out.old 1 (carried (action e.now)) }
    ensures added { Holds out.new (out.old.effects ++ action e.now ∷ []) out.old.staged }
    ensures uses { Uses out.old out.new 1 (carried (action e.now)) }
{
    let added = out.add(e);
    prove!(added.is_ok());
    let _ = added;
}
