//! Lines of the management interface.

ghost use Rattle.std.specs.Prelude.{◌≡◌, ◌++◌, ◌∷◌, [], codes, List};
ghost use Rattle.vpn_links.specs.Actions.{Action, Holds, Say};
ghost use Rattle.peer_table.specs.Outboxes.{HasRoom, Uses};
ghost use Rattle.server_table.specs.Courses.{Course};
ghost use Rattle.server_table.specs.Step as definitions;
ghost use Rattle.server_state.specs.Core.{CourseStands};

use peer_table::ClientSession;
use server_state::{ServerCore, put};
use vpn_links::{Effect, Outbox};

// Says that a line is too long.
fn say_too_long(out: &mut Outbox)
    requires room { HasRoom out.old 1 23 }
    ensures said { Holds out.new (out.old.effects ++ Say (codes "ERROR: command too long") ∷ []) out.old.staged }
    ensures uses { Uses out.old out.new 1 23 }
{
    put(
        out,
        &Effect::Say {
            bytes: b"ERROR: command too long",
        },
    );
}

// Says that a line is no command.
fn say_unknown(out: &mut Outbox)
    requires room { HasRoom out.old 1 23 }
    ensures said { Holds out.new (out.old.effects ++ Say (codes "ERROR: unknown command") ∷ []) out.old.staged }
    ensures uses { Uses out.old out.new 1 23 }
{
    put(
        out,
        &Effect::Say {
            bytes: b"ERROR: unknown command",
        },
    );
}

/// A line of the management interface has come: it is answered that it is too long or no command, and an empty
/// one is not answered. It takes no memory.
pub fn line_came<S: ClientSession>(core: &ServerCore<S>, line: &[u8], out: &mut Outbox)
    requires room { HasRoom out.old 1 23 }
    ensures came { (before : List Action) (c : Course) → CourseStands S.stands before core.now out.old c →
        CourseStands S.stands before core.now out.new (definitions.line_came line.now c) }
    ensures uses { Uses out.old out.new 1 23 }
{
    if line.is_empty() {
        return;
    }
    if 256 < line.len() {
        say_too_long(out);
    } else {
        say_unknown(out);
    }
}
