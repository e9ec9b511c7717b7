//! What a key session carries of its own.

ghost use Rattle.std.specs.Prelude.{◌≡◌, false};
ghost use Rattle.peer_table.specs.KeySessions.{Session, Stage, has_keys};

use vpn_base::Conn;
use vpn_links::ControlText;

/// All that a key session carries beside its number, its beginning and its stage: its control text, the
/// plain text of the other end, and what its keys were used for.
pub trait SessionText: ControlText + Drop {
    /// The key sessions for which it stands.
    ghost stands_for: { Self → Session → Type 0 };

    /// It stands for the session at any other stage too, as long as the session has no keys: nothing was
    /// sealed or opened then.
    ghost restaged: { (text : Self) (s : Session) (stage : Stage) → has_keys s ≡ false →
        stands_for text s → stands_for text (record s { stage = stage }) };

    /// Its control text stands for a history on the engine connection of the session's link.
    ghost on_link: { (text : Self) (s : Session) → stands_for text s →
        (h : Self.ControlText.History) × Self.ControlText.stands text h × (Self.ControlText.conn_of h ≡ s.link.conn) };
}

// The engine connection of a text.
pub(crate) fn conn_of<T: SessionText>(text: &T) -> Conn
    ensures { (s : Session) → T.stands_for text.now s → result ≡ s.link.conn }
{
    text.conn()
}
