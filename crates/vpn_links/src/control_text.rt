//! The control text of a key session.

ghost use Rattle.std.specs.Prelude.{◌≡◌, ℕ, List, length};

use vpn_base::Conn;

/// The two control texts of a key session: what is read of the other end and what is written to it.
pub trait ControlText {
    ghost use Rattle.vpn_base.specs.declared.names.Conn.{Conn};

    /// Everything that happened on the session.
    ghost History: { Type 0 };

    /// The histories for which it stands.
    ghost stands: { Self → History → Type 0 };

    /// The engine connection of a history.
    ghost conn_of: { History → Conn };

    /// The payloads of the other end that were read so far, that of packet 0 included.
    ghost read_of: { History → List (List ℕ) };

    /// The pieces that were offered so far, piece 0 included.
    ghost written_of: { History → List (List ℕ) };

    /// The engine connection that the texts belong to.
    fn conn(&self) -> Conn
        ensures { (h : History) → stands self.now h → result ≡ conn_of h };

    /// How many payloads of the other end were read, that of packet 0 included.
    fn read_count(&self) -> u64
        ensures { (h : History) → stands self.now h → result ≡ length (read_of h) };
}
