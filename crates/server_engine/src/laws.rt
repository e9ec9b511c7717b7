//! When the name that an answer of the engine leaves has few enough bytes.

ghost use Rattle.std.specs.Prelude.{◌≡◌, ◌≤◌, ℕ, List, None, Some};
ghost use Rattle.vpn_base.specs.declared.names.Draw.{Draw};
ghost use Rattle.vpn_base.specs.declared.names.Policy.{Policy};
ghost use Rattle.vpn_base.specs.declared.names.Conn.{Conn};
ghost use Rattle.vpn_links.specs.declared.events.Kind.{Kind};
ghost use Rattle.vpn_links.specs.declared.events.Kind.TheVariants.{EngineUp};
ghost use Rattle.peer_table.specs.declared.outcomes.Turn.TheVariants.{Exchange, Going};
ghost use Rattle.peer_table.specs.EngineAnswers.{engine_came, kept_name};
ghost use Rattle.peer_table.specs.Exchange.{exchanged};
ghost use Rattle.peer_table.specs.Peer.{Peer};
ghost use Rattle.server_engine.specs.Files.{NameFits};
ghost use Rattle.server_engine.specs.Rests.{NameFitsFor};

/// A name that is known has as many bytes behind an answer of the engine, and one that an answer gives has at
/// most 64.
pub fn names_fit()
    ensures known { (longest : ℕ) (kind : Kind) (now : ℕ) (p : Peer) → NameFits longest p.name →
        NameFitsFor longest (engine_came kind now p).peer (engine_came kind now p).answer }
    ensures given { (longest : ℕ) (conn : Conn) (name : List ℕ) (now : ℕ) (p : Peer) → 64 ≤ longest → p.name ≡ None →
        NameFitsFor longest (engine_came (EngineUp conn name) now p).peer (engine_came (EngineUp conn name) now p).answer }
{}

/// A name that is known stays. Where none is, an answer that leads to a key exchange has given it, as it is kept,
/// and one that only goes on has changed nothing.
pub fn names_stay()
    ensures known { (kind : Kind) (now : ℕ) (p : Peer) (name : List ℕ) → p.name ≡ Some name → (engine_came kind now p).peer.name ≡ Some name }
    ensures exchanged { (policy : Policy) (peer_id : ℕ) (draw : Draw) (p : Peer) (name : List ℕ) → p.name ≡ Some name →
        (exchanged policy peer_id draw p).peer.name ≡ Some name }
    ensures given { (conn : Conn) (name : List ℕ) (now : ℕ) (p : Peer) → p.name ≡ None → (engine_came (EngineUp conn name) now p).answer ≡ Exchange →
        (engine_came (EngineUp conn name) now p).peer.name ≡ Some (kept_name name) }
    ensures same { (conn : Conn) (name : List ℕ) (now : ℕ) (p : Peer) → p.name ≡ None → (engine_came (EngineUp conn name) now p).answer ≡ Going →
        (engine_came (EngineUp conn name) now p).peer ≡ p }
{}
