//! How much plain text is unread.

ghost use Rattle.std.specs.Prelude.{◌≡◌, ◌+◌, ◌≤◌, ℕ, length, List, Some, None};
ghost use Rattle.vpn_base.specs.declared.names.Conn.{Conn};
ghost use Rattle.vpn_base.specs.declared.names.Draw.{Draw};
ghost use Rattle.vpn_base.specs.declared.names.Policy.{Policy};
ghost use Rattle.vpn_links.specs.declared.events.Kind.{Kind};
ghost use Rattle.peer_table.specs.EngineAnswers.{engine_came};
ghost use Rattle.peer_table.specs.Exchange.{NothingReadBefore, after_message, all_unread, cipher_of, exchanged, next_message};
ghost use Rattle.peer_table.specs.Peer.{Peer};
ghost use Rattle.server_answers.specs.Texts.{text_in};

/// A message that is passed is read with its NUL; where nothing is unread, or where there are no keys, none
/// waits. A key exchange leaves no more text unread than there was, and an answer of the engine brings no more
/// than it has.
pub fn unread_text_is_read_in_order()
    ensures message { (p : Peer) (m : Conn × List ℕ) → next_message p ≡ Some m →
        all_unread (after_message p).sessions + length m.1 + 1 ≤ all_unread p.sessions }
    ensures nothing { (p : Peer) → all_unread p.sessions ≡ 0 → next_message p ≡ None }
    ensures exchange { (policy : Policy) (peer_id : ℕ) (draw : Draw) (p : Peer) → NothingReadBefore p.sessions →
        all_unread (exchanged policy peer_id draw p).peer.sessions ≤ all_unread p.sessions }
    ensures engine { (kind : Kind) (now : ℕ) (p : Peer) → all_unread (engine_came kind now p).peer.sessions ≤ all_unread p.sessions + text_in kind }
    ensures keyless { (p : Peer) → cipher_of p ≡ None → next_message p ≡ None }
{}
