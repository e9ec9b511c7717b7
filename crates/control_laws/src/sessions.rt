//! The law of a client's session about when its keys are renewed.

ghost use Rattle.std.specs.Prelude.{◌≡◌, ℕ, suc, Bool, true, false, length, is_some, Some};
ghost use Rattle.vpn_links.specs.declared.events.Event.{Event};
ghost use Rattle.vpn_links.specs.declared.events.Kind.TheVariants.{Tick};
ghost use Rattle.peer_table.specs.KeySessions.{Session, has_keys, newest_session};
ghost use Rattle.peer_table.specs.Peer.{Peer};
ghost use Rattle.peer_table.specs.Time.{Ticking, ticked};
ghost use Rattle.server_table.specs.Lookups.{client_here};
ghost use Rattle.server_table.specs.Step.{is_over, moment_of, step};
ghost use Rattle.server_table.specs.Table.{Client, Table};
ghost use Rattle.control_laws.specs.Renewals.{AreDue, IsRenewed};

/// Keys are renewed when they are due: once time has passed for a client that is established and not silent
/// for too long, whose newest key session has keys for which new ones are due, its next session has begun. So
/// it is of each client of a server that is still here once a step let time pass.
pub fn keys_are_renewed()
    ensures session { (p : Peer) (t : Ticking) (s : Session) → t.established ≡ true → t.idle ≡ false → newest_session p.sessions ≡ Some s →
        has_keys s ≡ true → AreDue p.timers t.at s → IsRenewed p t (ticked t p) }
    ensures step { (lacks : Bool) (t : Table) (event : Event) (n : ℕ) (x y : Client) (s : Session) → is_over t ≡ false → event.kind ≡ Tick →
        client_here t n ≡ Some x → is_some x.established ≡ true → newest_session x.session.sessions ≡ Some s → has_keys s ≡ true →
        AreDue x.session.timers (moment_of t event) s → client_here (step lacks t event).table n ≡ Some y →
        length y.session.sessions ≡ suc (length x.session.sessions) }
{}
