//! What this crate's definitions have to do with those of the server.

ghost use Rattle.std.specs.Prelude.{◌≡◌};
ghost use Rattle.vpn_base.specs.declared.names.Conn.{Conn};
ghost use Rattle.ovpn_config.specs.declared.settings.Settings.{Settings};
ghost use Rattle.push_options.specs.Options.{options_of};
ghost use Rattle.push_options.specs.Parts.{reply_parts};
ghost use Rattle.server_table.specs.Establishing.{Leased, ccd_in, client_cipher, plan_of, reply, written};
ghost use Rattle.server_table.specs.Table.{Client};
ghost use Rattle.server_texts.specs.Replies.{plan_for};

/// The reply that the server's definitions write to a client is that of the plan for its file, its peer id,
/// its cipher and its address.
pub fn replies_are_planned()
    ensures plan { (s : Settings) → (x : Client) → (a : Leased) → plan_of s x a ≡ plan_for s (ccd_in x.file) x.peer_id (client_cipher x) a }
    ensures reply { (s : Settings) → (x : Client) → (a : Leased) → (conn : Conn) →
        reply s x a conn ≡ written conn (reply_parts (options_of (plan_for s (ccd_in x.file) x.peer_id (client_cipher x) a))) }
{}
