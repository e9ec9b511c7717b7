//! How long what was made ahead is right.

ghost use Rattle.std.specs.Prelude.{◌≡◌, ℕ, List, Some, None};
ghost use Rattle.vpn_base.specs.declared.names.Conn.{Conn};
ghost use Rattle.ccd_files.specs.declared.client_file.Ccd.{Ccd};
ghost use Rattle.peer_table.specs.Places.{changed_at};
ghost use Rattle.server_table.specs.Courses.{Course};
ghost use Rattle.server_table.specs.Establishing.{ccd_in, client_established};
ghost use Rattle.server_table.specs.Lookups.{client_here};
ghost use Rattle.server_table.specs.Table.{Client};
ghost use Rattle.server_establishing.specs.declared.ahead.Ahead.{Ahead};
ghost use Rattle.server_establishing.specs.Ahead.{IsEstablishedWith, IsMadeFor, KeepsPlace, replies_in};

/// What was made ahead for a client that is not established stays right where only that client is changed, and
/// keeps its peer id.
pub fn what_is_made_stays()
    ensures { (c then : Course) (n : ℕ) (name : List ℕ) (file : Ccd) (ahead : Ahead) (g : Client → Client) (x : Client) → IsMadeFor c n name file ahead →
        client_here c.table n ≡ Some x → x.established ≡ None → KeepsPlace g → then.table.settings ≡ c.table.settings →
        then.table.clients ≡ changed_at n g c.table.clients → IsMadeFor then n name file ahead }
{}

/// A client that is here after it was established with what was made ahead is established, and the reply that is
/// written to it again is the one that was made.
pub fn the_same_reply_is_written_again()
    ensures { (c : Course) (n : ℕ) (conn : Conn) (ahead : Ahead) (x y : Client) → client_here c.table n ≡ Some x → x.established ≡ None →
        x.session.name ≡ Some ahead.name → ccd_in x.file ≡ ahead.file → IsMadeFor c n ahead.name ahead.file ahead →
        client_here (client_established n conn c).table n ≡ Some y →
        IsEstablishedWith (client_established n conn c).table y (replies_in ahead.lease) }
{}
