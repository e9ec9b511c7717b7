//! Which events are refused before anything is done.

ghost use Rattle.std.specs.Prelude.{◌≡◌, [], ℕ, Bool, false, List, Some};
ghost use Rattle.vpn_base.specs.declared.address.Addr.{Addr};
ghost use Rattle.vpn_base.specs.declared.names.Cid.{Cid};
ghost use Rattle.vpn_base.specs.declared.names.Conn.{Conn};
ghost use Rattle.vpn_base.specs.declared.names.Draw.{Draw};
ghost use Rattle.vpn_links.specs.declared.events.FileAnswer.{FileAnswer};
ghost use Rattle.vpn_links.specs.declared.events.Kind.{Kind};
ghost use Rattle.server_table.specs.ControlDatagrams.{ControlPacket, admitted, to_client};
ghost use Rattle.server_table.specs.Courses.{Course, outs};
ghost use Rattle.server_table.specs.Engine.{engine_answered, engine_is_down, file_came};
ghost use Rattle.server_table.specs.Lookups.{by_connection, client_here};
ghost use Rattle.server_table.specs.Runs.{is_refusal};
ghost use Rattle.server_table.specs.Table.{Awaited, Client};
ghost use Rattle.server_table.specs.Time.{tick};

/// An event that is for a client, and one of time, comes to no refusal, for which no memory is taken: of those that
/// it may report none is the note of an event of which nothing was done.
pub fn what_is_done_is_no_refusal()
    ensures packet { (r : ControlPacket) (n : ℕ) (c : Course) → c.effects ≡ [] → is_refusal (outs (to_client r n c)) ≡ false }
    ensures admission { (from : Addr) (bytes : List ℕ) (lacks : Bool) (draw : Draw) (r : ControlPacket) (c : Course) → c.effects ≡ [] →
        is_refusal (outs (admitted (record { from = from; bytes = bytes; lacks = lacks }) draw r c)) ≡ false }
    ensures answer { (draw : Draw) (conn : Conn) (kind : Kind) (n : ℕ) (c : Course) → by_connection c.table conn ≡ Some n → c.effects ≡ [] →
        is_refusal (outs (engine_answered draw conn kind c)) ≡ false }
    ensures file { (draw : Draw) (id : Cid) (answer : FileAnswer) (c : Course) (x : Client) (name : List ℕ) → client_here c.table id.0 ≡ Some x →
        x.file ≡ Awaited name → c.effects ≡ [] → is_refusal (outs (file_came draw id answer c)) ≡ false }
    ensures down { (conn : Conn) (c : Course) (n : ℕ) → by_connection c.table conn ≡ Some n → c.effects ≡ [] → is_refusal (outs (engine_is_down conn c)) ≡ false }
    ensures time { (c : Course) → c.effects ≡ [] → is_refusal (outs (tick c)) ≡ false }
{}
