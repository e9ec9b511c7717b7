//! The laws of a server's run about control text.

ghost use Rattle.std.specs.Prelude.{◌≡◌, ◌≤◌, ◌<◌, ◌++◌, ℕ, Bool, List, [], Some};
ghost use Rattle.std.specs.List.{AllByRecursion};
ghost use Rattle.vpn_links.specs.declared.events.Event.{Event};
ghost use Rattle.ovpn_config.specs.declared.settings.Settings.{Settings};
ghost use Rattle.reliable_recv.specs.Receiving.{text};
ghost use Rattle.control_link.specs.Reading.{text_read_of};
ghost use Rattle.peer_table.specs.KeySessions.{Session, kid_of};
ghost use Rattle.server_table.specs.ControlDatagrams.{ControlPacket};
ghost use Rattle.server_table.specs.Courses.{outs};
ghost use Rattle.server_table.specs.Runs.{Entry, after_all};
ghost use Rattle.server_table.specs.Step.{step};
ghost use Rattle.server_table.specs.Table.{table_begun};
ghost use Rattle.control_laws.specs.Brought.{IsTakenIn, WasBrought};
ghost use Rattle.control_laws.specs.Puts.{all_outs, opened_after, put_on};
ghost use Rattle.control_laws.specs.Sessions.{IsOn, IsStillIn, session_of, taken_in};
ghost use Rattle.control_laws.specs.Tests.{MeetsAll};
ghost use Rattle.control_laws.specs.internal.LinkReads.{LinkReads};

// The law of a control link, as one fact.
fn link_reads()
    ensures { LinkReads }
{
    control_link::reads_what_is_given();
}

/// Over a whole run the bytes that are put to the engine on the connection of a key session, in order, are
/// the text of what the session took, without gap or repeat, and its link has read all of it. This holds of
/// every key session of every client that was ever admitted, also once they have ended. In each step what is
/// put there is what the text gains.
pub fn control_text_is_put_in_order()
    ensures text { (settings : Settings) (key : List ℕ) (entries : List Entry) (n k : ℕ) (s : Session) →
        session_of (after_all (table_begun settings key) entries) n k ≡ Some s →
        put_on s.link.conn.0 (all_outs (table_begun settings key) entries) ≡ text s.link.receiving.taken }
    ensures read { (settings : Settings) (key : List ℕ) (entries : List Entry) (n k : ℕ) (s : Session) →
        session_of (after_all (table_begun settings key) entries) n k ≡ Some s →
        put_on s.link.conn.0 (all_outs (table_begun settings key) entries) ≡ text_read_of s.link }
    ensures step { (settings : Settings) (key : List ℕ) (before : List Entry) (lacks : Bool) (event : Event) (n k : ℕ) (s : Session) →
        session_of (step lacks (after_all (table_begun settings key) before) event).table n k ≡ Some s →
        text s.link.receiving.taken ≡ text (taken_in (session_of (after_all (table_begun settings key) before) n k))
        ++ put_on s.link.conn.0 (outs (step lacks (after_all (table_begun settings key) before) event)) }
{
    link_reads();
}

/// The connections of a run are opened in the order of their numbers, each once, and text is put on none
/// before it was opened. Two key sessions never share a connection: each has one that was opened, each that
/// was opened is that of a session, and on no other anything is put.
pub fn connections_are_never_shared()
    ensures opened { (settings : Settings) (key : List ℕ) (entries : List Entry) →
        opened_after (all_outs (table_begun settings key) entries) 0 ≡ Some (after_all (table_begun settings key) entries).connections }
    ensures apart { (settings : Settings) (key : List ℕ) (entries : List Entry) (n k m j : ℕ) (s r : Session) →
        session_of (after_all (table_begun settings key) entries) n k ≡ Some s →
        session_of (after_all (table_begun settings key) entries) m j ≡ Some r →
        s.link.conn.0 ≡ r.link.conn.0 → (n ≡ m) × (k ≡ j) }
    ensures below { (settings : Settings) (key : List ℕ) (entries : List Entry) (n k : ℕ) (s : Session) →
        session_of (after_all (table_begun settings key) entries) n k ≡ Some s →
        s.link.conn.0 < (after_all (table_begun settings key) entries).connections }
    ensures covered { (settings : Settings) (key : List ℕ) (entries : List Entry) (conn : ℕ) →
        conn < (after_all (table_begun settings key) entries).connections → IsOn (after_all (table_begun settings key) entries) conn }
    ensures beyond { (settings : Settings) (key : List ℕ) (entries : List Entry) (conn : ℕ) →
        (after_all (table_begun settings key) entries).connections ≤ conn → put_on conn (all_outs (table_begun settings key) entries) ≡ [] }
{
    link_reads();
}

/// Each payload that a key session took was brought by an event of the run: a datagram that unwraps under the
/// static key, is its client's by address and session id or admitted the client, was fresh as a wrap, and
/// carries the key id of the session, which is that of its number.
pub fn control_text_was_brought()
    ensures brought { (settings : Settings) (key : List ℕ) (entries : List Entry) (n k : ℕ) (s : Session) →
        session_of (after_all (table_begun settings key) entries) n k ≡ Some s →
        AllByRecursion (WasBrought settings key entries n k) s.link.receiving.taken }
    ensures kid { (settings : Settings) (key : List ℕ) (entries : List Entry) (n k : ℕ) (s : Session) →
        session_of (after_all (table_begun settings key) entries) n k ≡ Some s → s.link.kid ≡ kid_of k }
{
    link_reads();
}

/// What was taken stays: a key session that stands somewhere in a run stands there to its end, with its
/// connection and its key id, and what it took stands in front of what it took later.
pub fn what_was_taken_stays()
    ensures { (settings : Settings) (key : List ℕ) (before more : List Entry) (n k : ℕ) (s : Session) →
        session_of (after_all (table_begun settings key) before) n k ≡ Some s →
        IsStillIn (after_all (table_begun settings key) (before ++ more)) n k s }
{
    link_reads();
}

/// No control packet is lost: one that unwraps under the static key, is a client's that is here by address and
/// session id, is fresh as a wrap, and is for a live key session or begins the next one, is taken by that
/// session in its step; so is one that admits a client. What is then read beyond what was read before is put
/// to the engine on the session's connection.
pub fn no_control_packet_is_lost()
    ensures { (settings : Settings) (key : List ℕ) (before : List Entry) (lacks : Bool) (event : Event) (r : ControlPacket) (n k : ℕ) →
        MeetsAll key (after_all (table_begun settings key) before) event r n k →
        IsTakenIn lacks (after_all (table_begun settings key) before) event r n k }
{
    link_reads();
    server_table::tables_stay_sound();
}
