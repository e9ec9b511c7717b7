//! Laws that the sessions for which channels stand keep.

ghost use Rattle.std.specs.Prelude.{◌≡◌, ◌≢◌, ℕ, true, false, List};
ghost use Rattle.vpn_base.specs.declared.names.Sid.{Sid};
ghost use Rattle.opcode_codec.specs.ControlText.{ControlForm};
ghost use Rattle.control_link.specs.Envelope.{EnvelopeHistory};
ghost use Rattle.control_link.specs.Links.{LinkStands};
ghost use Rattle.peer_table.specs.KeySessions.{Session, Stage, closed, has_keys};
ghost use Rattle.peer_lines.specs.declared.channels.SessionChannels.{SessionChannels};
ghost use Rattle.peer_lines.specs.Calls.{GoesOn, begun_sent, due_sent, packet_taken, text_offered};
ghost use Rattle.peer_lines.specs.Standing.{StandsFor, has_data};

/// Channels that stand for a session without keys stand for it at any stage, as nothing was sealed or opened on them, and
/// those that stand for a session stand for it once it is closed. Their control link stands for that of the session.
/// Before the session has keys there is no data channel, and nothing was read or sealed; once something was read of it
/// there is one.
pub fn channels_stand_on()
    ensures restaged { (c : SessionChannels) (s : Session) (stage : Stage) → has_keys s ≡ false → StandsFor c s → StandsFor c (record s { stage = stage }) }
    ensures closed { (c : SessionChannels) (s : Session) → StandsFor c s → StandsFor c (closed s) }
    ensures none { (c : SessionChannels) (s : Session) → has_keys s ≡ false → StandsFor c s → (has_data c ≡ false) × (s.read ≡ 0) × (s.sealed ≡ 0) }
    ensures there { (c : SessionChannels) (s : Session) → StandsFor c s → s.read ≢ 0 → has_data c ≡ true }
    ensures link { (c : SessionChannels) (s : Session) → StandsFor c s → LinkStands c.link s.link }
{}

/// A call of a session's control link that tells no end leaves a link on which the wrap ids did not end, and each call
/// leaves its key id.
pub fn links_go_on()
    ensures packet { (s : Session) (h : EnvelopeHistory) (v : ControlForm) (remote : Sid) (now : ℕ) → GoesOn s (packet_taken s h v remote now) }
    ensures text { (s : Session) (h : EnvelopeHistory) (bytes : List ℕ) (remote : Sid) (now : ℕ) → GoesOn s (text_offered s h bytes remote now) }
    ensures begun { (s : Session) (h : EnvelopeHistory) (remote : Sid) (now : ℕ) → GoesOn s (begun_sent s h remote now) }
    ensures due { (s : Session) (h : EnvelopeHistory) (remote : Sid) (now : ℕ) → GoesOn s (due_sent s h remote now) }
{}
