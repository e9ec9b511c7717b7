//! The control link of one key session.

ghost use Rattle.std.specs.Prelude.{◌≡◌, ◌≤◌, ◌+◌, [], ◌∷◌, ◌++◌, length, false, IsOk, OnOk, OnErr};
ghost use Rattle.vpn_base.specs.declared.names.Role.{Role};
ghost use Rattle.vpn_links.specs.Actions.{Holds};
ghost use Rattle.reliable_send.specs.Sending.{cut};
ghost use Rattle.reliable_send.specs.Sides.{IsNotMemory};
ghost use Rattle.control_link.specs.Calls.{Told};
ghost use Rattle.control_link.specs.Envelope.{EnvelopeHistory, EnvelopeStands};
ghost use Rattle.peer_table.specs.KeySessions.{Session};
ghost use Rattle.peer_table.specs.Outboxes.{HasRoom, Uses, actions_of};
ghost use Rattle.peer_table.specs.Peer.{Closes};
ghost use Rattle.peer_lines.specs.Calls.{Leaves, begun_sent, due_sent, still, text_offered, unless_wanting};
ghost use Rattle.peer_lines.specs.Standing.{StandsFor, has_data};
ghost use Rattle.peer_lines.specs.Rooms.{longest, payload_room, text_room};

use crate::channels::SessionChannels;
use control_link::{Envelope, LinkEnd};
use tls_crypt::Wrap;
use vpn_base::{Addr, Conn, Moment, NoMemory, Or, Sid};
use vpn_links::{Effect, Outbox};

impl SessionChannels {
    /// Offers text to the other end, and sends what may be sent. It takes no memory where the outbox has room for 6
    /// datagrams and 7,200 bytes, and the text fits the room that was taken ahead.
    #[tactic(auto, unfolding(crate::specs::Standing::has_data, crate::specs::Rooms::text_room, crate::specs::Rooms::payload_room, crate::specs::Rooms::longest))]
    pub fn say<W: Wrap + Drop>(
        &mut self,
        bytes: &[u8],
        env: &mut Envelope<W>,
        remote: Sid,
        to: Addr,
        now: Moment,
        out: &mut Outbox,
    ) -> Result<(), Or<LinkEnd>>
        ensures left { (s : Session) → (h : EnvelopeHistory) → StandsFor self.old s → s.link.spent ≡ false → EnvelopeStands W.wrapped env.old h →
            Leaves W.wrapped self.new env.new out.old out.new to (unless_wanting result (text_offered s h bytes.now remote now.0) (still s h)) }
        ensures answer { (s : Session) → (h : EnvelopeHistory) → StandsFor self.old s → s.link.spent ≡ false → EnvelopeStands W.wrapped env.old h →
            Told result (text_offered s h bytes.now remote now.0).end }
        ensures fits { HasRoom out.old 6 7200 → length (cut bytes.now) ≤ text_room self.old → IsNotMemory result }
        ensures uses { Uses out.old out.new 6 7200 }
        ensures there { has_data self.new ≡ has_data self.old }
    {
        self.link.say(bytes, env, remote, to, now, out)
    }

    /// Sends what may be sent for the first time, with nothing offered. It takes no memory where the outbox has room for 6
    /// datagrams and 7,200 bytes.
    #[tactic(auto, unfolding(crate::specs::Standing::has_data))]
    pub fn send_ready<W: Wrap + Drop>(
        &mut self,
        env: &mut Envelope<W>,
        remote: Sid,
        to: Addr,
        now: Moment,
        out: &mut Outbox,
    ) -> Result<(), Or<LinkEnd>>
        ensures left { (s : Session) → (h : EnvelopeHistory) → StandsFor self.old s → s.link.spent ≡ false → EnvelopeStands W.wrapped env.old h →
            Leaves W.wrapped self.new env.new out.old out.new to (unless_wanting result (begun_sent s h remote now.0) (still s h)) }
        ensures answer { (s : Session) → (h : EnvelopeHistory) → StandsFor self.old s → s.link.spent ≡ false → EnvelopeStands W.wrapped env.old h →
            Told result (begun_sent s h remote now.0).end }
        ensures fits { HasRoom out.old 6 7200 → IsNotMemory result }
        ensures uses { Uses out.old out.new 6 7200 }
        ensures there { has_data self.new ≡ has_data self.old }
    {
        self.link.send_ready(env, remote, to, now, out)
    }

    /// Sends again what is due at this moment. It takes no memory where the outbox has room for 6 datagrams and 7,200
    /// bytes.
    #[tactic(auto, unfolding(crate::specs::Standing::has_data))]
    pub fn tick<W: Wrap + Drop>(
        &mut self,
        env: &mut Envelope<W>,
        remote: Sid,
        to: Addr,
        now: Moment,
        out: &mut Outbox,
    ) -> Result<(), Or<LinkEnd>>
        ensures left { (s : Session) → (h : EnvelopeHistory) → StandsFor self.old s → s.link.spent ≡ false → EnvelopeStands W.wrapped env.old h →
            Leaves W.wrapped self.new env.new out.old out.new to (unless_wanting result (due_sent s h remote now.0) (still s h)) }
        ensures answer { (s : Session) → (h : EnvelopeHistory) → StandsFor self.old s → s.link.spent ≡ false → EnvelopeStands W.wrapped env.old h →
            Told result (due_sent s h remote now.0).end }
        ensures fits { HasRoom out.old 6 7200 → IsNotMemory result }
        ensures uses { Uses out.old out.new 6 7200 }
        ensures there { has_data self.new ≡ has_data self.old }
    {
        self.link.tick(env, remote, to, now, out)
    }

    /// Closes the engine connection, as an effect. It takes no memory where the outbox has room for one effect.
    #[tactic(auto, unfolding(crate::specs::Standing::StandsFor))]
    pub fn close(&self, out: &mut Outbox) -> Result<(), NoMemory>
        ensures closed { (s : Session) → StandsFor self.now s →
            OnOk result ((end : Role) → Holds out.new (out.old.effects ++ actions_of end (Closes s.link.conn ∷ [])) out.old.staged) }
        ensures kept { OnErr result (Holds out.new out.old.effects out.old.staged) }
        ensures fits { HasRoom out.old 1 0 → IsOk result }
        ensures uses { Uses out.old out.new 1 0 }
    {
        out.add(&Effect::EngineClose {
            conn: self.link.conn(),
        })
    }

    /// Its engine connection.
    #[tactic(auto, unfolding(crate::specs::Standing::StandsFor))]
    pub fn conn(&self) -> Conn
        ensures { (s : Session) → StandsFor self.now s → result ≡ s.link.conn }
    {
        self.link.conn()
    }
}
