//! The wrapping of all control packets of one client.

ghost use Rattle.std.specs.Prelude.{◌≡◌, ◌≢◌, ◌+◌, ◌-◌, ◌^◌, ◌≤◌, ℕ, length, take, IfOk, OnOk, OnErr};
ghost use Rattle.vpn_base.specs.declared.names.Freshness.TheVariants.{Fresh};
ghost use Rattle.packet_ids.specs.LongFreshness.{long_freshness};
ghost use Rattle.packet_ids.specs.LongWindows.{long_answer};
ghost use Rattle.control_link.specs.Envelope.{EnvelopeHistory, EnvelopeStands, envelope_begun, with_accepted, with_used};

use packet_ids::{LongWindow, SendIds, Spent};
use std::alloc::Global;
use tls_crypt::{Opened, Wrap};
use vpn_base::{Freshness, Moment, NoMemory, Sid};

/// The wrapping of all control packets of one client: how they are wrapped, the wrap ids of the own ones,
/// and the anti-replay window of those of the other end (OpenVPN 2.6, src/openvpn/tls_crypt.h).
#[derive(Drop)]
pub struct Envelope<W: Drop> {
    wrap: W,
    own: Sid,
    time: u32,
    pub(crate) ids: SendIds,
    window: LongWindow,
}

impl<W: Wrap + Drop> Envelope<W> {
    /// An envelope of this end's session id, with no wrap id used and nothing accepted. All own datagrams
    /// have this time, in seconds; the window is of so many ids, in which late ids stay fresh for so many
    /// seconds.
    #[tactic(auto, unfolding(crate::specs::Envelope::EnvelopeStands))]
    pub fn new(
        alloc: Global,
        wrap: W,
        own: Sid,
        time: u32,
        win: u32,
        win_secs: u32,
    ) -> Result<Envelope<W>, NoMemory>
        requires { 1 ≤ win }
        ensures { IfOk result (λ env. EnvelopeStands W.wrapped env (envelope_begun (W.wrapped wrap) own time win win_secs)) }
    {
        let window = LongWindow::new(alloc, win, win_secs)?;
        Ok(Envelope {
            wrap,
            own,
            time,
            ids: SendIds::at(0),
            window,
        })
    }

    /// Whether the wrap of a packet may be accepted now, by everything that was accepted.
    #[tactic(auto, unfolding(crate::specs::Envelope::EnvelopeStands))]
    pub fn check(&self, o: &Opened<'_>, now: Moment) -> Freshness
        ensures same { result ≡ long_answer self.now.window o.now.time o.now.id now }
        ensures exact { (h : EnvelopeHistory) → EnvelopeStands W.wrapped self.now h → result ≡ long_freshness h.accepted o.now.time o.now.id now }
    {
        self.window.test(o.time, o.id, now)
    }

    /// Accepts the wrap of a packet that `check` finds fresh. It takes no memory.
    #[tactic(auto, unfolding(crate::specs::Envelope::EnvelopeStands))]
    pub fn accept(&mut self, o: &Opened<'_>, now: Moment)
        requires { long_answer self.old.window o.now.time o.now.id now ≡ Fresh }
        ensures { (h : EnvelopeHistory) → EnvelopeStands W.wrapped self.old h → EnvelopeStands W.wrapped self.new (with_accepted h o.now.time o.now.id now) }
    {
        self.window.accept(o.time, o.id, now);
    }

    /// The own session id.
    #[tactic(auto, unfolding(crate::specs::Envelope::EnvelopeStands))]
    pub(crate) fn own(&self) -> Sid
        ensures { (h : EnvelopeHistory) → EnvelopeStands W.wrapped self.now h → result ≡ h.own }
    {
        self.own
    }

    // Wraps a control packet under the next wrap id, at the front of `out`, and answers its length. Spent
    // comes exactly after the last id.
    #[tactic(auto, unfolding(crate::specs::Envelope::EnvelopeStands))]
    pub(crate) fn wrap_next(
        &mut self,
        first: u8,
        plain: &[u8],
        out: &mut [u8],
    ) -> Result<usize, Spent>
        requires plain { length plain.now ≤ 65000 }
        requires room { length plain.now + 49 ≤ length out.old }
        ensures len { IfOk result (λ n. n ≡ length plain.now + 49) }
        ensures written { IfOk result (λ n. (h : EnvelopeHistory) → EnvelopeStands W.wrapped self.old h →
            take n out.new ≡ h.wraps first h.own.0 (h.last + 1) h.time plain.now) }
        ensures used { OnOk result ((h : EnvelopeHistory) → EnvelopeStands W.wrapped self.old h →
            (h.last ≢ 2 ^ 32 - 1) × EnvelopeStands W.wrapped self.new (with_used h)) }
        ensures spent { OnErr result ((h : EnvelopeHistory) → EnvelopeStands W.wrapped self.old h →
            (h.last ≡ 2 ^ 32 - 1) × EnvelopeStands W.wrapped self.new h) }
    {
        match self.ids.next() {
            Ok(id) => Ok(self.wrap.wrap(first, self.own, id, self.time, plain, out)),
            Err(Spent) => Err(Spent),
        }
    }
}
