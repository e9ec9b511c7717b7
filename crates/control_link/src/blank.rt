//! The memory of a link that is to come.

ghost use Rattle.std.specs.Prelude.{◌≤◌, ℕ, IfOk, IsOk, OnOk};
ghost use Rattle.control_link.specs.Links.{BlankStands};

use reliable_recv::RecvSide;
use reliable_send::SendSide;
use std::alloc::Global;
use std::marker::Model;
use vpn_base::NoMemory;

/// The memory of a control link that is to come: both sides, with nothing sent or taken.
#[derive(Drop)]
pub struct LinkBlank {
    pub(crate) sending: SendSide,
    pub(crate) receiving: RecvSide,
}

impl Model for LinkBlank {
    ghost use Rattle.std.specs.Prelude.{◌≡◌, []};
    ghost use Rattle.control_link.specs.Links.{Blank};

    ghost Value = { Blank };

    ghost view = { λ b. record { sending = b.sending; receiving = b.receiving } };

    ghost invariant = { λ b. b.receiving.kept.waiting ≡ [] };
}

impl LinkBlank {
    /// The memory of a link on which a piece is sent again so many seconds after its first sending.
    #[tactic(auto, unfolding(crate::specs::Links::BlankStands))]
    pub fn make(alloc: Global, timeout_secs: u32) -> Result<LinkBlank, NoMemory>
        requires some { 1 ≤ timeout_secs }
        requires most { timeout_secs ≤ 60 }
        ensures { IfOk result (λ b. BlankStands b timeout_secs) }
    {
        let sending = SendSide::new(alloc, timeout_secs)?;
        let receiving = RecvSide::new(alloc)?;
        Ok(LinkBlank { sending, receiving })
    }
    /// Takes the room for the payload of one packet, of at most so many bytes. It is Ok where that room is
    /// there.
    #[tactic(auto, unfolding(crate::specs::Links::BlankStands))]
    pub fn reserve_payload(&mut self, bytes: usize) -> Result<(), NoMemory>
        ensures same { (timeout : ℕ) → BlankStands self.old timeout → BlankStands self.new timeout }
        ensures ok { OnOk result (bytes ≤ self.new.receiving.spare) }
        ensures fits { bytes ≤ self.old.receiving.spare → IsOk result }
    {
        self.receiving.reserve(bytes)
    }
}
