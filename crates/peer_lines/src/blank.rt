//! The memory of a key session that is to come.

ghost use Rattle.std.specs.Prelude.{◌≤◌, IfOk, IsOk, OnOk};
ghost use Rattle.vpn_base.specs.declared.names.Timers.{Timers};
ghost use Rattle.peer_lines.specs.Rooms.{blank_room};
ghost use Rattle.peer_lines.specs.Standing.{BlankFor};

use control_link::LinkBlank;
use data_channel::DataChannel;
use gcm_seal::AnyGcm;
use packet_ids::Window;
use std::alloc::Global;
use std::marker::Model;
use vpn_base::{NoMemory, Timers};

/// The memory of a key session that is to come: that of its control link, and the window of its data channel.
#[derive(Drop)]
pub struct SessionBlank {
    pub(crate) link: LinkBlank,
    pub(crate) window: Window,
    pub(crate) room: DataRoom,
}

/// Room for one data channel.
#[derive(Drop)]
pub(crate) struct DataRoom {
    pub(crate) room: Vec<DataChannel<AnyGcm>>,
}

impl Model for DataRoom {
    ghost use Rattle.std.specs.Prelude.{◌≡◌, ◌≤◌, ◌+◌, ℕ, [], vec_len, vec_capacity};

    ghost Value = { ℕ };

    ghost view = { λ d. vec_capacity d.room };

    ghost invariant = { λ d. (d.room.items ≡ []) × (vec_len d.room + 1 ≤ vec_capacity d.room) };
}

impl DataRoom {
    // Takes it.
    fn make(alloc: Global) -> Result<DataRoom, NoMemory> {
        let room = Vec::with_capacity(alloc, 1)?;
        Ok(DataRoom { room })
    }
}

impl SessionBlank {
    /// The memory of a key session with these timers.
    #[tactic(auto, unfolding(crate::specs::Standing::BlankFor))]
    pub fn make(alloc: Global, timers: &Timers) -> Result<SessionBlank, NoMemory>
        requires window { 1 ≤ timers.now.win }
        requires some_timeout { 1 ≤ timers.now.timeout }
        requires short_timeout { timers.now.timeout ≤ 60 }
        ensures { IfOk result (λ b. BlankFor b timers.now) }
    {
        let link = LinkBlank::make(alloc, timers.timeout)?;
        let window = Window::new(alloc, timers.win, timers.win_secs)?;
        let room = DataRoom::make(alloc)?;
        Ok(SessionBlank { link, window, room })
    }

    /// Takes the room for the payload of the session's first control packet, of at most so many bytes.
    #[tactic(auto, unfolding(crate::specs::Standing::BlankFor, crate::specs::Rooms::blank_room))]
    pub fn reserve_payload(&mut self, payload: usize) -> Result<(), NoMemory>
        ensures same { (timers : Timers) → BlankFor self.old timers → BlankFor self.new timers }
        ensures ok { OnOk result (payload ≤ blank_room self.new) }
        ensures fits { payload ≤ blank_room self.old → IsOk result }
    {
        self.link.reserve_payload(payload)
    }
}
