//! What belongs to one key session.

ghost use Rattle.std.specs.Prelude.{◌≡◌, ◌≤◌, ◌<◌, ℕ, List, length, false, IsOk, OnOk};
ghost use Rattle.vpn_base.specs.declared.names.Timers.{Timers};
ghost use Rattle.reliable_send.specs.Sending.{cut, piece_count};
ghost use Rattle.control_link.specs.Links.{IsReset};
ghost use Rattle.peer_table.specs.Exchange.{unread};
ghost use Rattle.peer_table.specs.KeySessions.{Session, kid_of, session_begun};
ghost use Rattle.peer_lines.specs.Standing.{BlankFor, StandsFor, has_data};
ghost use Rattle.peer_lines.specs.Rooms.{KeepsRoom, blank_room, longest, payload_room, plain_room, text_room};

use crate::blank::SessionBlank;
use crate::open_link::OpenLink;
use control_link::ControlLink;
use data_channel::DataChannel;
use gcm_seal::AnyGcm;
use key_sessions::SessionText;
use opcode_codec::Opcode;
use packet_ids::Window;
use std::alloc::Global;
use vpn_base::{Conn, NoMemory};
use vpn_links::ControlText;

/// What belongs to one key session: its control link, the plain text of the other end that was not read, and,
/// once it has keys, its data channel.
#[derive(Drop)]
pub struct SessionChannels {
    pub(crate) link: OpenLink,
    pub(crate) plain: Vec<u8>,
    // how many bytes the longest payload has that was put into the link
    pub(crate) longest: usize,
    // the window of a data channel that is to come
    pub(crate) window: Option<Window>,
    // the data channel, if it is there: room for it was taken ahead
    pub(crate) packets: Vec<DataChannel<AnyGcm>>,
}

impl SessionChannels {
    /// The channels of a key session that begins on this engine connection with this key id, by this reset, and
    /// for which memory was taken ahead. It takes none.
    #[tactic(auto, unfolding(crate::specs::Standing::StandsFor, crate::specs::Standing::BlankFor, crate::specs::Standing::has_data, crate::specs::Rooms::blank_room, crate::specs::Rooms::payload_room, crate::specs::Rooms::longest))]
    pub fn begin(
        alloc: Global,
        blank: SessionBlank,
        conn: Conn,
        kid: u8,
        first: Opcode,
    ) -> SessionChannels
        requires kid { kid < 8 }
        requires first { IsReset first }
        ensures stands { (timers : Timers) (number moment : ℕ) → BlankFor blank timers → kid ≡ kid_of number →
            StandsFor result (session_begun timers conn number first moment) }
        ensures there { has_data result ≡ false }
        ensures room { payload_room result ≡ blank_room blank }
        ensures none_long { longest result ≡ 0 }
    {
        let SessionBlank { link, window, room } = blank;
        SessionChannels {
            link: OpenLink::of(ControlLink::of_blank(link, conn, kid, first)),
            plain: Vec::new(alloc),
            longest: 0,
            window: Some(window),
            packets: room.room,
        }
    }

    /// Takes the memory for one control packet with a payload of at most so many bytes, for one text for the other
    /// end and for plain text of it, each of at most so many bytes.
    #[tactic(auto, unfolding(crate::specs::Standing::StandsFor, crate::specs::Standing::has_data, crate::specs::Rooms::payload_room, crate::specs::Rooms::text_room, crate::specs::Rooms::plain_room, crate::specs::Rooms::longest))]
    pub fn reserve(&mut self, payload: usize, text: usize, plain: usize) -> Result<(), NoMemory>
        ensures same { (s : Session) → StandsFor self.old s → StandsFor self.new s }
        ensures payload { OnOk result (payload ≤ payload_room self.new) }
        ensures text { OnOk result (piece_count text ≤ text_room self.new) }
        ensures enough { OnOk result ((bytes : List ℕ) → length bytes ≤ text → length (cut bytes) ≤ text_room self.new) }
        ensures plain { OnOk result (plain ≤ plain_room self.new) }
        ensures fits { payload ≤ payload_room self.old → piece_count text ≤ text_room self.old → plain ≤ plain_room self.old → IsOk result }
        ensures keeps { KeepsRoom self.old self.new }
        ensures longest { longest self.new ≡ longest self.old }
        ensures there { has_data self.new ≡ has_data self.old }
    {
        self.link.reserve_payload(payload)?;
        self.link.reserve_text(text)?;
        self.plain.reserve(plain)?;
        Ok(())
    }

    /// How many bytes of plain text were not read.
    #[tactic(auto, unfolding(crate::specs::Standing::StandsFor))]
    pub fn unread(&self) -> usize
        ensures { (s : Session) → StandsFor self.now s → result ≡ length (unread s) }
    {
        self.plain.len()
    }

    /// The last packet id that was sealed under its keys, and 0 before the first.
    pub fn last_sealed(&self) -> u32
        ensures { (s : Session) → StandsFor self.now s → result ≡ s.sealed }
    {
        let packets = self.packets.as_slice();
        if packets.is_empty() {
            return 0;
        }
        packets[0].last_sealed()
    }

    /// Whether its data channel is there.
    #[tactic(auto, unfolding(crate::specs::Standing::has_data))]
    pub fn has_data(&self) -> bool
        ensures { result ≡ has_data self.now }
    {
        !self.packets.is_empty()
    }
}

impl ControlText for SessionChannels {
    ghost use Rattle.control_link.specs.Links.{Link, LinkStands, read_of, written_of};

    ghost History = { Link };

    ghost stands = { λ c l. LinkStands c.link l };

    ghost conn_of = { λ l. l.conn };

    ghost read_of = { λ l. read_of l };

    ghost written_of = { λ l. written_of l };

    fn conn(&self) -> Conn {
        self.link.conn()
    }

    fn read_count(&self) -> u64 {
        self.link.read_count()
    }
}

impl SessionText for SessionChannels {
    ghost use Rattle.peer_lines.specs.Standing.{StandsFor};
    ghost use Rattle.peer_lines.specs.internal.Texts.{has_link, restaged_stands};

    ghost stands_for = { StandsFor };

    ghost restaged = { restaged_stands };

    ghost on_link = { has_link };
}
