//! The plain text of the other end.

ghost use Rattle.std.specs.Prelude.{◌≡◌, ◌≤◌, ◌<◌, ◌+◌, ◌-◌, length, drop, false, true, Some, IsOk, OnOk, OnErr, IfSome, position, vec_len, vec_capacity};
ghost use Rattle.std.specs.Option.{option_copied};
ghost use Rattle.vpn_base.specs.declared.names.Role.{Role};
ghost use Rattle.key_method2.specs.Reading.{reading};
ghost use Rattle.key_method2.specs.Views.{read_seen};
ghost use Rattle.peer_table.specs.Exchange.{is_nul};
ghost use Rattle.peer_table.specs.KeySessions.{Session, has_keys};
ghost use Rattle.peer_lines.specs.Calls.{after_waiting, waiting, with_plain};
ghost use Rattle.peer_lines.specs.Standing.{StandsFor, has_data};
ghost use Rattle.peer_lines.specs.Rooms.{plain_room};

use crate::channels::SessionChannels;
use key_method2::{Km2ViewRead, read_km2_view};
use vpn_base::{NoMemory, Role};

// Takes so many bytes off the front.
pub(crate) fn drop_front(bytes: &mut Vec<u8>, count: usize)
    requires { count ≤ length bytes.old.items }
    ensures rest { bytes.new.items ≡ drop count bytes.old.items }
    ensures room { vec_capacity bytes.old - vec_len bytes.old ≤ vec_capacity bytes.new - vec_len bytes.new }
{
    let rest = bytes.len() - count;
    bytes.rotate_left(count);
    bytes.truncate(rest);
}

// Where the first NUL stands.
fn nul_place(bytes: &[u8]) -> Option<usize>
    ensures place { result ≡ position is_nul bytes.now }
    ensures inside { IfSome result (λ place. place < length bytes.now) }
{
    bytes.iter().position(|byte| *byte == 0)
}

impl SessionChannels {
    /// Plain text of the other end has come. It takes no memory where the room that was taken ahead is enough.
    #[tactic(auto, unfolding(crate::specs::Standing::StandsFor, crate::specs::Standing::has_data, crate::specs::Rooms::plain_room))]
    pub fn put_plain(&mut self, bytes: &[u8]) -> Result<(), NoMemory>
        ensures put { (s : Session) → StandsFor self.old s → OnOk result (StandsFor self.new (with_plain bytes.now s)) }
        ensures same { (s : Session) → StandsFor self.old s → OnErr result (StandsFor self.new s) }
        ensures fits { length bytes.now ≤ plain_room self.old → IsOk result }
        ensures there { has_data self.new ≡ has_data self.old }
        ensures link { self.new.link ≡ self.old.link }
    {
        self.plain.extend_from_slice(bytes)?;
        Ok(())
    }

    /// The key exchange message of the other end at the front of the plain text, before the session has keys.
    pub fn message(&self, from: Role) -> Km2ViewRead<'_>
        ensures { (s : Session) → StandsFor self.now s → has_keys s ≡ false → read_seen result ≡ reading from s.plain }
    {
        read_km2_view(&self.plain, from)
    }

    /// The message that waits, without its NUL, if there is one.
    pub fn next_message(&self) -> Option<&[u8]>
        ensures { (s : Session) → StandsFor self.now s → option_copied result ≡ waiting s }
    {
        match nul_place(&self.plain) {
            None => None,
            Some(place) => Some(&self.plain[..place]),
        }
    }

    /// Passes the message that waits, with its NUL; where none waits, or there is no data channel yet, nothing changes. It
    /// takes no memory.
    #[tactic(auto, unfolding(crate::specs::Standing::has_data, crate::specs::Rooms::plain_room))]
    pub fn pass_message(&mut self)
        ensures passed { (s : Session) → StandsFor self.old s → has_data self.old ≡ true → StandsFor self.new (after_waiting s) }
        ensures there { has_data self.new ≡ has_data self.old }
        ensures link { self.new.link ≡ self.old.link }
        ensures room { plain_room self.old ≤ plain_room self.new }
    {
        if self.packets.is_empty() {
            return;
        }
        match nul_place(&self.plain) {
            None => {}
            Some(place) => drop_front(&mut self.plain, place + 1),
        }
    }
}
