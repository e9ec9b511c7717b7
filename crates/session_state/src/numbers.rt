//! The numbers of the open key sessions.

ghost use Rattle.std.specs.Prelude.{◌≡◌, ◌≤◌, List, length};
ghost use Rattle.peer_table.specs.KeySessions.{Session, open_numbers};
ghost use Rattle.key_sessions.specs.Slots.{SlotsStand};
ghost use Rattle.peer_lines.specs.Standing.{StandsFor};

use key_sessions::Slots;
use peer_lines::SessionChannels;
use std::marker::Model;

/// At most so many key sessions of a client are open.
pub(crate) const MOST_OPEN: usize = 3;

/// The numbers of the open key sessions of a client, in order, which contracts see as a list.
#[derive(Drop)]
pub struct OpenNumbers {
    numbers: [u64; MOST_OPEN],
    count: usize,
}

impl Model for OpenNumbers {
    ghost use Rattle.std.specs.Prelude.{ℕ, ◌≤◌, List, take};

    ghost Value = { List ℕ };

    ghost view = { λ o. take o.count o.numbers };

    ghost invariant = { λ o. o.count ≤ 3 };
}

impl OpenNumbers {
    /// Those of the slots.
    pub fn of(slots: &Slots<SessionChannels>) -> OpenNumbers
        ensures { (ss : List Session) → SlotsStand StandsFor slots.now ss → result ≡ open_numbers ss }
    {
        let first = match slots.open_at(0) {
            None => return OpenNumbers {
                numbers: [0, 0, 0],
                count: 0,
            },
            Some((number, _, _)) => number,
        };
        let second = match slots.open_at(1) {
            None => return OpenNumbers {
                numbers: [first, 0, 0],
                count: 1,
            },
            Some((number, _, _)) => number,
        };
        let third = match slots.open_at(2) {
            None => return OpenNumbers {
                numbers: [first, second, 0],
                count: 2,
            },
            Some((number, _, _)) => number,
        };
        // There is no fourth.
        let _ = slots.open_at(3);
        OpenNumbers {
            numbers: [first, second, third],
            count: 3,
        }
    }

    /// The numbers.
    pub fn as_slice(&self) -> &[u64]
        ensures now { result.now ≡ self.now }
        ensures few { length result.now ≤ 3 }
    {
        &self.numbers[..self.count]
    }
}
