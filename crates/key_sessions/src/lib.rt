//! The key sessions of one client. The type of a key session says how far its negotiation has come, so
//! that only one with keys has any; the slots keep all sessions of a client, and tell which may be used.
#![tactic(auto)]

mod changes;
mod laws;
mod looks;
mod name;
mod places;
mod runs;
mod session;
mod slot;
mod slots;
mod text;

pub use laws::{sessions_are_changed_one_by_one, sessions_are_open_without_keys};
pub use name::NameFault;
pub use runs::{BareText, SlotAnswer, SlotEvent, SlotSetup, run_slots};
pub use session::{KeySession, Keyed, Named, NoCipher, Opening, cipher_chosen, kid_of};
pub use slot::{Newest, SessionSeen, Stage};
pub use slots::Slots;
pub use text::SessionText;
