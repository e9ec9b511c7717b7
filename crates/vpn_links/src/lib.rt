//! What goes into a core of the program and what comes out of it: events, effects, notes, the outbox that a
//! step fills, and the outside that the core is run against.
#![tactic(auto)]

mod control_text;
mod effects;
mod events;
mod links;
mod machine;
mod mem_links;
mod notes;
mod outbox;
mod store;

pub use control_text::ControlText;
pub use effects::Effect;
pub use events::{Event, FileAnswer, Kind};
pub use links::{LinkFault, Links, Plan};
pub use machine::Machine;
pub use mem_links::MemLinks;
pub use notes::Note;
pub use outbox::Outbox;
