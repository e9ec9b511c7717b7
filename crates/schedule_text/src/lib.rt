//! The lines of the text files that the program reads and writes.
#![tactic(auto)]

mod draws;
mod effect_line;
mod event_line;
mod event_reading;
mod event_words;
mod kind;
mod note_text;
mod pieces;
mod reading;
mod route_line;
mod seal_lines;
mod words;

pub use draws::draw;
pub use effect_line::write_effect_line;
pub use event_line::{LATEST_MOMENT, LONGEST_BYTES, Line};
pub use event_reading::read_event_line;
pub use kind::TextKind;
pub use reading::read_route_line;
pub use route_line::{GREATEST_PEER, LONGEST_LINE, LONGEST_SEAL, LONGEST_UNSEAL, RouteLine};
