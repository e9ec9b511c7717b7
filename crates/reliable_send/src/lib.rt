//! The sending side of the reliable layer: text in pieces, sent in order of their ids, and sent again
//! until they are acknowledged.
#![tactic(auto)]

mod laws;
mod pieces;
mod runs;
mod side;

pub use laws::{due_shrinks, few_are_ready, ready_shrinks, timeout_is_kept};
pub use pieces::Piece;
pub use runs::{SendingEvent, run_sending};
pub use side::{SendSide, TextFull};
