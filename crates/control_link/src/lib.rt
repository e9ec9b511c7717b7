//! One control text in and one out, over datagrams that are lost, repeated, reordered and injected.
#![tactic(auto)]

mod blank;
mod envelope;
mod laws;
mod link;
mod runs;
mod sending;
mod wraps;

pub use blank::LinkBlank;
pub use envelope::Envelope;
pub use laws::{reads_a_front, reads_what_is_given};
pub use link::{ControlLink, LinkEnd};
pub use runs::{LinkEvent, LinkRun, LinkSetup, run_link};
pub use wraps::judge_wraps;
