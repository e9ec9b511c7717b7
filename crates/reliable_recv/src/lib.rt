//! The receiving side of the reliable layer: payloads in the order of their ids, each once, and the
//! acknowledgements that wait.
#![tactic(auto)]

mod receiving;
mod runs;

pub use receiving::{Got, RecvSide};
pub use runs::{read_all, reads_a_prefix, reads_in_order, reads_packets};
