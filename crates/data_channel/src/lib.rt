//! Data packets of one key session: sealed in order, opened and judged by everything that was accepted.
#![tactic(auto)]

mod channel;
mod keys;
mod laws;
mod runs;

pub use channel::{DataChannel, DataFault};
pub use laws::channels_are_of_keys;
pub use runs::{ChannelAnswer, ChannelEvent, ChannelSetup, run_channel};
