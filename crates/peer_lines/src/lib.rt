//! What belongs to one key session: its control link, its plain text and its data channel.
#![tactic(auto)]

mod blank;
mod channels;
mod control;
mod data;
mod laws;
mod open_link;
mod plain;
mod reading;

pub use blank::SessionBlank;
pub use channels::SessionChannels;
pub use laws::{channels_stand_on, links_go_on};
