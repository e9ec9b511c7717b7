//! The key exchange message of key method 2, and the peer info in it.
#![tactic(auto)]

mod info;
mod message;
mod reading;
mod stop;
mod writing;

pub use info::{asks_push, choose_cipher, info_value};
pub use message::{Km2, Km2Bad, Km2Read, Km2View, Km2ViewRead, Source};
pub use reading::{read_km2, read_km2_view};
pub use writing::{client_message_is_read, server_message, write_km2};
