//! A data packet of the OpenVPN wire protocol, sealed and opened under any authenticated encryption.
#![tactic(auto)]

mod head;
mod packets;

pub use packets::{
    open_packet, opening_is_what_opens, opens_once, opens_what_was_sealed, seal_packet,
};
