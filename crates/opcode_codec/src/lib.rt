//! The packets of OpenVPN: which bytes spell them, read and written.
#![tactic(auto)]

mod control;
mod fields;
mod opcodes;
mod packets;

pub use control::{ControlView, read_control, write_control};
pub use opcodes::{Opcode, first_byte};
pub use packets::{DataView, Packet, read_packet, write_data_head};
