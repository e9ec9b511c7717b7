//! The plain values that every part of the program speaks of, and the files and sinks outside it.
#![tactic(auto)]

mod address;
mod bytes;
mod errors;
mod file_names;
mod lines;
mod lists;
mod memory;
mod names;
mod number;
mod outside;
mod steps;
mod writing;

pub use address::{Addr, Ip4, Prefix, read_ip4, split_once};
pub use bytes::{Bytes, Text};
pub use errors::{NoMemory, Or};
pub use file_names::{BadName, file_name};
pub use lines::next_line;
pub use lists::{RouteList, TextList};
pub use memory::{MemFiles, MemSink};
pub use names::{
    Acks, Cause, Cid, Cipher, Conn, Draw, Freshness, Malformed, Moment, Place, Policy, Role, Sid,
    Timers,
};
pub use number::{read_number, reads_decimal_again};
pub use outside::{Failed, FileFault, Files, Sink};
pub use steps::Steps;
pub use writing::{reads_ip4_again, write_at, write_ip4};
