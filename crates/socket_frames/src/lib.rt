//! Frames on the sockets of the TLS engine and the packet device, read from a stream in whatever pieces it
//! comes.
#![tactic(auto)]

mod frames;
mod reader;

pub use frames::{Frame, FrameFault, write_frame};
pub use reader::{FrameReader, Frames, read_frames, what_is_read_stays};
