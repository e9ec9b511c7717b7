//! Control packets wrapped under a static key, so that nobody without it can read or make one.
#![tactic(auto)]

mod bytes;
mod datagram;
mod half;
mod header;
mod static_key;
mod wrapper;
mod wrapping;

pub use datagram::Datagram;
pub use header::Header;
pub use static_key::{KeyFault, KeyKind, StaticKey, read_static_key};
pub use wrapper::{Wrapper, unwraps_what_the_other_end_wrapped};
pub use wrapping::{Opened, Unwrap, Wrap, unwrapping_is_what_unwraps};
