//! Why reading stops before the end of a message.

/// Why a message could not be read.
#[derive(Clone, Copy, Debug, PartialEq, Eq)]
pub enum Stop {
    /// The bytes end within it.
    Cut,
    /// No message has the byte at this place.
    Wrong(usize),
}
