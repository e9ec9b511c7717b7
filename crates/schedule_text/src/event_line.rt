//! The lines of a schedule.

use vpn_links::Event;

/// The longest HEX word of a schedule line, in characters: two for each byte of a datagram.
pub const LONGEST_BYTES: usize = 131_072;

/// The latest moment of an event, in milliseconds.
pub const LATEST_MOMENT: u64 = 1 << 52;

/// A line of a schedule.
#[derive(Drop)]
pub enum Line {
    /// An empty line, or a comment.
    Blank,
    /// `vpn-schedule 1`: the line that names the format.
    Header,
    /// `seed N`: the number that the random bytes of events come of.
    Seed(u64),
    /// `at MS` and what comes: an event.
    Step(Event),
    /// `end`: the schedule ends.
    End,
}
