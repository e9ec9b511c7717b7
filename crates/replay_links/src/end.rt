//! Why a replay gets no further event.

use schedule_text::TextKind;

/// Why an event did not come.
#[derive(Clone, Copy, Debug, PartialEq, Eq)]
pub enum ReplayEnd {
    /// There is no schedule of that name.
    Missing,
    /// It could not be read.
    Failed,
    /// A line of it is refused.
    Refused {
        /// The number of the line, from 1. NoEnd has that of the last line, and 0 where there is no line.
        line: u64,
        /// Its fault.
        kind: TextKind,
    },
}
