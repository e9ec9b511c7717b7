//! What is wrong with a line.

/// The fault of a line. Faults are judged in the order Long, Header, Words, Number, Address,
/// Digits.
#[derive(Clone, Copy, Debug, PartialEq, Eq)]
pub enum TextKind {
    /// The file does not begin with the line that names its format.
    Header,
    /// The first word is unknown, or there are too few or too many words behind it.
    Words,
    /// A number is not decimal, or too large.
    Number,
    /// An address, or a prefix, is none.
    Address,
    /// Bytes are not written as an even number of hexadecimal digits, or as `-`.
    Digits,
    /// The line or a word of it is too long, or the file is.
    Long,
    /// The file ends without the line that ends it.
    NoEnd,
}
