// How a conversation ended, before its faults are counted.

/// How a conversation ended that the connector didn't break.
#[derive(Clone, Copy)]
pub enum Outcome {
    /// The file was poured, of so many bytes.
    Whole(u64),
    Missing,
    Refused(u16),
    TooLong(u64),
    /// What came is no answer that can be read.
    Unreadable,
    NoMemory,
}
