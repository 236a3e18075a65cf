//! How the service of a stream ends.

/// Why a stream's messages end.
#[derive(Clone, Copy, PartialEq, Eq)]
pub enum End {
    /// Nothing came after the last message.
    Closed,
    /// The stream ended within a message.
    Unfinished,
    /// What came can't be the head of a message, or says something wrong of its body.
    BadHead,
    /// A head or a body above its limit.
    TooLarge,
    /// A hundred messages were answered.
    Hundred,
}

/// What stopped the service of a stream before its end.
#[derive(Clone, Copy, PartialEq, Eq)]
pub enum StreamFault {
    /// Out of memory for the window of the stream.
    Memory,
    /// The reader answered an error.
    Read,
    /// The writer answered an error, or took no byte.
    Write,
}

/// How many answers were written, and why the stream ended.
#[derive(Clone, Copy, PartialEq, Eq)]
pub struct Served {
    pub answered: u32,
    pub end: End,
}
