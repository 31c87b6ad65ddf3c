// The limits that several layers test.

/// The most bytes of a script's line before its line feed.
pub const LONGEST_LINE: usize = 140_000;

/// The most bytes of an entry in the journal.
pub const LONGEST_PAYLOAD: usize = 16_777_216;

/// The most bytes of a message's text.
pub const LONGEST_TEXT: usize = 65_536;

/// A week, in seconds: the longest hold and delay, and the usual time to live.
pub const SECONDS_OF_WEEK: u64 = 604_800;

/// The most bytes of an HTTP message, its head and body together.
pub const LONGEST_MESSAGE: usize = 2_097_152;

/// The most fields of an HTTP message's head.
pub const MOST_FIELDS: usize = 64;
