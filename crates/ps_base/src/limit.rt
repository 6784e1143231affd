//! Limits that several crates share.

/// How many battles start at the most: they have the numbers from 1 to this one.
pub const MOST_BATTLES: u32 = 65_536;

/// How many bytes a client's text has at the most.
pub const MOST_TEXT: usize = 8_192;
