//! The limits of a table.

/// The most prefixes of a table.
pub const MOST_PREFIXES: usize = 2_048;

/// The most seconds of a window: a day.
pub const MOST_WINDOW: u32 = 86_400;
