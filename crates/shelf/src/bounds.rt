// The bounds of every shelf.

pub const MOST_PROFILES: u32 = 64;

// The largest value of a quarter hour, in tenths of a watt.
pub const LARGEST_VALUE: u16 = 9_999;
