//! The number of a plane's lanes.

/// The lanes of a plane, and the rows of each segment but a table's last one: 512, eight words of
/// 64 bits.
pub const LANES: usize = 512;
