//! Some segments of a file by columns at a time.
ghost use Rattle.std.specs.Prelude.{◌≤◌};

use crate::table::MemoryTable;

/// Some segments of a file by columns, one after another, of which some columns are read. In each
/// other column each row has the minimum. The next segments take its place, and its memory.
#[derive(Drop)]
pub struct SegmentWindow {
    pub(crate) table: MemoryTable,
    /// The number of the file's segments before its own.
    pub(crate) first: u32,
    /// The most segments that it has.
    pub(crate) most: u32,
    /// What the blocks of a column are read into: those that it had before, so that their memory is
    /// as long as is needed, and isn't cleared first.
    pub(crate) spare: Vec<Vec<u8>>,
    ghost some: { 1 ≤ most },
    ghost early: { first ≤ 32768 },
}
