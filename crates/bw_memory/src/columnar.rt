//! Tables of files by columns, of which a column is read when it is needed.
ghost use Rattle.std.specs.Prelude.{◌≤◌};

use crate::table::MemoryTable;

/// A table of a file by columns. Until a column is read, each row of it has the column's minimum.
#[derive(Drop)]
pub struct ColumnarTable {
    pub(crate) table: MemoryTable,
    /// The number of bytes of the file's header.
    pub(crate) head: u64,
    ghost short: { head ≤ 20000 },
}
