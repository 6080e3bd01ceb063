//! The order of a file's blocks.

/// The order in which a file has the blocks of a table. Each kind begins with its own eight bytes.
#[derive(Clone, Copy, Debug, PartialEq, Eq)]
pub enum FileOrder {
    /// Segment after segment, each with the blocks of all columns: a table file.
    ByRows,
    /// Column after column, each with its blocks in all segments.
    ByColumns,
}
