//! Tables in memory, which are read once from a table file and queried many times.
//!
//! The contract that the crates above use: [`MemoryTable::read`] rejects exactly what
//! [`bw_file::TableReader`] rejects, which reads and validates each segment, and returns the table
//! of the bytes that were read. [`MemoryTable::segment`] borrows a segment, which means the rows of
//! that number, and validates nothing again.
//!
//! The table is stored column by column: all blocks of a column are back to back, so a scan of one
//! column reads no other. It takes a little more memory than the file has bytes.
//!
//! A [`ColumnarTable`] is a table of a file by columns: [`ColumnarTable::open`] reads the header, and
//! [`ColumnarTable::read_column`] one column. A column that wasn't read takes the memory of one
//! block, which each segment has, and has its minimum in each row. A [`SegmentWindow`] has some
//! segments of such a file at a time, and the memory of no more. [`FileColumns`] reads a column when
//! it is needed, and keeps the ranges of its values in groups of [`GROUP`] segments, unless these are
//! nearly alike. By them [`ColumnStore::settle`] finds where a condition is TRUE on no row, or on each.
//!
//! Read `specs/MemoryTable.antt` first, then `table.rt` and `reading.rt`; for files by columns
//! `specs/Columnar.antt`, then `opening.rt` and `columns.rt`, and `specs/Windows.antt` with
//! `windows.rt`.
//!
//! ```
//! let table = MemoryTable::read(rt.alloc(), &mut source)?;
//! if table.segments() > 0 && table.layout() == Layout::Planes {
//!     let first = table.segment::<Planes>(0)?;
//! }
//! ```
#![tactic(auto)]

mod column_ranges;
mod column_state;
mod column_store;
mod columnar;
mod columns;
mod file_columns;
mod filling;
mod laws;
mod layouts;
mod opening;
mod reading;
mod segment_window;
mod settling;
mod table;
mod windows;

pub use column_ranges::GROUP;
pub use column_state::ColumnState;
pub use column_store::ColumnStore;
pub use columnar::ColumnarTable;
pub use file_columns::FileColumns;
pub use laws::{
    a_cut_file_by_columns_is_refused, a_file_that_was_read_is_of_its_rows,
    a_written_file_has_no_damage, columns_are_those_of_the_file, stored_rows_are_those_of_the_file,
};
pub use opening::is_by_columns;
pub use segment_window::SegmentWindow;
pub use table::MemoryTable;
