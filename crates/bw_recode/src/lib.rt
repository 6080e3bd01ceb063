//! A table file with other numbers in place of its codes.
//!
//! A text of numbers has, for each column of a table in order, either a line `KEEP`, or a line
//! `CODES` and then a line for each of the column's codes, from 0: the number that the code becomes,
//! or `NULL`. Each is a field of the new column, as a CSV text would have it. [`recode`] writes the
//! table whose rows are those of a table file, so changed, under another schema.
//!
//! The contract that the crates above use is that of [`recode`], and for files by columns that of
//! [`recode_by_columns`]. Read `specs/Numbers.antt` for the text of numbers, then
//! `specs/Recode.antt` and `specs/ColumnarRecode.antt`.
#![tactic(auto)]

mod apply;
mod columnar_call;
mod numbers;
mod recode_call;

pub use columnar_call::recode_by_columns;
pub use recode_call::recode;
