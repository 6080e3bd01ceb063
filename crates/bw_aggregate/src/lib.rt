//! Totals of the selected rows of a table, segment by segment, without reading rows one by one.
//!
//! The contract that the crates above use: [`add_selected`] adds the selected rows of a segment to
//! an `Accumulator` of `bw_rowwise`. COUNT counts the selection's ones. SUM, MIN and MAX ask the
//! segment for the sum, the minimum and the maximum of a column's codes in the selected rows that
//! aren't null, which each layout computes in its own way. [`add_gathered`] adds selected rows that
//! aren't in a segment, but were gathered by columns. Read `selected.rt` first, then `column.rt`.
//!
//! [`Totals`] is the library's call for one aggregate over a caller's own segments:
//!
//! ```
//! let mut totals = Totals::new(&Item::Max(0));
//! for (segment, plane) in segments.iter().zip(&planes) {
//!     totals.add(segment, plane);
//! }
//! let greatest = totals.finish();
//! ```
#![tactic(auto)]

mod column;
mod gathered;
mod laws;
mod selected;
mod totals;

pub use gathered::add_gathered;
pub use laws::first_rows_are_within;
pub use selected::add_selected;
pub use totals::Totals;
