//! Conditions over ranges of values: which truth values a condition may have on the rows whose
//! values lie between bounds.
//!
//! The contract that the crates above use is that of [`decide`]: if it returns
//! [`Verdict::NoRow`], the condition is TRUE on no row within the ranges, and if it returns
//! [`Verdict::EveryRow`], on each of them. In neither case has a row to be read.
//!
//! A verdict is made of the set of truth values that [`possible_truths`] returns. The sets of a
//! condition's parts determine its own, which their verdicts would not: NOT of a part that is TRUE
//! on no row may be TRUE on some.
//!
//! Read `specs/PossibleTruths.antt` first, then `column_range.rt`.
//!
//! ```
//! if decide(&query.cond, &ranges) == Verdict::NoRow {
//!     continue;
//! }
//! ```
#![tactic(auto)]

mod column_range;
mod laws;
mod truth_set;
mod truths;
mod verdict;

pub use column_range::ColumnRange;
pub use laws::{admitted_rows_are_within, rows_within_have_possible_truths};
pub use truth_set::TruthSet;
pub use truths::possible_truths;
pub use verdict::{Verdict, decide};
