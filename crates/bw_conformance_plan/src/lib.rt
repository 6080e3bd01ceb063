//! Tests of the planner across crates: the checker validates proposals for generated conditions,
//! and their programs run over segments in both layouts, compared with the condition's truth row by
//! row. What ranges tell of generated conditions is compared with their truth on all rows within. No
//! crate depends on this one.
//!
//! Read `rows.rt` first, which tests a condition over rows. `test_conditions` has the program
//! answer many more from table files, and `cases/plans.md` says how much is read.
#![tactic(auto)]

#[cfg(test)]
mod column_comparisons;
#[cfg(test)]
mod generated;
#[cfg(test)]
mod lists;
#[cfg(test)]
mod orders;
#[cfg(test)]
mod ranges;
#[cfg(test)]
mod rows;
