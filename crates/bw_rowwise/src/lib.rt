//! Conditions and aggregates of a query, evaluated straight from their meaning, without a program.
//!
//! The contracts that the crates above use: a [`Filter`] finds the matching rows among 512 at once,
//! those of a segment or others that were gathered, [`Columns`] have the values of such rows, and
//! an [`Accumulator`] totals values that come one at a time. `bw_aggregate` adds to it the selected
//! rows of a segment without reading them one by one.
//!
//! The source of the rules is SQL-92: its predicates, search conditions and set functions, which
//! the `specs/` of `bw_model` define. Read `condition.rt` first, then `accumulator.rt`.
//!
//! [`truth`], [`select`] and [`aggregate`] are the library's calls for rows in memory, and what
//! tests compare the faster ways with:
//!
//! ```
//! let kept = select(rt.alloc(), &query.cond, &rows)?;
//! let sum = aggregate(&Item::Sum(3), &kept);
//! ```
#![tactic(auto)]

mod accumulator;
mod column_lanes;
mod columns;
mod condition;
mod filter;
mod hash;
mod lanes;
mod logic;
mod numbers;
mod planes;
mod prepared;
mod total;
mod truths;

pub use accumulator::{Accumulator, aggregate};
pub use columns::Columns;
pub use condition::{matches_all, select, truth};
pub use filter::Filter;
