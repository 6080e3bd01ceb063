//! The planner: a scan program for a condition, with a certificate for the checker.
//!
//! The contract that the crates above use: [`propose`] and [`propose_in_order`] return on every
//! condition of a schema. A program that they give fits the schema, the certificate's chains name
//! columns of the schema, and an error has no place. That a proposal selects the right rows, and
//! that what its certificate states is true, is no promise of this crate: the checker checks each
//! line itself, and a proposal that it doesn't accept isn't used.
//!
//! It is a compiler, which knows nothing of diagrams: `formula.rt` reads a condition, and
//! `truths.rt` writes the instructions of its parts, for the truths that they may have
//! (`possible.rt`). The certificate is found by `bw_prover`. If a skip can't be proved, or a limit
//! is passed, the condition is compiled again with fewer of them (`plan.rt`).
//!
//! A program compares codes byte by byte from the top, as in ByteSlice (Feng, Lo, Kao and Xu), and
//! skips stop a comparison early, as in BitWeaving (Li and Patel). Columns are compared with one
//! another bit by bit: the top bits from the top down, with skips, and the others, of many or wide
//! columns, from the lowest one up, which takes fewer nodes.
//!
//! Read `planner.rt` first, then `formula.rt`, `code.rt` and `truths.rt`. `limits.rt` has all
//! numbers by which it is tuned.
#![tactic(auto)]

mod code;
mod columns;
mod comparison;
mod formula;
mod limits;
mod plan;
mod planner;
mod possible;
mod registers;
mod relations;
mod select;
mod sets;
mod skips;
mod truths;
mod unplanned;

pub use planner::{Proposal, propose, propose_in_order, why_unplanned};
pub use unplanned::Unplanned;
