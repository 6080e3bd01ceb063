//! The prover: a certificate for a scan program and a condition, whoever wrote the program.
//!
//! The contract that the crates above use: [`prove`] returns on every program and condition, and so
//! do [`Prover`]'s functions, between which a planner can write a program for the condition. The
//! chains of a certificate that they return name columns of the schema. This crate doesn't guarantee
//! that the checker accepts the certificate: the checker checks each line itself.
//!
//! The condition's lines are written by recursion on the condition; then one walk over the
//! instructions finds each register's node. Nothing is guessed, and nothing is taken back. The
//! diagrams and the products of nodes are those of Bryant (Graph-Based Algorithms for Boolean
//! Function Manipulation, 1986): within one order of variables, equal functions are equal nodes. The
//! order of variables and the chains are this project's own.
//!
//! Read `prover.rt` first, then `condition.rt`, `walk.rt` and `join.rt`; `facts.rt` has what their
//! lines reference.
#![tactic(auto)]

mod chain;
mod columns;
mod comparison;
mod condition;
mod emit;
mod facts;
mod join;
mod ledger;
mod nodes;
mod order;
mod product;
mod prover;
mod unproved;
mod walk;
mod witness;

pub use comparison::{Comparison, compare};
pub use product::MAX_PRODUCTS;
pub use prover::{Prover, prove};
pub use unproved::{Counted, Unproved, Witness};
