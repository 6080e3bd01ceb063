//! Tests of the prover across crates: whatever it returns is compared with what the checker says,
//! with runs over segments, and with the condition's truth row by row. No crate depends on this one.
//!
//! Read `case.rt` first. `programs.rt` has programs of the planner, `written.rt` those of other
//! writers, and `changes.rt` changes one instruction of each.
#![tactic(auto)]

#[cfg(test)]
mod case;
#[cfg(test)]
mod changes;
#[cfg(test)]
mod conditions;
#[cfg(test)]
mod groups;
#[cfg(test)]
mod limits;
#[cfg(test)]
mod programs;
#[cfg(test)]
mod reasons;
#[cfg(test)]
mod tables;
#[cfg(test)]
mod writer;
#[cfg(test)]
mod written;
