//! Tests of scans and what they depend on: lanes, segments in both layouts, runs of programs, and
//! totals, with results worked out by hand. No crate depends on this one.
//!
//! Read `runs.rt`, a table of programs with what they select, and `totals.rt`, one of aggregates
//! with their totals.
#![tactic(auto)]

#[cfg(test)]
mod lanes;
#[cfg(test)]
mod layouts;
#[cfg(test)]
mod runs;
#[cfg(test)]
mod segments;
#[cfg(test)]
mod selected;
#[cfg(test)]
mod totals;
