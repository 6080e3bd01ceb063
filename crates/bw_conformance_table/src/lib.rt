//! Tests of sources and sinks over memory, and of those that fail or move little; and of table
//! files read and written through them, whole and damaged. No crate depends on this one.
//!
//! Read `files.rt`, which has table files worked out byte by byte, then `damage.rt`.
#![tactic(auto)]

#[cfg(test)]
mod damage;
#[cfg(test)]
mod device;
#[cfg(test)]
mod files;
#[cfg(test)]
mod read_ahead;
#[cfg(test)]
mod sources;
