//! Tests of hostile use across crates: refused memory; devices that move little, fail or never end;
//! and texts of maximal length or depth. No crate depends on this one.
//!
//! Read `calls.rt` for the calls, and `devices.rt` for the devices.
#![tactic(auto)]

#[cfg(test)]
mod calls;
#[cfg(test)]
mod device_calls;
#[cfg(test)]
mod devices;
#[cfg(test)]
mod lengths;
#[cfg(test)]
mod scarcity;
#[cfg(test)]
mod sessions;
