//! Runs of scan programs on segments.
//!
//! The contract that the crates above use is that of [`run_in`]: its plane and its counts are those
//! of the segment machine of `bw_program` on the segment's lanes, whatever the segment's layout and
//! whatever was in the registers. [`run_segment`] does the same in registers of its own.
//!
//! Read `machine.rt` first, then `specs/Run.antt`.
#![tactic(auto)]

mod laws;
mod machine;
mod planes;
mod run;

pub use laws::{
    instructions_write_their_registers, registers_hold_all_lanes, runs_begin_with_zeros,
    runs_come_to_the_end, skips_leave_registers,
};
pub use run::{Counts, Registers, registers, run_in, run_segment};
