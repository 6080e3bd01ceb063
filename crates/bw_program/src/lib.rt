//! Scan programs: short lists of instructions over registers of 512 lanes, which compute for each
//! row of a segment whether it is selected.
//!
//! The contract that the crates above use: a [`Program`] is valid by its type. `specs/Machine.antt`
//! defines what it does with the lanes of a segment, and mentions only assignments. A skip is taken
//! if and only if its register is 0 in every lane, as BitWeaving (Li and Patel) stops a comparison
//! early.
//!
//! Read `instr.rt` first, then `specs/Machine.antt`. `step.rt` has the steps in which a run
//! executes the instructions, one or two at a time.
#![tactic(auto)]

mod instr;
mod laws;
mod line;
mod parse;
mod print;
mod program;
mod step;
mod valid;

pub use instr::{BitIndex, ColumnIndex, Instr, Register, SliceIndex};
pub use laws::{places_are_reached, programs_are_read_as_spelled, runs_go_on};
pub use print::canonical_texts_spell_programs;
pub use program::Program;
pub use step::Step;
