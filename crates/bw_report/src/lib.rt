//! The reports of a call beside its result: the line of an error with its exit status ([`report`]),
//! scan statistics ([`Served`], [`stats_line`], [`settled_line`]), and the numbers of an accepted
//! program file ([`accepted_line`]).
//!
//! Read `specs/Lines.antt` first, which has the texts of the lines.
#![tactic(auto)]

mod lines;
mod served;

pub use lines::{accepted_line, report, settled_line, stats_line};
pub use served::{By, Served};
