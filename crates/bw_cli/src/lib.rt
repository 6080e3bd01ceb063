//! The command line: the commands, their arguments and their help.
//!
//! [`parse_invocation`] parses the arguments by the kit's `clap`, which also writes help and usage
//! errors. Which command a command line spells is tested on the program. Proved are the statuses of
//! command lines that run nothing, and which argument of a command each call returns
//! (`specs/Arguments.antt`).
#![tactic(auto)]

mod args;
mod commands;
mod invocation;

pub use args::{CommandArgs, Marks, Selected};
pub use invocation::{Invocation, USAGE, parse_invocation, process_args};
