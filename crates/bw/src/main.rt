//! The program `bw`: `main` exits with the status that `run` returns.
//!
//! `run` chooses the command. Each, in one of the modules of commands or in `session`, opens the
//! files that the command line names and makes one call of `bw_shell` on them. Results go to
//! standard output, and the table file of a load, an encoding or a recoding to the file OUT. An error
//! is one line on standard error, as `bw: 404 unknown column at byte 7`.
//!
//! The exit status is 0 for success, 2 for an invalid command line, 3 for an error in an input, 4
//! for one of a certificate or for a condition without a plan, 5 for one of an I/O device, and 6
//! for out of memory. At a terminal, or after `--explain`, `explain` reads files again and adds
//! lines of `bw_explain`. `bw_cli` has the command line.
#![tactic(auto)]

mod csv_commands;
mod encode_command;
mod explain;
mod failure;
mod file_at;
mod in_file;
mod opened;
mod out_file;
mod out_stream;
mod program_commands;
mod recode_command;
mod run;
mod session;
mod table_commands;

use std::process::ExitCode;

fn main(rt: HostRuntime) -> ExitCode {
    ExitCode::from(run::run(&rt))
}
