//! Parses the arguments of the process.
ghost use Rattle.std.specs.Prelude.{◌≡◌, IfErr, IsTrue};
ghost use Rattle.bw_cli.specs.Arguments.{is_idle_status};

use crate::args::CommandArgs;
use crate::commands::{command_args, is_explained, matches_of, programs_of};
use bw_io::ToWrite;
use bw_model::{Fault, code};
use bw_report::report;
use clap::error::ErrorKind;
use clap::{ArgMatches, Error};
use std::{env, io};

/// The exit status of an invalid command line, and of a call for help.
pub const USAGE: u8 = 2;

/// A command with its arguments, the program files of a session, and whether explanations are asked
/// for.
#[derive(Drop)]
pub struct Invocation<'a> {
    pub words: CommandArgs<'a>,
    pub programs: Vec<&'a str>,
    pub is_explained: bool,
}

/// Returns the arguments of the process, or the exit status if there are none that can be read: 2
/// if one isn't UTF-8, 6 if memory is refused. The reason is written to standard error first.
pub fn process_args(rt: &HostRuntime) -> Result<Vec<String>, u8>
    ensures { IfErr result (λ status. IsTrue (is_idle_status status)) }
{
    match env::args(rt) {
        Err(error) if error.kind() == io::ErrorKind::OutOfMemory => Err(out_of_memory(rt)),
        Err(_) => {
            let _ = eprintln!(rt; "error: an argument is not UTF-8");
            Err(USAGE)
        }
        Ok(words) => match words.collect(rt.alloc()) {
            Ok(words) => Ok(words),
            Err(_) => Err(out_of_memory(rt)),
        },
    }
}

/// Returns the command of a command line, whose first argument is the program's name. If it has
/// none, writes the help, the version or the usage error in its place, and returns the exit status.
pub fn parse_invocation<'a>(rt: &HostRuntime, words: &'a [String]) -> Result<Invocation<'a>, u8>
    ensures { IfErr result (λ status. IsTrue (is_idle_status status)) }
{
    match matches_of(rt.alloc(), words) {
        Ok(matches) => invocation_in(rt, &matches),
        Err(error) => Err(print_outcome(rt, &error)),
    }
}

/// Returns the command that was parsed.
fn invocation_in<'a>(rt: &HostRuntime, matches: &ArgMatches<'a>) -> Result<Invocation<'a>, u8>
    ensures { IfErr result (λ status. IsTrue (is_idle_status status)) }
{
    let Some(words) = command_args(matches) else {
        return Err(USAGE);
    };
    match programs_of(rt.alloc(), matches) {
        Ok(programs) => Ok(Invocation {
            words,
            programs,
            is_explained: is_explained(matches),
        }),
        Err(_) => Err(out_of_memory(rt)),
    }
}

/// Reports that memory was refused, and returns the exit status.
fn out_of_memory(rt: &HostRuntime) -> u8
    ensures { result ≡ 6 }
{
    report(
        &Fault::new(code::OUT_OF_MEMORY),
        &mut ToWrite::new(rt.stderr()),
    )
}

/// Writes what `clap` returned in place of a command, and returns the exit status. The version goes
/// to standard output with status 0; help and usage errors go to standard error.
fn print_outcome(rt: &HostRuntime, error: &Error) -> u8
    ensures { IsTrue (is_idle_status result) }
{
    match error.kind() {
        ErrorKind::DisplayVersion => {
            if rt.print(error).is_ok() {
                0
            } else {
                report(
                    &Fault::new(code::WRITE_FAILED),
                    &mut ToWrite::new(rt.stderr()),
                )
            }
        }
        ErrorKind::OutOfMemory => out_of_memory(rt),
        _ => {
            let _ = rt.eprint(error);
            USAGE
        }
    }
}
