//! Runs the command of the command line, and returns the exit status.
use crate::csv_commands::{run_direct, run_infer, run_load};
use crate::encode_command::{dialect_of, is_column_list, is_row_limit, run_encode};
use crate::explain::{explain_failure, explain_fallback};
use crate::failure::CommandFailure;
use crate::out_file::is_same_file;
use crate::program_commands::{run_certify, run_check, run_plan};
use crate::recode_command::run_recode;
use crate::session::run_session;
use crate::table_commands::{run_dump, run_info, run_query};
use bw_cli::{CommandArgs, Invocation, USAGE, parse_invocation, process_args};
use bw_file::ToWrite;
use bw_model::Fault;
use bw_shell::{By, FileForm, report};
use std::io::{self, IsTerminal};

/// Runs the command of the process's command line.
pub fn run(rt: &HostRuntime) -> u8 {
    match process_args(rt) {
        Ok(words) => run_args(rt, &words),
        Err(status) => status,
    }
}

fn run_args(rt: &HostRuntime, words: &[String]) -> u8 {
    match parse_invocation(rt, words) {
        Ok(asked) => run_invocation(rt, asked),
        Err(status) => status,
    }
}

fn run_invocation(rt: &HostRuntime, asked: Invocation<'_>) -> u8 {
    let Invocation {
        words,
        programs,
        is_explained,
    } = asked;
    if let Some(input) = input_as_output(rt, &words) {
        let _ = eprintln!(rt; "error: {} is an input, and can't be OUT too", input);
        return USAGE;
    }
    let told = is_explained || rt.stderr().is_terminal();
    if let Some(error) = encode_error(rt, &words) {
        let _ = eprintln!(rt; "error: {}", error);
        return USAGE;
    }
    match run_command(rt, words, &programs, told) {
        Ok(status) => status,
        Err(ended) if told && !is_explained && ended.is_closed_pipe() => quiet_status(&ended.fault),
        Err(ended) => print_fault(rt, &words, &ended, told),
    }
}

/// Returns the status of an error that isn't printed.
pub fn quiet_status(fault: &Fault) -> u8 {
    report(fault, &mut ToWrite::new(io::sink()))
}

/// Returns the input of a command that is the same file as its output, by any name.
fn input_as_output<'a>(rt: &HostRuntime, words: &CommandArgs<'a>) -> Option<&'a str> {
    let out = words.out()?;
    let inputs = [words.schema(), words.csv(), words.table(), words.numbers()];
    inputs
        .into_iter()
        .flatten()
        .find(|input| is_same_file(rt, input, out))
}

/// Returns what is wrong with the command line of `bw encode`, if something is.
fn encode_error(rt: &HostRuntime, words: &CommandArgs<'_>) -> Option<&'static str> {
    let CommandArgs::Encode {
        marks,
        selected,
        ..
    } = words
    else {
        return None;
    };
    if dialect_of(*marks).is_none() {
        Some("each mark is one byte, no line end, and differs from the others")
    } else if !is_column_list(*selected) {
        Some("--columns takes 1 to 64 numbers of fields, from 1, such as 3,1,5, each once")
    } else if !is_row_limit(*selected) {
        Some("--rows takes a whole number up to 16777216")
    } else if is_fields_taken(rt, words) {
        Some("FIELDS can't be CSV or OUT too")
    } else {
        None
    }
}

/// Returns whether the second file that `bw encode` writes is its input, or the first one.
fn is_fields_taken(rt: &HostRuntime, words: &CommandArgs<'_>) -> bool {
    match words {
        CommandArgs::Encode {
            csv,
            out,
            fields,
            ..
        } => out == fields || is_same_file(rt, csv, fields) || is_same_file(rt, out, fields),
        _ => false,
    }
}

/// Writes the line of the error that ended a command, and explains it if `told`. Returns the exit
/// status.
fn print_fault(
    rt: &HostRuntime,
    words: &CommandArgs<'_>,
    ended: &CommandFailure<'_>,
    told: bool,
) -> u8 {
    let status = report(&ended.fault, &mut ToWrite::new(rt.stderr()));
    if told {
        explain_failure(rt, words, ended);
    }
    status
}

/// Runs a command, and explains the fallback or an ignored certificate if `told`.
/// Returns the exit status.
fn run_command<'a>(
    rt: &HostRuntime,
    words: CommandArgs<'a>,
    programs: &[&'a str],
    told: bool,
) -> Result<u8, CommandFailure<'a>> {
    match words {
        CommandArgs::Session { stats, table } => return run_session(
            rt, programs, stats, table, told,
        ),
        CommandArgs::Direct { schema, csv, sql } => run_direct(rt, schema, csv, sql)?,
        CommandArgs::Infer { name, csv } => run_infer(rt, name, csv)?,
        CommandArgs::Load {
            order,
            layout,
            schema,
            csv,
            out,
        } => run_load(rt, order, layout, schema, csv, out)?,
        CommandArgs::Encode {
            marks,
            selected,
            order,
            layout,
            csv,
            out,
            fields,
        } => {
            let form = FileForm { order, layout };
            run_encode(rt, marks, selected, form, csv, out, fields)?
        }
        CommandArgs::Recode {
            order,
            table,
            schema,
            numbers,
            out,
        } => run_recode(rt, order, table, schema, numbers, out)?,
        CommandArgs::Query {
            program,
            stats,
            table,
            sql,
        } => {
            let served = run_query(rt, program, stats, table, sql)?;
            if told && matches!(served.by, By::Rows) {
                explain_fallback(rt, &words);
            }
        }
        CommandArgs::Info { verify, table } => run_info(rt, verify, table)?,
        CommandArgs::Dump { table } => run_dump(rt, table)?,
        CommandArgs::Plan { schema, sql } => run_plan(rt, schema, sql)?,
        CommandArgs::Certify {
            schema,
            sql,
            program,
        } => run_certify(rt, schema, sql, program, told)?,
        CommandArgs::Check { schema, sql, file } => run_check(rt, schema, sql, file)?,
    }
    Ok(0)
}
