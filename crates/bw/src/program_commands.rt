//! The commands over a schema and a program file: `bw plan`, `bw certify` and `bw check`.
use crate::explain::explain_ignored;
use crate::failure::{CommandFailure, or_failure, or_write_failure};
use crate::opened::{open, open_both, read_program, read_schema};
use crate::out_stream::OutStream;
use bw_file::ToWrite;
use bw_shell::{Accepted, accepted_line, certify_text, check_text, plan_text};

/// Runs `bw plan`.
pub fn run_plan<'a>(
    rt: &HostRuntime,
    schema_path: &'a str,
    sql: &str,
) -> Result<(), CommandFailure<'a>> {
    let schema = open(rt, schema_path)?;
    let schema = read_schema(rt, schema_path, schema)?;
    let mut out = OutStream::new(rt.stdout());
    let done = plan_text(
        rt.alloc(),
        &schema,
        sql.as_bytes(),
        &mut ToWrite::new(&mut out),
    );
    or_write_failure(done, &[], out.error())
}

/// Runs `bw certify`. Says if a certificate was ignored, if `told`.
pub fn run_certify<'a>(
    rt: &HostRuntime,
    schema_path: &'a str,
    sql: &str,
    program_path: &'a str,
    told: bool,
) -> Result<(), CommandFailure<'a>> {
    let (schema, program) = read_both(rt, schema_path, program_path)?;
    write_certified(rt, &schema, sql, &program)?;
    if told {
        explain_ignored(rt, program_path, &program);
    }
    Ok(())
}

/// Writes a program with its certificate to standard output.
fn write_certified(
    rt: &HostRuntime,
    schema: &[u8],
    sql: &str,
    program: &[u8],
) -> Result<(), CommandFailure<'static>> {
    let mut out = OutStream::new(rt.stdout());
    let done = certify_text(
        rt.alloc(),
        schema,
        sql.as_bytes(),
        program,
        &mut ToWrite::new(&mut out),
    );
    or_write_failure(done, &[], out.error())
}

/// Runs `bw check`.
pub fn run_check<'a>(
    rt: &HostRuntime,
    schema_path: &'a str,
    sql: &str,
    file_path: &'a str,
) -> Result<(), CommandFailure<'a>> {
    let (schema, file) = read_both(rt, schema_path, file_path)?;
    let accepted = or_failure(check_text(rt.alloc(), &schema, sql.as_bytes(), &file), &[])?;
    write_accepted(rt, &accepted)
}

/// Writes the line of an accepted program file to standard output.
fn write_accepted(rt: &HostRuntime, accepted: &Accepted) -> Result<(), CommandFailure<'static>> {
    let mut out = OutStream::new(rt.stdout());
    let told = accepted_line(accepted, &mut ToWrite::new(&mut out));
    or_write_failure(told, &[], out.error())
}

/// Returns the bytes of a schema file and of a program file. Both are opened before either is read,
/// and read in this order.
fn read_both<'a>(
    rt: &HostRuntime,
    schema_path: &'a str,
    program_path: &'a str,
) -> Result<(Vec<u8>, Vec<u8>), CommandFailure<'a>> {
    let (schema, program) = open_both(rt, schema_path, program_path)?;
    let schema = read_schema(rt, schema_path, schema)?;
    let program = read_program(rt, program_path, program)?;
    Ok((schema, program))
}
