//! The commands over a table file that is read once: `bw query`, `bw info` and `bw dump`.
use crate::failure::{CommandFailure, or_failure, or_write_failure};
use crate::file_at::FileAt;
use crate::in_file::InFile;
use crate::opened::{open, read_ahead, read_program};
use crate::out_stream::OutStream;
use bw_file::ToWrite;
use bw_memory::{ColumnarTable, MemoryTable, is_by_columns};
use bw_model::{Fault, code};
use bw_shell::{
    Served, answer, answer_by_columns, dump, dump_by_columns, info, info_by_columns, stats_line,
};

/// Runs `bw query`. The files are opened before any is read, and the program file is read first.
/// Writes the scan statistics, if `stats`.
pub fn run_query<'a>(
    rt: &HostRuntime,
    program: Option<&'a str>,
    stats: bool,
    table_path: &'a str,
    sql: &str,
) -> Result<Served, CommandFailure<'a>> {
    let mut table = open(rt, table_path)?;
    let program = program_given(rt, program)?;
    let served = if is_by_columns(&mut FileAt::new(&mut table)) {
        answer_at(rt, table_path, table, sql, program.as_deref())?
    } else {
        answer_from(rt, table_path, table, sql, program.as_deref())?
    };
    if stats {
        or_failure(stats_line(&served, &mut ToWrite::new(rt.stderr())), &[])?;
    }
    Ok(served)
}

/// Returns the bytes of the program file that the command line names, if it names one.
fn program_given<'a>(
    rt: &HostRuntime,
    program: Option<&'a str>,
) -> Result<Option<Vec<u8>>, CommandFailure<'a>> {
    match program {
        Some(path) => Ok(Some(read_program(rt, path, open(rt, path)?)?)),
        None => Ok(None),
    }
}

/// Runs a statement over a table file, and writes the result to standard output.
fn answer_from<'a>(
    rt: &HostRuntime,
    path: &'a str,
    mut table: InFile,
    sql: &str,
    program: Option<&[u8]>,
) -> Result<Served, CommandFailure<'a>> {
    let mut source = read_ahead(rt, &mut table)?;
    let mut out = OutStream::new(rt.stdout());
    let mut sink = ToWrite::new(&mut out);
    let done = answer(rt.alloc(), &mut source, sql.as_bytes(), program, &mut sink);
    drop(sink);
    drop(source);
    or_write_failure(done, &[(path, table.reads())], out.error())
}

/// Runs a statement over a file by columns, and writes the result to standard output.
fn answer_at<'a>(
    rt: &HostRuntime,
    path: &'a str,
    mut table: InFile,
    sql: &str,
    program: Option<&[u8]>,
) -> Result<Served, CommandFailure<'a>> {
    let mut device = FileAt::new(&mut table);
    let mut out = OutStream::new(rt.stdout());
    let mut sink = ToWrite::new(&mut out);
    let done = answer_by_columns(rt.alloc(), &mut device, sql.as_bytes(), program, &mut sink);
    drop(sink);
    drop(device);
    or_write_failure(done, &[(path, table.reads())], out.error())
}

/// Runs `bw info`. Reads the whole file first, if `verify`.
pub fn run_info<'a>(
    rt: &HostRuntime,
    verify: bool,
    table_path: &'a str,
) -> Result<(), CommandFailure<'a>> {
    let mut table = open(rt, table_path)?;
    if is_by_columns(&mut FileAt::new(&mut table)) {
        if verify {
            let done = read_columns(rt, &mut table);
            or_failure(done, &[(table_path, table.reads())])?;
        }
        return info_at(rt, table_path, table);
    }
    if verify {
        let done = read_segments(rt, &mut table);
        or_failure(done, &[(table_path, table.reads())])?;
    }
    let mut source = read_ahead(rt, &mut table)?;
    let mut out = OutStream::new(rt.stdout());
    let done = info(rt.alloc(), &mut source, &mut ToWrite::new(&mut out));
    drop(source);
    or_write_failure(done, &[(table_path, table.reads())], out.error())
}

/// Reads a file by columns completely. Errors: those of the file.
fn read_columns(rt: &HostRuntime, table: &mut InFile) -> Result<(), Fault> {
    ColumnarTable::read(rt.alloc(), &mut FileAt::new(table))?;
    Ok(())
}

/// Reads a table file completely, and goes back to its first byte. Errors: those of the file.
fn read_segments(rt: &HostRuntime, table: &mut InFile) -> Result<(), Fault> {
    let mut source = match read_ahead(rt, table) {
        Ok(source) => source,
        Err(failure) => return Err(failure.fault),
    };
    let done = MemoryTable::read(rt.alloc(), &mut source);
    drop(source);
    match done {
        Ok(_) if table.rewind() => Ok(()),
        Ok(_) => Err(Fault::new(code::READ_FAILED)),
        Err(fault) => Err(fault),
    }
}

/// Writes the header of a file by columns as text.
fn info_at<'a>(
    rt: &HostRuntime,
    path: &'a str,
    mut table: InFile,
) -> Result<(), CommandFailure<'a>> {
    let mut device = FileAt::new(&mut table);
    let mut out = OutStream::new(rt.stdout());
    let done = info_by_columns(rt.alloc(), &mut device, &mut ToWrite::new(&mut out));
    drop(device);
    or_write_failure(done, &[(path, table.reads())], out.error())
}

/// Runs `bw dump`.
pub fn run_dump<'a>(rt: &HostRuntime, table_path: &'a str) -> Result<(), CommandFailure<'a>> {
    let mut table = open(rt, table_path)?;
    if is_by_columns(&mut FileAt::new(&mut table)) {
        return dump_at(rt, table_path, table);
    }
    let mut source = read_ahead(rt, &mut table)?;
    let mut out = OutStream::new(rt.stdout());
    let done = dump(rt.alloc(), &mut source, &mut ToWrite::new(&mut out));
    drop(source);
    or_write_failure(done, &[(table_path, table.reads())], out.error())
}

/// Writes all rows of a file by columns.
fn dump_at<'a>(
    rt: &HostRuntime,
    path: &'a str,
    mut table: InFile,
) -> Result<(), CommandFailure<'a>> {
    let mut device = FileAt::new(&mut table);
    let mut out = OutStream::new(rt.stdout());
    let done = dump_by_columns(rt.alloc(), &mut device, &mut ToWrite::new(&mut out));
    drop(device);
    or_write_failure(done, &[(path, table.reads())], out.error())
}
