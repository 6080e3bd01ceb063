//! The command `bw recode`.
use crate::failure::{CommandFailure, or_failure, or_write_failure};
use crate::opened::{open, read_numbers, read_schema, read_table};
use crate::out_file::OutFile;
use bw_file::FileOrder;
use bw_io::{BytesAt, write_whole};
use bw_memory::is_by_columns;
use bw_shell::{recode, recode_by_columns};

/// Runs `bw recode`. The three inputs are opened before one is read, and read in the order of their
/// mention. The output is created by the first write.
pub fn run_recode<'a>(
    rt: &HostRuntime,
    order: FileOrder,
    table_path: &'a str,
    schema_path: &'a str,
    numbers_path: &'a str,
    out: &str,
) -> Result<(), CommandFailure<'a>> {
    let table = open(rt, table_path)?;
    let schema = open(rt, schema_path)?;
    let numbers = open(rt, numbers_path)?;
    let table = read_table(rt, table_path, table)?;
    let schema = read_schema(rt, schema_path, schema)?;
    let numbers = read_numbers(rt, numbers_path, numbers)?;
    let done = if is_by_columns(&mut BytesAt::new(&table)) {
        recode_by_columns(rt.alloc(), order, &table, &schema, &numbers)
    } else {
        recode(rt.alloc(), order, &table, &schema, &numbers)
    };
    let file = or_failure(done, &[])?;
    write_file(rt, out, &file)
}

/// Writes a file.
fn write_file(rt: &HostRuntime, path: &str, bytes: &[u8]) -> Result<(), CommandFailure<'static>> {
    let mut out = OutFile::new(rt, path);
    let done = write_whole(&mut out, bytes);
    or_write_failure(done, &[], out.error())
}
