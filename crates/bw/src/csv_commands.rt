//! The commands over a CSV file: `bw direct`, `bw infer` and `bw load`.
use crate::failure::{CommandFailure, or_write_failure};
use crate::opened::{open, open_both};
use crate::out_file::OutFile;
use crate::out_stream::OutStream;
use bw_file::{FileOrder, FromRead, Layout, ToWrite};
use bw_shell::{direct, infer, load_in_order};

/// Runs `bw direct`. Both files are opened before either is read.
pub fn run_direct<'a>(
    rt: &HostRuntime,
    schema_path: &'a str,
    csv_path: &'a str,
    sql: &str,
) -> Result<(), CommandFailure<'a>> {
    let (mut schema, mut csv) = open_both(rt, schema_path, csv_path)?;
    let mut schema_source = FromRead::new(&mut schema);
    let mut csv_source = FromRead::new(&mut csv);
    let mut out = OutStream::new(rt.stdout());
    let done = direct(
        rt.alloc(),
        &mut schema_source,
        &mut csv_source,
        sql.as_bytes(),
        &mut ToWrite::new(&mut out),
    );
    let files = [(schema_path, schema.reads()), (csv_path, csv.reads())];
    or_write_failure(done, &files, out.error())
}

/// Runs `bw infer`.
pub fn run_infer<'a>(
    rt: &HostRuntime,
    name: Option<&str>,
    csv_path: &'a str,
) -> Result<(), CommandFailure<'a>> {
    let mut csv = open(rt, csv_path)?;
    let mut source = FromRead::new(&mut csv);
    let mut out = OutStream::new(rt.stdout());
    let name = name.unwrap_or("t");
    let done = infer(
        rt.alloc(),
        name.as_bytes(),
        &mut source,
        &mut ToWrite::new(&mut out),
    );
    or_write_failure(done, &[(csv_path, csv.reads())], out.error())
}

/// Runs `bw load`. Both files are opened before either is read, and the third is created by the
/// first write.
pub fn run_load<'a>(
    rt: &HostRuntime,
    order: FileOrder,
    layout: Layout,
    schema_path: &'a str,
    csv_path: &'a str,
    out: &str,
) -> Result<(), CommandFailure<'a>> {
    let (mut schema, mut csv) = open_both(rt, schema_path, csv_path)?;
    let mut schema_source = FromRead::new(&mut schema);
    let mut csv_source = FromRead::new(&mut csv);
    let mut out = OutFile::new(rt, out);
    let done = load_in_order(
        rt.alloc(),
        &mut schema_source,
        &mut csv_source,
        order,
        layout,
        &mut out,
    );
    let files = [(schema_path, schema.reads()), (csv_path, csv.reads())];
    or_write_failure(done, &files, out.error())
}
