//! `bw session`, and its prompts and reports beside its results.
ghost use Rattle.std.specs.Prelude.{◌≡◌, IfOk, None, true};
ghost use Rattle.bw_memory.specs.Columnar.{table_in};
ghost use Rattle.bw_memory.specs.Columns.{IsBlank};
ghost use Rattle.bw_memory.specs.MemoryTable.{schema_of};
ghost use Rattle.bw_query.specs.ProgramCache.{Serves};

use crate::explain::{explain_settled, explain_statement};
use crate::failure::{CommandFailure, or_failure, or_write_failure};
use crate::file_at::FileAt;
use crate::in_file::InFile;
use crate::opened::{input_ahead, open, read_ahead, read_program};
use crate::out_stream::OutStream;
use crate::run::quiet_status;
use bw_file::ToWrite;
use bw_memory::{ColumnStore, ColumnarTable, FileColumns, is_by_columns};
use bw_model::{Fault, Schema, code};
use bw_shell::{
    Listener, MemoryTable, ProgramCache, Served, answer_statements, report, settled_line,
    stats_line,
};
use std::io::IsTerminal;

/// Runs `bw session`: opens the table file, reads the program files and then the table file, or of a
/// file by columns the header, and runs the statements of standard input. Returns the status of the
/// first statement that was rejected.
pub fn run_session<'a>(
    rt: &HostRuntime,
    paths: &[&'a str],
    stats: bool,
    table_path: &'a str,
    told: bool,
) -> Result<u8, CommandFailure<'a>> {
    let mut file = open(rt, table_path)?;
    let files = read_programs(rt, paths)?;
    if is_by_columns(&mut FileAt::new(&mut file)) {
        let mut device = FileAt::new(&mut file);
        let columnar = header_of(rt, table_path, &mut device)?;
        let columns = FileColumns::new(rt.alloc(), device, columnar);
        answer_over(
            rt,
            &mut or_failure(columns, &[])?,
            paths,
            files,
            stats,
            told,
        )
    } else {
        let mut table = table_of(rt, table_path, file)?;
        answer_over(rt, &mut table, paths, files, stats, told)
    }
}

/// Runs the statements of standard input over a table, with these program files.
fn answer_over<'a, C: ColumnStore>(
    rt: &HostRuntime,
    store: &mut C,
    paths: &[&'a str],
    files: Vec<Vec<u8>>,
    stats: bool,
    told: bool,
) -> Result<u8, CommandFailure<'a>> {
    let mut programs = programs_for(rt, store.table(), paths, files)?;
    answer_input(rt, store, &mut programs, stats, told)
}

/// Runs the statements of standard input over a table. Returns the status of the first one that was
/// rejected, or of one for which memory was refused. If none was, but a line of scan statistics
/// couldn't be written, the session fails (702).
fn answer_input<C: ColumnStore>(
    rt: &HostRuntime,
    store: &mut C,
    programs: &mut ProgramCache,
    stats: bool,
    told: bool,
) -> Result<u8, CommandFailure<'static>>
    requires { Serves (schema_of (C.table store.old)).columns.items programs.old }
{
    let schema = or_failure(store.table().schema().copy(rt.alloc()), &[])?;
    let mut teller = Teller::new(rt, &schema, stats, told);
    let mut statements = input_ahead(rt)?;
    let mut out = OutStream::new(rt.stdout());
    let done = answer_statements(
        rt.alloc(),
        store,
        programs,
        &mut statements,
        &mut ToWrite::new(&mut out),
        &mut teller,
    );
    match or_write_failure(done, &[], out.error())? {
        Some(fault) => Ok(quiet_status(&fault)),
        None if teller.has_lost_statistics() => {
            Err(CommandFailure::new(Fault::new(code::WRITE_FAILED)))
        }
        None => Ok(0),
    }
}

/// Returns the bytes of each program file of a session.
fn read_programs<'a>(
    rt: &HostRuntime,
    paths: &[&'a str],
) -> Result<Vec<Vec<u8>>, CommandFailure<'a>> {
    let mut files = Vec::new(rt.alloc());
    for path in paths {
        let file = read_program(rt, path, open(rt, path)?)?;
        if files.push(file).is_err() {
            return Err(CommandFailure::new(Fault::new(code::OUT_OF_MEMORY)));
        }
    }
    Ok(files)
}

/// Returns the programs of these files, for a table's columns.
fn programs_for<'a>(
    rt: &HostRuntime,
    table: &MemoryTable,
    paths: &[&'a str],
    files: Vec<Vec<u8>>,
) -> Result<ProgramCache, CommandFailure<'a>>
    ensures { IfOk result (λ programs. Serves (schema_of table.now).columns.items programs) }
{
    match ProgramCache::new(rt.alloc(), table.schema(), files) {
        Ok(programs) => Ok(programs),
        Err(rejected) => {
            let path = paths.get(rejected.number).copied();
            Err(CommandFailure::of_program(rejected.fault, path))
        }
    }
}

/// Returns the table of a file, read into memory.
fn table_of<'a>(
    rt: &HostRuntime,
    path: &'a str,
    mut file: InFile,
) -> Result<MemoryTable, CommandFailure<'a>> {
    let mut source = read_ahead(rt, &mut file)?;
    let done = MemoryTable::read(rt.alloc(), &mut source);
    drop(source);
    or_failure(done, &[(path, file.reads())])
}

/// Opens a file by columns, and returns its table, of which no column was read.
fn header_of<'a>(
    rt: &HostRuntime,
    path: &'a str,
    device: &mut FileAt,
) -> Result<ColumnarTable, CommandFailure<'a>>
    requires { device.old.failures ≡ 0 }
    ensures blank { IfOk result (λ columnar. IsBlank (table_in columnar)) }
    ensures confirmed { IfOk result (λ _. device.new.is_confirmed ≡ true) }
    ensures failures { IfOk result (λ _. device.new.failures ≡ 0) }
{
    match ColumnarTable::open(rt.alloc(), device) {
        Ok(columnar) => Ok(columnar),
        Err(fault) => Err(CommandFailure::of(fault, &[(path, device.reads())], None)),
    }
}

/// The prompt at a terminal, while a statement is awaited.
const PROMPT: &str = "bw> ";

/// Writes the prompts, scan statistics and errors of a session to standard error. A line that can't
/// be written is dropped.
#[derive(Drop)]
pub struct Teller<'a> {
    rt: &'a HostRuntime,
    schema: &'a Schema,
    stats: bool,
    explains: bool,
    prompts: bool,
    lost: bool,
}

impl<'a> Teller<'a> {
    /// Returns a reporter that writes the scan statistics of each result if `stats`, and explains
    /// each error, and why segments are settled, if `explains`. It prompts if input and standard
    /// error are a terminal.
    pub fn new(rt: &'a HostRuntime, schema: &'a Schema, stats: bool, explains: bool) -> Self {
        let prompts = rt.stdin().is_terminal() && rt.stderr().is_terminal();
        Teller {
            rt,
            schema,
            stats,
            explains,
            prompts,
            lost: false,
        }
    }

    /// Returns whether a line of scan statistics was dropped.
    pub fn has_lost_statistics(&self) -> bool {
        self.lost
    }
}

impl Listener for Teller<'_> {
    ghost told = { λ _. None };

    fn wait(&mut self) {
        if self.prompts {
            let _ = eprint!(self.rt; "{}", PROMPT);
        }
    }

    fn note_answer(&mut self, served: &Served) {
        if self.stats && stats_line(served, &mut ToWrite::new(self.rt.stderr())).is_err() {
            self.lost = true;
        }
    }

    fn note_settled(&mut self, segments: u32) {
        if !self.stats {
            return;
        }
        if settled_line(segments, &mut ToWrite::new(self.rt.stderr())).is_err() {
            self.lost = true;
        }
        if self.explains {
            explain_settled(self.rt);
        }
    }

    fn note_refusal(&mut self, statement: &[u8], fault: &Fault) {
        report(fault, &mut ToWrite::new(self.rt.stderr()));
        if self.explains {
            explain_statement(self.rt, self.schema, statement, fault);
        }
    }
}
