//! Runs queries over a file by columns, of which only the columns that are needed are read.
ghost use Rattle.std.specs.Prelude.{◌≡◌, ◌+◌, ◌-◌, ◌^◌, ◌<◌, ◌≤◌, ℕ, List, Result, None, true, false};
ghost use Rattle.std.specs.Prelude.{IfOk, IfErr, IsTrue, OnOk, length, not, vec_len};
ghost use Rattle.std.specs.List.{list_all};
ghost use Rattle.std.specs.Io.KnownBytes.{Appends};
ghost use Rattle.bw_model.specs.declared.fault.Fault.{Fault};
ghost use Rattle.bw_model.specs.Groups.{groups_of};
ghost use Rattle.bw_model.specs.Total.{item_within};
ghost use Rattle.bw_sql.specs.Items.{AreOfOneKind};
ghost use Rattle.bw_io.specs.Sink.{WriteOutcome, is_write_fault, none_aside};
ghost use Rattle.bw_io.specs.Source.{failed_by, is_input_fault, is_read_fault};
ghost use Rattle.bw_memory.specs.Columnar.{HasColumns, HasDamage, SameHeader, column_count};
ghost use Rattle.bw_memory.specs.Columnar.{table_in};
ghost use Rattle.bw_memory.specs.Columns.{IsBlank};
ghost use Rattle.bw_memory.specs.MemoryTable.{groups_in, rows_of, schema_of};
ghost use Rattle.bw_query.specs.ColumnarAnswer.{ColumnarText, IsColumnarAnswer};
ghost use Rattle.bw_query.specs.ColumnarSegments.{IsTextByColumns};
ghost use Rattle.bw_query.specs.NamedColumns.{is_read};
ghost use Rattle.bw_query.specs.Scan.{IsFor, given_file, program_of};
ghost use Rattle.bw_query.specs.Segments.{IsTextOf};
ghost use Rattle.bw_query.specs.Served.{IsServed};
ghost use Rattle.bw_query.specs.TableAnswer.{by_dump, by_statement};

use crate::columnar_segments::columnar_text;
use crate::memory_segments::memory_text;
use crate::named_columns::columns_read;
use crate::scan::Scan;
use crate::served::{TableText, report_of};
use crate::table_calls::{every_row, prepare};
use bw_io::{Failed, RandomAccess, Sink, write_whole};
use bw_memory::ColumnarTable;
use bw_model::{Fault, Place, Query, code};
use bw_report::Served;
use std::alloc::Global;

/// Runs a statement over a file by columns, and writes the result as CSV text, as
/// [`answer`](crate::answer) does over a table file. Reads the header, and only the columns that the
/// statement or its scan program names.
///
/// Errors, in this order: the file header's (301 to 305, 310), then 305 or 309 by the file's length;
/// the statement's (401 to 408); the program file's (508, 501 to 507, 605, 601 to 604 and 606 to
/// 610); those of the columns that are read, in the schema's order, each completely (306 to 308); the
/// sink's (702). 701 if a read fails, or the file has changed since it was opened and no column has an
/// error, and 801 at any time, if memory is refused. Nothing is written before the last column was validated, and the file
/// was found unchanged. In memory are some segments of the columns that are read, or all of them once
/// one has an error, and the result's text. Each device's count of failures must be less than
/// 2^64 - 1.
pub fn answer_by_columns<D: RandomAccess, K: Sink>(
    alloc: Global,
    device: &mut D,
    sql: &[u8],
    program: Option<&[u8]>,
    sink: &mut K,
) -> Result<Served, Fault>
    requires device { (D.state device.old).failures < 2 ^ 64 - 1 }
    requires sink { (K.state sink.old).failures < 2 ^ 64 - 1 }
    ensures answer { (given : Result (List ℕ) Fault)
        × IsColumnarAnswer (by_statement (given_file program.entry) sql.now)
        (given_file program.entry) (D.state device.old).known given
        × WriteOutcome none_aside (K.state sink.old) (K.state sink.new) given result }
    ensures served { IfOk result (λ served. (text : List ℕ)
        × (found : ColumnarText (by_statement (given_file program.entry) sql.now)
        (given_file program.entry) (D.state device.old).known text)
        × Appends (K.state sink.old).taken (K.state sink.new).taken text
        × IsServed (given_file program.entry) (schema_of (table_in found.columnar)) found.query
        (groups_of (rows_of (table_in found.columnar))) served) }

    // A result is written only after the file was found unchanged since its last read.
    ensures confirmed { IfOk result (λ _. (D.state device.new).confirmed ≡ true) }
    ensures count { (D.state device.new).failures
        ≡ (D.state device.old).failures + failed_by result }
{
    let mut columnar = ColumnarTable::open(alloc, device)?;
    let prepared = prepare(alloc, columnar.table().schema(), sql, program)?;
    let found = text_by_columns(
        alloc,
        device,
        &mut columnar,
        &prepared.query,
        &prepared.scan,
    )?;
    write_whole(sink, &found.text)?;
    Ok(report_of(&prepared.scan, found.scanned))
}

/// Writes all rows of a file by columns with all columns, as CSV text.
///
/// Errors, in this order: the file header's (301 to 305, 310), then 305 or 309 by the file's length;
/// those of the columns in order, each completely (306 to 308); the sink's (702). 701 if a read fails
/// or the file has changed since it was opened, and 801 at any time, if memory is refused. Each
/// device's count of failures must be less than 2^64 - 1.
pub fn dump_by_columns<D: RandomAccess, K: Sink>(
    alloc: Global,
    device: &mut D,
    sink: &mut K,
) -> Result<(), Fault>
    requires device { (D.state device.old).failures < 2 ^ 64 - 1 }
    requires sink { (K.state sink.old).failures < 2 ^ 64 - 1 }
    ensures answer { (given : Result (List ℕ) Fault)
        × IsColumnarAnswer by_dump None (D.state device.old).known given
        × WriteOutcome none_aside (K.state sink.old) (K.state sink.new) given result }
    ensures confirmed { OnOk result ((D.state device.new).confirmed ≡ true) }
    ensures count { (D.state device.new).failures
        ≡ (D.state device.old).failures + failed_by result }
{
    let mut columnar = ColumnarTable::open(alloc, device)?;
    let query = every_row(alloc, columnar.table().schema())?;
    let found = text_by_columns(alloc, device, &mut columnar, &query, &Scan::Rows)?;
    write_whole(sink, &found.text)
}

/// Returns the text of the result of a query over a file by columns, which was opened and of which no
/// column was read. Errors: those of the columns; 701 if a read fails or the file has changed; 801
/// if memory is refused.
fn text_by_columns<D: RandomAccess>(
    alloc: Global,
    device: &mut D,
    columnar: &mut ColumnarTable,
    query: &Query,
    scan: &Scan,
) -> Result<TableText, Fault>
    requires counter_fits { (D.state device.old).failures < 2 ^ 64 - 1 }
    requires blank { IsBlank (table_in columnar.old) }
    requires items { IsTrue (list_all (item_within
        (vec_len (schema_of (table_in columnar.old)).columns)) query.now.items.items) }
    requires nonempty { 1 ≤ length query.now.items.items }
    requires kinds { AreOfOneKind query.now.items.items }
    requires scan { IsFor (schema_of (table_in columnar.old)).columns.items query.now.cond scan.now }
    ensures text { IfOk result (λ found. IsTextByColumns (D.state device.old).known columnar.old
        query.now scan.now found.text.items found.scanned) }
    ensures header { SameHeader columnar.old columnar.new }
    ensures refused { IfErr result (λ fault. is_input_fault fault ≡ false
        → HasDamage (D.state device.old).known (is_read (program_of scan.now) query.now)
        columnar.new fault) }
    ensures fault { IfErr result (λ fault. is_write_fault fault ≡ false) }
    ensures confirmed { IfOk result (λ _. (D.state device.new).confirmed ≡ true) }
    ensures count { (D.state device.new).failures
        ≡ (D.state device.old).failures + failed_by result }
{
    let wanted = columns_read(alloc, query, scan, columnar.table().schema().columns.len())?;
    let found = match columnar_text(alloc, device, columnar, &wanted, query, scan) {
        Err(fault) if is_damage(fault) => {
            return text_in_memory(alloc, device, columnar, query, scan);
        }
        found => found?,
    };
    match device.confirm() {
        Ok(()) => Ok(found),
        Err(Failed) => Err(Fault::new(code::READ_FAILED)),
    }
}

/// Returns whether an error is one of the file's bytes: no failed read, and not out of memory.
fn is_damage(fault: Fault) -> bool
    ensures { result ≡ not (is_input_fault fault) }
{
    !fault.is_memory() && !is_read_fault(fault)
}

/// Returns whether an error is a failed read.
fn is_read_fault(fault: Fault) -> bool
    ensures { result ≡ is_read_fault fault }
{
    matches!(
        fault,
        Fault {
            code: code::READ_FAILED,
            place: Place::Nowhere,
        }
    )
}

/// Returns the same, with the columns in memory, one read after another: so an error is the first one.
fn text_in_memory<D: RandomAccess>(
    alloc: Global,
    device: &mut D,
    columnar: &mut ColumnarTable,
    query: &Query,
    scan: &Scan,
) -> Result<TableText, Fault>
    requires counter_fits { (D.state device.old).failures < 2 ^ 64 - 1 }
    requires blank { IsBlank (table_in columnar.old) }
    requires items { IsTrue (list_all (item_within
        (vec_len (schema_of (table_in columnar.old)).columns)) query.now.items.items) }
    requires nonempty { 1 ≤ length query.now.items.items }
    requires kinds { AreOfOneKind query.now.items.items }
    requires scan { IsFor (schema_of (table_in columnar.old)).columns.items query.now.cond scan.now }
    ensures text { IfOk result (λ found.
        IsTextOf (schema_of (table_in columnar.new)).columns.items query.now scan.now
        (λ groups. groups ≡ groups_in (table_in columnar.new)) found.text.items found.scanned) }
    ensures read { IfOk result (λ _. HasColumns (D.state device.old).known columnar.new
        (is_read (program_of scan.now) query.now) (column_count columnar.new)) }
    ensures header { SameHeader columnar.old columnar.new }
    ensures refused { IfErr result (λ fault. is_input_fault fault ≡ false
        → HasDamage (D.state device.old).known (is_read (program_of scan.now) query.now)
        columnar.new fault) }
    ensures fault { IfErr result (λ fault. is_write_fault fault ≡ false) }
    ensures confirmed { IfOk result (λ _. (D.state device.new).confirmed ≡ true) }
    ensures count { (D.state device.new).failures
        ≡ (D.state device.old).failures + failed_by result }
{
    let wanted = columns_read(alloc, query, scan, columnar.table().schema().columns.len())?;
    columnar.read_columns(alloc, device, &wanted)?;
    let found = memory_text(alloc, columnar.table(), query, scan)?;
    match device.confirm() {
        Ok(()) => Ok(found),
        Err(Failed) => Err(Fault::new(code::READ_FAILED)),
    }
}
