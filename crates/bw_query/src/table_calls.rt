//! Runs queries over a table file.
ghost use Rattle.std.specs.Prelude.{◌≡◌, ◌-◌, ◌^◌, ◌<◌, ◌≤◌, ℕ, List, Option, Result, Ok, Err};
ghost use Rattle.std.specs.Prelude.{None, Some, false, length, vec_len, IsTrue, IfOk, IfErr, OnOk};
ghost use Rattle.std.specs.Prelude.{IsOkUnless};
ghost use Rattle.std.specs.Io.KnownBytes.{Appends};
ghost use Rattle.std.specs.List.{list_all};
ghost use Rattle.bw_model.specs.declared.fault.Fault.{Fault};
ghost use Rattle.bw_model.specs.declared.query.Query.{Query};
ghost use Rattle.bw_model.specs.declared.schema.Schema.{Schema};
ghost use Rattle.bw_model.specs.Total.{item_within};
ghost use Rattle.bw_sql.specs.Items.{AreOfOneKind};
ghost use Rattle.bw_model.specs.Fault.{is_memory, no_memory};
ghost use Rattle.bw_model.specs.Groups.{groups_of};
ghost use Rattle.bw_model.specs.Row.{Value};
ghost use Rattle.bw_model.specs.SchemaText.{schema_shape};
ghost use Rattle.bw_file.specs.declared.layout.Layout.{Layout};
ghost use Rattle.bw_file.specs.FileBytes.{IsFileBytes};
ghost use Rattle.bw_file.specs.Reading.{State, state_at};
ghost use Rattle.bw_file.specs.TableReader.{bytes_taken, rows_given, final_result};
ghost use Rattle.bw_io.specs.Sink.{WriteOutcome, is_write_fault, none_aside};
ghost use Rattle.bw_io.specs.Source.{TellsFailure, is_read_fault};
ghost use Rattle.bw_query.specs.Scan.{IsChosen, IsFor, given_file};
ghost use Rattle.bw_query.specs.Served.{IsServed};
ghost use Rattle.bw_query.specs.TableAnswer.{AnswersFile, HasReadHeader, IsEveryRow, IsTableResult};
ghost use Rattle.bw_query.specs.TableAnswer.{TableText, by_dump, by_statement, is_no_verdict};

use crate::scan::{Scan, scan_for};
use crate::served::report_of;
use crate::table_text::table_text;
use bw_file::{TableReader, a_file_is_read_whole};
use bw_io::{Sink, Source, write_whole};
use bw_model::{Cond, Fault, Item, Query, Schema};
use bw_report::Served;
use bw_sql::{one_query_of_a_text, parse, schemas_of_one_shape};
use std::alloc::Global;

/// Runs a statement over a table file, and writes the result as CSV text: a heading record and then
/// the other records, with commas between fields and a line feed after each record. The rows are
/// found by the program of a program file, if one is given; else by the planner's program, if it
/// proposes one that the checker accepts; else the fallback. Returns how the query was served, with
/// the loads and skips of the program's runs.
///
/// Errors, in this order: the file header's (301 to 305, 310), the statement's (401 to 408), the
/// program file's (508, 501 to 507, 605, 601 to 604 and 606 to 610), the file segments' (305 to
/// 309) and the sink's (702); a failed read (701) in place of what was to be read, and 801 at any
/// time, if memory is refused. Nothing after the header is read before the statement and the
/// program file are accepted. Nothing is written before the last segment was validated and the file
/// has ended. One segment is in memory, and the result's text. The count of errors of the source
/// and of the sink must be able to rise.
pub fn answer<S: Source, K: Sink>(
    alloc: Global,
    table: &mut S,
    sql: &[u8],
    program: Option<&[u8]>,
    sink: &mut K,
) -> Result<Served, Fault>
    requires table { (S.state table.old).failures < 2 ^ 64 - 1 }
    requires sink { (K.state sink.old).failures < 2 ^ 64 - 1 }
    ensures answer { (offset : ℕ) × (given : Result (List ℕ) Fault)
        × IsTableResult (by_statement (given_file program.entry) sql.now)
        (state_at (S.state table.old) 0) (state_at (S.state table.new) offset) given
        × WriteOutcome none_aside (K.state sink.old) (K.state sink.new) given result }
    ensures served { IfOk result (λ served. (offset : ℕ) × (text : List ℕ)
        × (found : TableText (by_statement (given_file program.entry) sql.now)
        (state_at (S.state table.old) 0) (state_at (S.state table.new) offset) text)
        × Appends (K.state sink.old).taken (K.state sink.new).taken text
        × IsServed (given_file program.entry) found.schema found.query (groups_of found.rows)
        served) }

    // If the unread bytes are known, a success shows that they are a table file's, and the result
    // is over its rows. If they are one's, the statement spells a query, and the program file is
    // accepted for its condition, only a device or memory can fail.
    ensures file { (bytes : List ℕ) → (S.state table.old).known ≡ Some bytes
        → IfOk result (λ served. (file : AnswersFile
        (by_statement (given_file program.entry) sql.now) bytes (K.state sink.old).taken
        (K.state sink.new).taken) × IsServed (given_file program.entry) file.schema file.query
        (groups_of file.rows) served) }
    ensures accepted { (bytes : List ℕ) (layout : Layout) (schema : Schema)
        (rows : List (List Value)) (query : Query) → (S.state table.old).known ≡ Some bytes
        → IsFileBytes bytes layout schema rows → by_statement (given_file program.entry) sql.now
        schema (Ok query) → IfErr result (λ fault. IsTrue (is_no_verdict fault)) }
    ensures table { TellsFailure (S.state table.old) (S.state table.new) result }
{
    a_file_is_read_whole();
    let mut reader = TableReader::begin(alloc, table)?;
    let prepared = prepare(alloc, reader.schema(), sql, program)?;
    let found = table_text(alloc, &mut reader, table, &prepared.query, &prepared.scan)?;
    write_whole(sink, &found.text)?;
    Ok(report_of(&prepared.scan, found.scanned))
}

/// A query, and what finds its rows.
#[derive(Drop)]
pub(crate) struct PreparedQuery {
    pub(crate) query: Query,
    pub(crate) scan: Scan,
}

/// Returns the query of a statement over a table of this schema, and what finds its rows. Errors:
/// the statement's (401 to 408), then the program file's, as [`scan_for`] returns them.
pub(crate) fn prepare(
    alloc: Global,
    schema: &Schema,
    sql: &[u8],
    program: Option<&[u8]>,
) -> Result<PreparedQuery, Fault>
    ensures asked { IfOk result
        (λ prepared. by_statement (given_file program.entry) sql.now schema.now
        (Ok prepared.query)) }
    ensures chosen { IfOk result (λ prepared.
        IsChosen (given_file program.entry) schema.now.columns.items prepared.query.cond
        prepared.scan) }
    ensures certified { IfOk result
        (λ prepared. IsFor schema.now.columns.items prepared.query.cond prepared.scan) }
    ensures items { IfOk result (λ prepared.
        IsTrue (list_all (item_within (vec_len schema.now.columns)) prepared.query.items.items)) }
    ensures nonempty { IfOk result (λ prepared. 1 ≤ length prepared.query.items.items) }
    ensures kinds { IfOk result (λ prepared. AreOfOneKind prepared.query.items.items) }
    ensures refused { IfErr result (λ fault. is_memory fault ≡ false
        → by_statement (given_file program.entry) sql.now schema.now (Err fault)) }
    ensures fault { IfErr result (λ fault. is_write_fault fault ≡ false) }
    ensures unread { IfErr result (λ fault. is_read_fault fault ≡ false) }
    // If a statement spells a query under a schema of the same shape, and the program file is
    // accepted for its condition, only memory can fail.
    ensures accepted { (other : Schema) (query : Query) → schema_shape schema.now
        ≡ schema_shape other → by_statement (given_file program.entry) sql.now other (Ok query)
        → IsOkUnless result no_memory }
{
    schemas_of_one_shape();
    one_query_of_a_text();
    let query = parse(alloc, schema, sql)?;
    let scan = scan_for(alloc, schema, &query.cond, program)?;
    Ok(PreparedQuery { query, scan })
}

/// Writes all rows of a table file with all columns, as CSV text.
///
/// Errors, in this order: the file header's (301 to 305, 310), the file segments' (305 to 309) and
/// the sink's (702); 701 if a read fails, and 801 at any time, if memory is refused. Nothing is
/// written before the last segment was validated and the file has ended.
pub fn dump<S: Source, K: Sink>(alloc: Global, table: &mut S, sink: &mut K) -> Result<(), Fault>
    requires table { (S.state table.old).failures < 2 ^ 64 - 1 }
    requires sink { (K.state sink.old).failures < 2 ^ 64 - 1 }
    ensures answer { (offset : ℕ) × (given : Result (List ℕ) Fault)
        × IsTableResult by_dump (state_at (S.state table.old) 0)
        (state_at (S.state table.new) offset) given
        × WriteOutcome none_aside (K.state sink.old) (K.state sink.new) given result }

    // The same of the unread bytes as for [`answer`].
    ensures file { (bytes : List ℕ) → (S.state table.old).known ≡ Some bytes
        → OnOk result (AnswersFile by_dump bytes (K.state sink.old).taken
        (K.state sink.new).taken) }
    ensures accepted { (bytes : List ℕ) (layout : Layout) (schema : Schema)
        (rows : List (List Value)) → (S.state table.old).known ≡ Some bytes
        → IsFileBytes bytes layout schema rows
        → IfErr result (λ fault. IsTrue (is_no_verdict fault)) }
    ensures table { TellsFailure (S.state table.old) (S.state table.new) result }
{
    a_file_is_read_whole();
    let mut reader = TableReader::begin(alloc, table)?;
    let query = every_row(alloc, reader.schema())?;
    let found = table_text(alloc, &mut reader, table, &query, &Scan::Rows)?;
    write_whole(sink, &found.text)
}

/// Returns the query for all rows and all columns.
#[tactic(auto, using(bw_model::proofs::CondLemmas::truths))]
pub(crate) fn every_row(alloc: Global, schema: &Schema) -> Result<Query, Fault>
    ensures every { IfOk result (IsEveryRow schema.now) }
    ensures items { IfOk result (λ query. IsTrue (list_all (item_within
        (vec_len schema.now.columns)) query.items.items)) }
    ensures nonempty { IfOk result (λ query. 1 ≤ length query.items.items) }
    ensures kinds { IfOk result (λ query. AreOfOneKind query.items.items) }
    ensures only_oom { IsOkUnless result no_memory }
{
    let mut items = Vec::with_capacity(alloc, schema.columns.len())?;
    for column in 0..schema.columns.len() {
        items.push(Item::Plain(column))?;
    }
    Ok(Query {
        items,
        cond: Cond::Always,
    })
}
