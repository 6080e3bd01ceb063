//! Runs queries over a table in memory.
ghost use Rattle.std.specs.Prelude.{◌≤◌, ◌≡◌, ◌⊎◌, ◌-◌, ◌^◌, ◌<◌, ℕ, List, None, Result, Ok, IsTrue};
ghost use Rattle.std.specs.Prelude.{IfOk, IfErr, false, true};
ghost use Rattle.bw_model.specs.declared.fault.Fault.{Fault};
ghost use Rattle.bw_model.specs.declared.query.Query.{Query};
ghost use Rattle.bw_model.specs.Fault.{is_memory};
ghost use Rattle.bw_model.specs.Groups.{groups_of};
ghost use Rattle.bw_io.specs.Sink.{WriteOutcome, is_write_fault, none_aside};
ghost use Rattle.bw_io.specs.Source.{is_read_fault};
ghost use Rattle.bw_memory.specs.MemoryTable.{rows_of, schema_of};
ghost use Rattle.bw_query.specs.MemoryAnswer.{AnswersRows, IsMemoryAnswer};
ghost use Rattle.bw_query.specs.MemoryAnswer.{is_output_fault};
ghost use Rattle.bw_query.specs.ProgramCache.{Serves, files_of};
ghost use Rattle.bw_query.specs.Scan.{given_file};
ghost use Rattle.bw_query.specs.Served.{IsServed};
ghost use Rattle.bw_query.specs.StoreAnswer.{AnswersStore, HasColumnError, IsStoreAnswer};
ghost use Rattle.bw_query.specs.TableAnswer.{by_statement};

use crate::memory_segments::{memory_text, open_text};
use crate::program_cache::ProgramCache;
use crate::served::{StoreServed, report_of};
use crate::stored_columns::{read_named, settle_named};
use crate::table_calls::prepare;
use bw_io::{Sink, write_whole};
use bw_memory::{ColumnStore, MemoryTable};
use bw_model::Fault;
use bw_report::Served;
use bw_sql::parse;
use std::alloc::Global;

/// Runs a statement over a table in memory, and writes the result as CSV text, as `answer` does
/// over a table file. The rows are found by the program of a program file, if one is given; else by
/// the planner's program, if it proposes one that the checker accepts; else the fallback. Only the
/// columns that the statement needs are read, and nothing is validated again. Returns how the query
/// was served, with the loads and skips of the program's runs.
///
/// Errors, in this order: the statement's (401 to 408), the program file's (508, 501 to 507, 605,
/// 601 to 604 and 606 to 610) and the sink's (702); 801 at any time, if memory is refused. Nothing
/// is written on any error but 702. The sink's count of errors must be able to rise.
pub fn answer_in_memory<K: Sink>(
    alloc: Global,
    table: &MemoryTable,
    sql: &[u8],
    program: Option<&[u8]>,
    sink: &mut K,
) -> Result<Served, Fault>
    requires { (K.state sink.old).failures < 2 ^ 64 - 1 }
    ensures answer { (given : Result (List ℕ) Fault)
        × IsMemoryAnswer (by_statement (given_file program.entry) sql.now) (schema_of table.now)
        (rows_of table.now) given × WriteOutcome none_aside (K.state sink.old) (K.state sink.new)
        given result }
    ensures served { IfOk result (λ served.
        (found : AnswersRows (by_statement (given_file program.entry) sql.now)
        (schema_of table.now) (rows_of table.now) (K.state sink.old).taken
        (K.state sink.new).taken) × IsServed (given_file program.entry) (schema_of table.now)
        found.query (groups_of (rows_of table.now)) served) }

    // If the statement spells a query, and the program file is accepted for its condition, only the
    // sink or memory can fail.
    ensures accepted { (query : Query)
        → by_statement (given_file program.entry) sql.now (schema_of table.now) (Ok query)
        → IfErr result (λ fault. IsTrue (is_output_fault fault)) }
{
    let prepared = prepare(alloc, table.schema(), sql, program)?;
    let found = memory_text(alloc, table, &prepared.query, &prepared.scan)?;
    write_whole(sink, &found.text)?;
    Ok(report_of(&prepared.scan, found.scanned))
}

/// Answers a statement as [`answer_in_memory`] does, with programs for the conditions of many
/// statements. The columns that the statement names are read first, unless they are in memory. The
/// rows are found by the scan that is kept for the statement's condition. If none is, one is looked
/// for and kept: the program of the first program file that is accepted for the condition; else the
/// planner's, if it proposes one that the checker accepts; else the fallback. Segments are passed
/// over if the ranges of their values settle that the condition is TRUE on none of their rows; or on
/// each, if the query only counts rows by a program: their rows are counted without being read.
/// Returns how the query was served, and how many segments were passed over.
///
/// Errors, in this order: the statement's (401 to 408), those of the columns (306 to 308, 305, 701)
/// and the sink's (702); 801 at any time, if memory is refused. A program file that isn't accepted is
/// no error. Nothing is written on any error but 702. The programs must serve the table's columns,
/// and the sink's count of errors be able to rise.
pub fn answer_with_programs<C: ColumnStore, K: Sink>(
    alloc: Global,
    store: &mut C,
    sql: &[u8],
    programs: &mut ProgramCache,
    sink: &mut K,
) -> Result<StoreServed, Fault>
    requires serves { Serves (schema_of (C.table store.old)).columns.items programs.old }
    requires sink { (K.state sink.old).failures < 2 ^ 64 - 1 }
    ensures answer { (given : Result (List ℕ) Fault)
        × IsStoreAnswer (by_statement None sql.now) (schema_of (C.table store.old))
        (C.source store.old) given
        × WriteOutcome none_aside (K.state sink.old) (K.state sink.new) given result }
    ensures served { IfOk result (AnswersStore (by_statement None sql.now)
        (schema_of (C.table store.old)) (C.source store.old) (files_of programs.old)
        (K.state sink.old).taken (K.state sink.new).taken) }

    // If the statement spells a query, only a column, the sink or memory can fail.
    ensures accepted { (query : Query)
        → by_statement None sql.now (schema_of (C.table store.old)) (Ok query)
        → IfErr result (λ fault. IsTrue (is_output_fault fault)
        ⊎ HasColumnError (by_statement None sql.now) (schema_of (C.table store.old))
        (C.source store.old) fault) }

    // If the error is a failed read, the file is read no more; and that begins with a call of its
    // device that failed.
    ensures lost { IfErr result (λ fault. IsTrue (is_read_fault fault)
        → C.is_lost store.new ≡ true) }
    ensures failed { C.is_lost store.old ≡ false → C.is_lost store.new ≡ true
        → C.failures store.old < C.failures store.new }
    ensures count { C.failures store.old ≤ C.failures store.new }

    // The programs serve the next statement too, by the same program files, over the same table.
    ensures serves { Serves (schema_of (C.table store.new)).columns.items programs.new }
    ensures files { files_of programs.new ≡ files_of programs.old }
    ensures source { C.source store.new ≡ C.source store.old }
    ensures schema { schema_of (C.table store.new) ≡ schema_of (C.table store.old) }
{
    let query = parse(alloc, store.table().schema(), sql)?;
    read_named(alloc, store, &query)?;
    let number = programs.find_or_add(alloc, store.table(), &query.cond)?;
    let verdicts = settle_named(alloc, store, &query.cond)?;
    let scan = programs.scan(number);
    let found = open_text(alloc, store.table(), &verdicts, &query, scan)?;
    write_whole(sink, &found.text)?;
    Ok(StoreServed {
        served: report_of(scan, found.scanned),
        settled: store.table().segments() - found.scanned.segments,
    })
}
