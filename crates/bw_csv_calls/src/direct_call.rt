//! The result of a query straight from a CSV text.
ghost use Rattle.std.specs.Prelude.{◌≡◌, ◌+◌, ◌-◌, ◌^◌, ◌<◌, ◌≤◌, ℕ, List, Result, Ok, true};
ghost use Rattle.std.specs.Prelude.{length, vec_len, IfErr, IsTrue};
ghost use Rattle.std.specs.List.{list_all};
ghost use Rattle.bw_model.specs.declared.fault.Fault.{Fault};
ghost use Rattle.bw_model.specs.declared.query.Query.{Query};
ghost use Rattle.bw_model.specs.declared.schema.Schema.{Schema};
ghost use Rattle.bw_io.specs.Sink.{WriteOutcome};
ghost use Rattle.bw_model.specs.Limits.{longest_schema, longest_csv};
ghost use Rattle.bw_io.specs.Source.{Arrival, ReadOutcome, TellsFailureOfEither, TookAtMost};
ghost use Rattle.bw_model.specs.Total.{item_within};
ghost use Rattle.bw_sql.specs.Items.{AreOfOneKind};
ghost use Rattle.bw_sql.specs.Statement.{IsReadAs};
ghost use Rattle.bw_csv_calls.specs.ReadInputs.{StopsInCsv, HasReadSchema};
ghost use Rattle.bw_csv.specs.Bare.{records_of};
ghost use Rattle.bw_csv.specs.Rows.{is_exempt, is_reader_fault, MatchesUnlessExempt, IsRowsFault};
ghost use Rattle.bw_csv.specs.Rows.{StopsUnder};
ghost use Rattle.bw_csv_calls.specs.Direct.{IsAnswer, answer_of, is_before_csv};

use crate::inputs::read_schema;
use bw_answer::GatheredAnswer;
use bw_csv::{read_csv, read_rows};
use bw_io::{Sink, Source, write_whole};
use bw_model::{Fault, Query, Schema};
use bw_sql::parse;
use std::alloc::Global;

/// Runs a query over the rows of a CSV text, under the schema of a schema text. Writes the result
/// as CSV text: a heading record, then the records, fields joined by commas and each record ended
/// by a line feed. Nothing is written before all else has succeeded. Each device's count of
/// failures must be less than 2^64 - 1.
///
/// Errors, in this order: the schema's source (701) and text (106, 101 to 105), the statement (401
/// to 408), the CSV's source (701) and text (208, 201 to 209), and the sink (702). 801 at any time,
/// if memory is refused.
pub fn direct<S: Source, C: Source, K: Sink>(
    alloc: Global,
    schema_source: &mut S,
    csv_source: &mut C,
    sql: &[u8],
    sink: &mut K,
) -> Result<(), Fault>
    requires schema { (S.state schema_source.old).failures < 2 ^ 64 - 1 }
    requires csv { (C.state csv_source.old).failures < 2 ^ 64 - 1 }
    requires sink { (K.state sink.old).failures < 2 ^ 64 - 1 }

    // The bytes written are the text of the result, by what the sources yielded, or none if that is
    // an error. If memory runs out while the schema or the statement is read, the schema's source
    // counts as one that found no memory, and the CSV's as not reached.
    ensures answer { (schema csv : Arrival) × (given : Result (List ℕ) Fault)
        × ReadOutcome longest_schema (S.state schema_source.old) (S.state schema_source.new) schema
        × ReadOutcome longest_csv (C.state csv_source.old) (C.state csv_source.new) csv
        × IsAnswer schema sql.now csv given
        × WriteOutcome is_exempt (K.state sink.old) (K.state sink.new) given result }

    // If the CSV's reader has an error of its own, the schema and the statement were accepted, the
    // CSV was read completely, and the error is at the heading, or at the record after those that
    // have rows.
    ensures reader { IfErr result (λ fault. is_reader_fault fault ≡ true → (schema : Schema)
        × (query : Query) × HasReadSchema (ReadOutcome longest_schema (S.state schema_source.old)
        (S.state schema_source.new)) schema × IsReadAs schema sql.now (Ok query)
        × StopsInCsv (ReadOutcome longest_csv (C.state csv_source.old) (C.state csv_source.new))
        schema fault) }

    // Of a source at most one byte past its limit is read. The call fails by a failed read if and
    // only if the count of one source rose.
    ensures schema { TookAtMost (longest_schema + 1) (S.state schema_source.old)
        (S.state schema_source.new) }
    ensures csv { TookAtMost (longest_csv + 1) (C.state csv_source.old) (C.state csv_source.new) }
    ensures failed { TellsFailureOfEither (S.state schema_source.old) (S.state schema_source.new)
        (C.state csv_source.old) (C.state csv_source.new) result }

    // If the schema's source failed, or the schema or the statement is rejected, the CSV's source
    // is as it was.
    ensures unread { (S.state schema_source.old).failures < (S.state schema_source.new).failures
        → csv_source.new ≡ csv_source.old }
    ensures unneeded { IfErr result (λ fault. IsTrue (is_before_csv fault) → csv_source.new
        ≡ csv_source.old) }
{
    let schema = read_schema(alloc, schema_source)?;
    let query = parse(alloc, &schema, sql)?;
    let csv = read_csv(alloc, csv_source)?;
    let text = answer_text(alloc, &schema, &query, &csv)?;
    write_whole(sink, &text)
}

/// Returns the text of the result over the rows of a CSV text. Errors: those of [`read_rows`].
fn answer_text(alloc: Global, schema: &Schema, query: &Query, csv: &[u8]) -> Result<Vec<u8>, Fault>
    requires items { IsTrue (list_all (item_within (vec_len schema.now.columns))
        query.now.items.items) }
    requires nonempty { 1 ≤ length query.now.items.items }
    requires kinds { AreOfOneKind query.now.items.items }
    ensures text { MatchesUnlessExempt (λ text. text.items) result
        (answer_of schema.now.columns.items query.now csv.now) }
    ensures fault { IfErr result IsRowsFault }
    ensures reader { IfErr result (λ fault. is_reader_fault fault ≡ true
        → StopsUnder schema.now.columns.items (records_of csv.now) fault) }
{
    let mut answer = GatheredAnswer::new(alloc, schema, query)?;
    read_rows(alloc, schema, csv, &mut answer)?;
    answer.into_text()
}
