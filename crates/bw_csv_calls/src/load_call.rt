//! A table file written from a CSV text.
ghost use Rattle.std.specs.Prelude.{◌≡◌, ◌+◌, ◌-◌, ◌^◌, ◌<◌, ℕ, List, Result, true, IfErr, IsTrue};
ghost use Rattle.bw_model.specs.declared.fault.Fault.{Fault};
ghost use Rattle.bw_model.specs.declared.schema.Schema.{Schema};
ghost use Rattle.bw_model.specs.Limits.{longest_schema, longest_csv};
ghost use Rattle.bw_io.specs.Sink.{WriteOutcome};
ghost use Rattle.bw_io.specs.Source.{Arrival, ReadOutcome, TellsFailureOfEither, TookAtMost};
ghost use Rattle.bw_csv.specs.Bare.{records_of};
ghost use Rattle.bw_csv.specs.Rows.{is_exempt, is_reader_fault, MatchesUnlessExempt, IsRowsFault};
ghost use Rattle.bw_csv.specs.Rows.{StopsUnder};
ghost use Rattle.bw_csv_calls.specs.ReadInputs.{StopsInCsv, HasReadSchema};
ghost use Rattle.bw_csv_calls.specs.Direct.{is_before_csv};
ghost use Rattle.bw_csv_calls.specs.Load.{IsFile, IsFileIn, file_in};

use crate::inputs::read_schema;
use bw_csv::{read_csv, read_rows};
use bw_file::{Encoder, FileOrder, Layout};
use bw_io::{Sink, Source, write_whole};
use bw_model::{Fault, Schema};
use std::alloc::Global;

/// Writes the table file of the rows of a CSV text, under the schema of a schema text. Nothing is
/// written before all else has succeeded. In memory are the CSV text, the file's bytes, and one
/// segment. Each device's count of failures must be less than 2^64 - 1.
///
/// Errors, in this order: the schema's source (701) and text (106, 101 to 105), the CSV's source
/// (701) and text (208, 201 to 209), and the sink (702). 801 at any time, if memory is refused.
pub fn load<S: Source, C: Source, K: Sink>(
    alloc: Global,
    schema_source: &mut S,
    csv_source: &mut C,
    layout: Layout,
    sink: &mut K,
) -> Result<(), Fault>
    requires schema { (S.state schema_source.old).failures < 2 ^ 64 - 1 }
    requires csv { (C.state csv_source.old).failures < 2 ^ 64 - 1 }
    requires sink { (K.state sink.old).failures < 2 ^ 64 - 1 }

    // The bytes written are the table file, by what the sources yielded, or none if that is an
    // error. If memory runs out while the schema is read, its source counts as one that found no
    // memory, and the CSV's as not reached.
    ensures file { (schema csv : Arrival) × (given : Result (List ℕ) Fault)
        × ReadOutcome longest_schema (S.state schema_source.old) (S.state schema_source.new) schema
        × ReadOutcome longest_csv (C.state csv_source.old) (C.state csv_source.new) csv
        × IsFile layout schema csv given
        × WriteOutcome is_exempt (K.state sink.old) (K.state sink.new) given result }

    // If the CSV's reader has an error of its own, the schema was accepted, the CSV was read
    // completely, and the error is at the heading, or at the record after those that have rows.
    ensures reader { IfErr result (λ fault. is_reader_fault fault ≡ true → (schema : Schema)
        × HasReadSchema (ReadOutcome longest_schema (S.state schema_source.old)
        (S.state schema_source.new)) schema × StopsInCsv
        (ReadOutcome longest_csv (C.state csv_source.old) (C.state csv_source.new)) schema fault) }

    // Of a source at most one byte past its limit is read. The call fails by a failed read if and
    // only if the count of one source rose.
    ensures schema { TookAtMost (longest_schema + 1) (S.state schema_source.old)
        (S.state schema_source.new) }
    ensures csv { TookAtMost (longest_csv + 1) (C.state csv_source.old) (C.state csv_source.new) }
    ensures failed { TellsFailureOfEither (S.state schema_source.old) (S.state schema_source.new)
        (C.state csv_source.old) (C.state csv_source.new) result }

    // If the schema's source failed, or the schema is rejected, the CSV's source is as it was.
    ensures unread { (S.state schema_source.old).failures < (S.state schema_source.new).failures
        → csv_source.new ≡ csv_source.old }
    ensures unneeded { IfErr result (λ fault. IsTrue (is_before_csv fault) → csv_source.new
        ≡ csv_source.old) }
{
    load_in_order(
        alloc,
        schema_source,
        csv_source,
        FileOrder::ByRows,
        layout,
        sink,
    )
}

/// Writes the rows of a CSV text, under the schema of a schema text, as a file by rows or by
/// columns. Nothing is written before all else has succeeded. In memory are the CSV text, the file's
/// bytes, and one segment; by columns also the blocks of all segments. Each device's count of failures must be less than 2^64 - 1.
///
/// Errors, in this order: the schema's source (701) and text (106, 101 to 105), the CSV's source
/// (701) and text (208, 201 to 209), and the sink (702). 801 at any time, if memory is refused.
pub fn load_in_order<S: Source, C: Source, K: Sink>(
    alloc: Global,
    schema_source: &mut S,
    csv_source: &mut C,
    order: FileOrder,
    layout: Layout,
    sink: &mut K,
) -> Result<(), Fault>
    requires schema { (S.state schema_source.old).failures < 2 ^ 64 - 1 }
    requires csv { (C.state csv_source.old).failures < 2 ^ 64 - 1 }
    requires sink { (K.state sink.old).failures < 2 ^ 64 - 1 }

    // The bytes written are the file, by what the sources yielded, or none if that is an
    // error. If memory runs out while the schema is read, its source counts as one that found no
    // memory, and the CSV's as not reached.
    ensures file { (schema csv : Arrival) × (given : Result (List ℕ) Fault)
        × ReadOutcome longest_schema (S.state schema_source.old) (S.state schema_source.new) schema
        × ReadOutcome longest_csv (C.state csv_source.old) (C.state csv_source.new) csv
        × IsFileIn order layout schema csv given
        × WriteOutcome is_exempt (K.state sink.old) (K.state sink.new) given result }

    // If the CSV's reader has an error of its own, the schema was accepted, the CSV was read
    // completely, and the error is at the heading, or at the record after those that have rows.
    ensures reader { IfErr result (λ fault. is_reader_fault fault ≡ true → (schema : Schema)
        × HasReadSchema (ReadOutcome longest_schema (S.state schema_source.old)
        (S.state schema_source.new)) schema × StopsInCsv
        (ReadOutcome longest_csv (C.state csv_source.old) (C.state csv_source.new)) schema fault) }

    // Of a source at most one byte past its limit is read. The call fails by a failed read if and
    // only if the count of one source rose.
    ensures schema { TookAtMost (longest_schema + 1) (S.state schema_source.old)
        (S.state schema_source.new) }
    ensures csv { TookAtMost (longest_csv + 1) (C.state csv_source.old) (C.state csv_source.new) }
    ensures failed { TellsFailureOfEither (S.state schema_source.old) (S.state schema_source.new)
        (C.state csv_source.old) (C.state csv_source.new) result }

    // If the schema's source failed, or the schema is rejected, the CSV's source is as it was.
    ensures unread { (S.state schema_source.old).failures < (S.state schema_source.new).failures
        → csv_source.new ≡ csv_source.old }
    ensures unneeded { IfErr result (λ fault. IsTrue (is_before_csv fault) → csv_source.new
        ≡ csv_source.old) }
{
    let schema = read_schema(alloc, schema_source)?;
    let csv = read_csv(alloc, csv_source)?;
    let file = file_bytes(alloc, order, layout, &schema, &csv)?;
    write_whole(sink, &file)
}

/// Returns the file of the rows of a CSV text. Errors: those of [`read_rows`].
#[tactic(auto, using(bw_file::proofs::OrderLemmas::same_in_order))]
fn file_bytes(
    alloc: Global,
    order: FileOrder,
    layout: Layout,
    schema: &Schema,
    csv: &[u8],
) -> Result<Vec<u8>, Fault>
    ensures bytes { MatchesUnlessExempt (λ file. file.items) result
        (file_in order layout schema.now csv.now) }
    ensures fault { IfErr result IsRowsFault }
    ensures reader { IfErr result (λ fault. is_reader_fault fault ≡ true
        → StopsUnder schema.now.columns.items (records_of csv.now) fault) }
{
    let mut encoder = Encoder::new(alloc, layout, schema)?;
    read_rows(alloc, schema, csv, &mut encoder)?;
    encoder.finish_in_order(order)
}
