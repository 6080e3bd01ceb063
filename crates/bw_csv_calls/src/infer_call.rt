//! A schema text written from a CSV text.
ghost use Rattle.std.specs.Prelude.{◌≡◌, ◌+◌, ◌-◌, ◌^◌, ◌<◌, ℕ, List, Result, true, false, IfOk};
ghost use Rattle.std.specs.Prelude.{IfErr, IsTrue, OnOk};
ghost use Rattle.bw_model.specs.declared.fault.Fault.{Fault};
ghost use Rattle.bw_model.specs.Limits.{longest_csv};
ghost use Rattle.bw_model.specs.Name.{is_name};
ghost use Rattle.bw_io.specs.Sink.{WriteOutcome};
ghost use Rattle.bw_io.specs.Source.{Arrival, Whole, ReadOutcome, SourceEffect};
ghost use Rattle.bw_csv.specs.Rows.{is_exempt, is_reader_fault, MatchesUnlessExempt};
ghost use Rattle.bw_csv_calls.specs.Infer.{inferred_text, is_inferring_fault, InfersExactly};
ghost use Rattle.bw_csv_calls.specs.Infer.{IsTextFrom, SpellsExactly, StopsInferring};

use crate::print::print_schema;
use crate::schema::{infer_schema, inferred_schemas_are_exact};
use bw_csv::read_csv;
use bw_io::{Sink, Source, write_whole};
use bw_model::{Fault, code, is_name};
use std::alloc::Global;

/// Writes the narrowest schema text for a CSV text: a table of this name, and a column for each
/// heading, from its values' minimum to their maximum, with `NOT NULL` if no field is null. A
/// column without a number has `0 0`.
///
/// Nothing is written before all else has succeeded. In memory are the CSV text, up to 1 GiB, a
/// row, and three values for each column. Each device's count of failures must be less than 2^64 -
/// 1.
///
/// Errors, in this order:
///
/// - 102, without a place: the table's name is invalid; the CSV's source isn't read then
/// - 701, 208: the CSV's source and length
/// - the CSV's first wrong record: 201; 105, 102 and 104, at record 0, for a heading; 203, 207,
///   204, 205, and 209
/// - 103, at record 0: a column's values are 2^63 or more apart
/// - 702: the sink
///
/// 801 at any time, if memory is refused.
pub fn infer<C: Source, K: Sink>(
    alloc: Global,
    table: &[u8],
    csv_source: &mut C,
    sink: &mut K,
) -> Result<(), Fault>
    requires csv { (C.state csv_source.old).failures < 2 ^ 64 - 1 }
    requires sink { (K.state sink.old).failures < 2 ^ 64 - 1 }

    // The bytes written are the text of the schema that is inferred from what the source yielded,
    // or none if that is an error. If the table's name is invalid, the source wasn't reached.
    ensures schema { (csv : Arrival) × (given : Result (List ℕ) Fault)
        × ReadOutcome longest_csv (C.state csv_source.old) (C.state csv_source.new) csv
        × IsTextFrom table.now csv given
        × WriteOutcome is_exempt (K.state sink.old) (K.state sink.new) given result }

    // The text that was written spells a schema under which the CSV text has its rows without an
    // error, and no column could be narrower.
    ensures exact { OnOk result ((csv : List ℕ)
        × ReadOutcome longest_csv (C.state csv_source.old) (C.state csv_source.new) (Whole csv)
        × InfersExactly csv (K.state sink.old).taken (K.state sink.new).taken) }

    // If the reader has an error of its own, the CSV was read completely, and the error is at the
    // heading, or at the record after those that have rows.
    ensures reader { IfErr result (λ fault. is_reader_fault fault ≡ true → (csv : List ℕ)
        × ReadOutcome longest_csv (C.state csv_source.old) (C.state csv_source.new) (Whole csv)
        × StopsInferring csv fault) }

    // Of the source at most one byte past its limit is read. The call fails by a failed read if and
    // only if the source's count of failures rose. If the table's name is invalid, the source is as
    // it was.
    ensures csv { SourceEffect (longest_csv + 1) (C.state csv_source.old)
        (C.state csv_source.new) result }
    ensures unneeded { is_name table.now ≡ false → csv_source.new ≡ csv_source.old }
{
    if !is_name(table) {
        return Err(Fault::new(code::SCHEMA_NAME));
    }
    let csv = read_csv(alloc, csv_source)?;
    let text = inferred_text(alloc, table, &csv)?;
    write_whole(sink, &text)
}

/// Returns the text of the schema that is inferred from a CSV text.
fn inferred_text(alloc: Global, table: &[u8], csv: &[u8]) -> Result<Vec<u8>, Fault>
    requires { IsTrue (is_name table.now) }
    ensures text { MatchesUnlessExempt (λ text. text.items) result
        (inferred_text table.now csv.now) }
    ensures exact { IfOk result (λ text. SpellsExactly text.items csv.now) }
    ensures fault { IfErr result (λ fault. is_inferring_fault fault ≡ true) }
    ensures reader { IfErr result (λ fault. is_reader_fault fault ≡ true
        → StopsInferring csv.now fault) }
{
    inferred_schemas_are_exact();
    let schema = infer_schema(alloc, table, csv)?;
    print_schema(alloc, &schema)
}
