//! The schema that is inferred from a CSV text.
ghost use Rattle.std.specs.Prelude.{◌≡◌, ℕ, List, Ok, true, length, map, replicate, IfErr, IfOk};
ghost use Rattle.std.specs.Prelude.{OnOk, IsTrue};
ghost use Rattle.bw_model.specs.declared.schema.Schema.{Schema};
ghost use Rattle.bw_model.specs.Limits.{most_rows};
ghost use Rattle.bw_model.specs.Name.{is_name};
ghost use Rattle.bw_model.specs.Row.{values_of};
ghost use Rattle.bw_model.specs.SchemaText.{column_shape, schema_shape};
ghost use Rattle.bw_model.specs.Column.{names_of};
ghost use Rattle.bw_csv.specs.Records.{remaining_records, fields_in};
ghost use Rattle.bw_csv.specs.Rest.{IsReadable, to_come};
ghost use Rattle.bw_csv.specs.Bare.{bare_rows};
ghost use Rattle.bw_csv.specs.Rule.{any_number};
ghost use Rattle.bw_csv.specs.Rows.{MatchesUnlessExempt, is_reader_fault, StopsAfter};
ghost use Rattle.bw_csv_calls.specs.Infer.{is_inferring_fault, StopsInferring};
ghost use Rattle.bw_csv_calls.specs.InferredSchema.{infer_schema, IsExact};
ghost use Rattle.bw_csv_calls.specs.ColumnStats.{columns_after, no_stats, with_records};

use crate::column_stats::{ColumnStats, take_values};
use crate::columns::columns_from_stats;
use crate::heading::heading_names;
use bw_csv::{FieldRule, Records, Rest, rules_without_schema, without_more_fields};
use bw_model::{Column, Fault, MAX_COLUMNS, Name, Row, Schema, code};
use std::alloc::{AllocError, Global};

/// Returns the schema that is inferred from a CSV text, with this table name, which must be valid.
///
/// Errors: the first wrong record: a text without one (201); a heading that isn't valid names (105,
/// 102, 104); then for each record its number of fields (203), a row past 2^24 (207), and its
/// fields from the left: not a whole number (204), or one that doesn't fit 64 bits (205). At last,
/// a column whose values are 2^63 or more apart (103, at record 0). 209 is any other error of the
/// reader; 801 if memory is refused.
///
/// Of a heading of more than 64 columns only the first 64 are read.
pub(crate) fn infer_schema(alloc: Global, table: &[u8], text: &[u8]) -> Result<Schema, Fault>
    requires { IsTrue (is_name table.now) }
    ensures schema { MatchesUnlessExempt schema_shape result (infer_schema table.now text.now) }
    ensures fault { IfErr result (λ fault. is_inferring_fault fault ≡ true) }
    ensures reader { IfErr result (λ fault. is_reader_fault fault ≡ true
        → StopsInferring text.now fault) }
{
    schema_of(alloc, table, without_more_fields(text, MAX_COLUMNS))
}

/// Returns the schema of a text whose heading is read completely.
#[tactic(auto, unfolding(crate::specs::InferredSchema::inferred_after))]
fn schema_of(alloc: Global, table: &[u8], text: &[u8]) -> Result<Schema, Fault>
    requires { IsTrue (is_name table.now) }
    ensures schema { MatchesUnlessExempt schema_shape result (infer_schema table.now text.now) }
    ensures fault { IfErr result (λ fault. is_inferring_fault fault ≡ true) }
    ensures reader { IfErr result (λ fault. is_reader_fault fault ≡ true
        → StopsInferring text.now fault) }
{
    let mut records = Records::new(alloc, text);
    if !records.next(0)? {
        return Err(Fault::at_record(code::NO_HEADING, 0));
    }
    let names = heading_names(alloc, &records)?;
    let mut rest = Rest::new(alloc, text, records);
    let columns = columns_after(alloc, &mut rest, &names)?;
    Ok(Schema {
        name: Name::new(alloc, table)?,
        columns,
    })
}

/// Returns the columns of these names, from the rows of the unread records, the first of which has
/// number 1.
fn columns_after(alloc: Global, rest: &mut Rest<'_>, names: &[Name]) -> Result<Vec<Column>, Fault>
    requires { IsReadable rest.old }
    ensures columns { MatchesUnlessExempt (λ columns. map column_shape columns.items) result
        (columns_after names.now (to_come rest.old)) }
    ensures names { IfOk result (λ columns. names_of columns.items ≡ names.now) }
    ensures fault { IfErr result (λ fault. is_inferring_fault fault ≡ true) }
    ensures reader { IfErr result (λ fault. is_reader_fault fault ≡ true
        → StopsAfter (bare_rows (length names.now)) (to_come rest.old) fault) }
{
    let seen = stats_of_rows(alloc, rest, names.len())?;
    columns_from_stats(alloc, names, &seen)
}

/// Returns the statistics of `width` columns, over the rows of the unread records, the first of
/// which has number 1.
fn stats_of_rows(
    alloc: Global,
    rest: &mut Rest<'_>,
    width: usize,
) -> Result<Vec<ColumnStats>, Fault>
    requires { IsReadable rest.old }
    ensures seen { MatchesUnlessExempt (λ columns. columns.items) result
        (with_records (replicate width no_stats) width 1 (to_come rest.old)) }
    ensures width { IfOk result (λ columns. length columns.items ≡ width) }
    ensures fault { IfErr result (λ fault. is_inferring_fault fault ≡ true) }
    ensures reader { IfErr result (λ fault. is_reader_fault fault ≡ true
        → StopsAfter (bare_rows width) (to_come rest.old) fault) }
{
    let rules = rules_without_schema(alloc, width)?;
    let mut row = Row {
        values: Vec::with_capacity(alloc, width)?,
    };
    let mut seen = empty_stats(alloc, width)?;
    take_rows(&rules, rest, &mut row, &mut seen)?;
    Ok(seen)
}

/// Returns `width` columns without a value yet.
fn empty_stats(alloc: Global, width: usize) -> Result<Vec<ColumnStats>, AllocError>
    ensures { IfOk result (λ columns. columns.items ≡ replicate width no_stats) }
{
    let mut columns = Vec::new(alloc);
    let nothing = ColumnStats {
        least: None,
        greatest: None,
        has_null: false,
    };
    columns.resize(width, nothing)?;
    Ok(columns)
}

/// Adds the rows of the unread records, the first of which has number 1.
fn take_rows(
    rules: &[FieldRule],
    rest: &mut Rest<'_>,
    row: &mut Row,
    columns: &mut Vec<ColumnStats>,
) -> Result<(), Fault>
    requires readable { IsReadable rest.old }
    requires rules { rules.now ≡ replicate (length columns.old.items) any_number }
    ensures seen { MatchesUnlessExempt (λ _. columns.new.items) result
        (with_records columns.old.items (length columns.old.items) 1 (to_come rest.old)) }
    ensures width { OnOk result (length columns.new.items ≡ length columns.old.items) }
    ensures fault { IfErr result (λ fault. is_inferring_fault fault ≡ true) }
    ensures reader { IfErr result (λ fault. is_reader_fault fault ≡ true
        → StopsAfter (bare_rows (length columns.old.items)) (to_come rest.old) fault) }
{
    let mut number = 1;
    'rows: while rest.next_row(rules, number, row)? {
        take_values(columns, &row.values);
        number += 1;
    }
    Ok(())
}

/// A law: the schema that is inferred from a CSV text is exact for it: the text has its rows under
/// the schema, and no column could be narrower.
pub fn inferred_schemas_are_exact()
    ensures { (table text : List ℕ) (schema : Schema) → infer_schema table text
        ≡ Ok (schema_shape schema) → IsExact schema.columns.items text }
{}
