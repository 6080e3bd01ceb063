//! The columns of a schema, from the statistics of their values.
ghost use Rattle.std.specs.Prelude.{◌≡◌, length, map, true, false};
ghost use Rattle.std.specs.Prelude.{IfOk, IfErr};
ghost use Rattle.bw_model.specs.Column.{names_of};
ghost use Rattle.bw_model.specs.SchemaText.{column_shape};
ghost use Rattle.bw_csv.specs.Rows.{MatchesUnlessExempt, is_reader_fault};
ghost use Rattle.bw_csv_calls.specs.Infer.{is_inferring_fault};
ghost use Rattle.bw_csv_calls.specs.InferredSchema.{or_zero, check_bounds, ranged_column};
ghost use Rattle.bw_csv_calls.specs.ColumnStats.{column_from_stats, columns_from_stats};

use crate::column_stats::ColumnStats;
use bw_model::{Column, Fault, Name, code, is_range};
use std::alloc::Global;

/// Returns the columns of these names. Errors: 103, at record 0, if bounds are 2^63 or more apart;
/// 801 if memory is refused.
pub(crate) fn columns_from_stats(
    alloc: Global,
    names: &[Name],
    seen: &[ColumnStats],
) -> Result<Vec<Column>, Fault>
    requires { length names.now ≡ length seen.now }
    ensures columns { MatchesUnlessExempt (λ columns. map column_shape columns.items) result
        (check_bounds (columns_from_stats names.now seen.now)) }
    ensures names { IfOk result (λ columns. names_of columns.items ≡ names.now) }
    ensures fault { IfErr result (λ fault. is_inferring_fault fault ≡ true) }
    ensures not_reader { IfErr result (λ fault. is_reader_fault fault ≡ false) }
{
    let mut columns: Vec<Column> = Vec::new(alloc);
    for i in 0..names.len() {
        let column = column_from_stats(alloc, &names[i], &seen[i])?;
        columns.push(column)?;
    }
    Ok(columns)
}

/// Returns the column of this name.
fn column_from_stats(alloc: Global, name: &Name, seen: &ColumnStats) -> Result<Column, Fault>
    ensures column { MatchesUnlessExempt column_shape result
        (ranged_column (column_from_stats name.now seen.now)) }
    ensures name { IfOk result (λ column. column.name ≡ name.now) }
    ensures fault { IfErr result (λ fault. is_inferring_fault fault ≡ true) }
    ensures not_reader { IfErr result (λ fault. is_reader_fault fault ≡ false) }
{
    let lo = or_zero(seen.least);
    let hi = or_zero(seen.greatest);
    if !is_range(lo, hi) {
        return Err(Fault::at_record(code::SCHEMA_RANGE, 0));
    }
    Ok(Column {
        name: Name::new(alloc, name.as_bytes())?,
        lo,
        hi,
        nullable: seen.has_null,
    })
}

/// Returns the bound if there is one, else 0.
fn or_zero(bound: Option<i64>) -> i64
    ensures { result ≡ or_zero bound }
{
    match bound {
        None => 0,
        Some(n) => n,
    }
}
