//! The table of coded columns.
ghost use Rattle.std.specs.Prelude.{◌≡◌, ◌≤◌, ◌<◌, ◌+◌, ℕ, List, [], All, IfOk, IfErr, IsTrue};
ghost use Rattle.std.specs.Prelude.{IsOkUnless, OnOk, length, map, true};
ghost use Rattle.std.specs.Fmt.{decimal};
ghost use Rattle.bw_model.specs.Column.{admits_values, names_of};
ghost use Rattle.bw_model.specs.Fault.{no_memory};
ghost use Rattle.bw_model.specs.Limits.{most_columns, most_rows};
ghost use Rattle.bw_model.specs.Name.{is_name};
ghost use Rattle.bw_model.specs.Row.{Value, values_of};
ghost use Rattle.bw_encode.specs.Coded.{IsCoded, encoding_of, fields_in};
ghost use Rattle.bw_encode.specs.Column.{values_in};
ghost use Rattle.bw_encode.specs.Table.{IsNarrowest, IsSchemaOf, column_name, column_names, row_at};
ghost use Rattle.bw_encode.specs.Table.{rows_upto};

use crate::coded::Coded;
use bw_model::{Column, Fault, Name, Row, RowConsumer, Schema};
use itoa::Buffer;
use std::alloc::{AllocError, Global};

/// Returns the schema of 1 to 64 columns. Fails only if memory is refused.
pub(crate) fn schema_of(alloc: Global, columns: &[Coded<'_>]) -> Result<Schema, AllocError>
    requires coded { All IsCoded columns.now }
    requires some { 1 ≤ length columns.now }
    requires within { length columns.now ≤ most_columns }
    ensures { IfOk result (λ schema. IsSchemaOf (map encoding_of columns.now) schema) }
{
    let mut all: Vec<Column> = Vec::with_capacity(alloc, columns.len())?;
    for (place, column) in columns.iter().enumerate() {
        all.push(column_of(alloc, place, column)?)?;
    }
    Ok(Schema {
        name: Name::new(alloc, b"t")?,
        columns: all,
    })
}

/// Returns the column of a place, which is below 64. Fails only if memory is refused.
fn column_of(alloc: Global, place: usize, column: &Coded<'_>) -> Result<Column, AllocError>
    requires coded { IsCoded column.now }
    requires within { place < most_columns }
    ensures name { IfOk result (λ made. made.name ≡ column_name place) }
    ensures narrow { IfOk result (IsNarrowest (values_in (encoding_of column.now))) }
{
    Ok(Column {
        name: name_of(alloc, place)?,
        lo: column.seen.lo,
        hi: column.seen.hi,
        nullable: column.seen.has_null,
    })
}

/// Returns the name of the column of a place, which is below 64. Fails only if memory is refused.
fn name_of(alloc: Global, place: usize) -> Result<Name, AllocError>
    requires { place < most_columns }
    ensures { IfOk result (λ name. name ≡ column_name place) }
{
    let mut buffer = Buffer::new();
    let mut name = Vec::from_slice(alloc, b"c")?;
    name.extend_from_slice(buffer.format(place as u64 + 1).as_bytes())?;
    Name::new(alloc, &name)
}

/// Delivers the first `count` rows of columns to a consumer, in order. It must accept each of them.
/// Fails only if memory is refused.
pub(crate) fn deliver_rows<K: RowConsumer>(
    alloc: Global,
    columns: &[Coded<'_>],
    count: usize,
    consumer: &mut K,
) -> Result<(), Fault>
    requires coded { All IsCoded columns.now }
    requires tall { All (λ column. count ≤ length (fields_in column)) columns.now }
    requires within { count ≤ most_rows }
    requires takes { (row : ℕ) → row < count
        → IsTrue (K.takes consumer.old (row_at (map encoding_of columns.now) row)) }
    requires fresh { K.rows consumer.old ≡ 0 }
    requires starts { K.led consumer.old [] consumer.old }
    ensures led { OnOk result (K.led consumer.old (rows_upto (map encoding_of columns.now) count)
        consumer.new) }
    ensures only_oom { IsOkUnless result no_memory }
{
    let mut row = Row {
        values: Vec::with_capacity(alloc, columns.len())?,
    };
    for number in 0..count {
        fill_row(columns, number, &mut row)?;
        consumer.take(&row)?;
    }
    Ok(())
}

/// Writes a row of columns, which have it, into `row`. Fails only if memory is refused.
fn fill_row(columns: &[Coded<'_>], number: usize, row: &mut Row) -> Result<(), AllocError>
    requires coded { All IsCoded columns.now }
    requires tall { All (λ column. number < length (fields_in column)) columns.now }
    ensures { OnOk result (values_of row.new ≡ row_at (map encoding_of columns.now) number) }
{
    row.values.clear();
    for column in columns {
        row.values.push(column.value(number))?;
    }
    Ok(())
}
