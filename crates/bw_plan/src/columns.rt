//! A schema's columns, which programs name by numbers of a byte.
use bw_model::Schema;
use bw_program::ColumnIndex;

/// Returns a column's number as instructions have it: a schema has at most 64.
pub(crate) fn index_of(column: usize) -> ColumnIndex {
    (column % 64) as u8
}

/// Returns how many bits a column's codes have: none if the schema lacks the column.
pub(crate) fn width_of(schema: &Schema, column: usize) -> u32 {
    if column < schema.columns.len() {
        schema.width(column)
    } else {
        0
    }
}

/// Returns whether a column may be null.
pub(crate) fn is_nullable(schema: &Schema, column: ColumnIndex) -> bool {
    schema
        .columns
        .get(usize::from(column))
        .is_some_and(|column| column.nullable)
}
