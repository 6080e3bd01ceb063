//! Variables of a schema's columns, if the schema has them.
ghost use Rattle.std.specs.Prelude.{◌≤◌, IfSome};

use bw_model::Schema;

/// Returns how many bits a column's codes have, if the schema has the column.
pub(crate) fn width_of(schema: &Schema, column: usize) -> Option<u32>
    ensures { IfSome result (λ width. width ≤ 63) }
{
    if column >= schema.columns.len() {
        return None;
    }
    Some(schema.width(column))
}

/// Returns the variable of a column's bit, if the column has that bit.
pub(crate) fn bit_variable(schema: &Schema, column: usize, bit: u32) -> Option<u64> {
    if column >= schema.columns.len() || bit >= schema.width(column) {
        return None;
    }
    Some(u64::from(schema.var_bit(column, bit)))
}

/// Returns the null variable of a column, if it has one.
pub(crate) fn null_variable(schema: &Schema, column: usize) -> Option<u64> {
    if column >= schema.columns.len() {
        return None;
    }
    Some(u64::from(schema.var_null(column)?))
}
