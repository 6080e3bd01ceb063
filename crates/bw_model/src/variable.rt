//! The variables of a schema: the null bits and code bits of a row, numbered from 0.
ghost use Rattle.std.specs.Prelude.{◌≡◌, ◌+◌, ◌*◌, ◌/◌, ◌%◌, ◌^◌, ◌<◌, ◌≤◌, ℕ, List, Some, IfSome};
ghost use Rattle.std.specs.Prelude.{length, IsTrue};
ghost use Rattle.bw_model.specs.Column.{admits_values};
ghost use Rattle.bw_model.specs.Code.{width_at, slices_at, has_bit};
ghost use Rattle.bw_model.specs.StoredCodes.{stored_at, number_spelled, byte_of, byte_spelled};
ghost use Rattle.bw_model.specs.StoredCodes.{no_bits};
ghost use Rattle.bw_model.specs.Truth.{is_null};
ghost use Rattle.bw_model.specs.Variable.{Assignment, variables_of, null_variable, bit_variable};
ghost use Rattle.bw_model.specs.Variable.{assignment_of, bits_of, row_of, value_assigned};
ghost use Rattle.bw_model.specs.Row.{Value, value_in};

use crate::column::Column;
use crate::schema::Schema;

impl Schema {
    /// Returns how many variables the schema has, at most 4,096.
    pub fn var_count(&self) -> u32
        ensures count { result ≡ variables_of self.now.columns.items }
        ensures bound { result ≤ 4096 }
    {
        count(&self.columns)
    }

    /// Returns the null variable of a column, which precedes its bits, or None if the column isn't
    /// nullable.
    pub fn var_null(&self, col: usize) -> Option<u32>
        requires { col < length self.now.columns.items }
        ensures variable { result ≡ null_variable self.now.columns.items col }
        ensures below { IfSome result (λ variable. variable < variables_of self.now.columns.items) }
    {
        let first = count(&self.columns[..col]);
        self.columns[col].nullable.then_some(first)
    }

    /// Returns the variable of a column's bit, which must be less than the column's width. Bit 0 is
    /// the least; the highest bit has the first variable.
    pub fn var_bit(&self, col: usize, bit: u32) -> u32
        requires column { col < length self.now.columns.items }
        requires bit { bit < width_at self.now.columns.items col }
        ensures variable { result ≡ bit_variable self.now.columns.items col bit }
        ensures below { result < variables_of self.now.columns.items }
    {
        count(&self.columns[..=col]) - 1 - bit
    }

    /// A law: the bits of an admitted row spell that row.
    pub fn bits_spell_row(&self)
        ensures { (values : List Value) → IsTrue (admits_values self.now.columns.items values)
            → row_of self.now.columns.items (assignment_of (bits_of self.now.columns.items values))
            ≡ values }
    {}

    /// A law: each bit of an admitted row is at its variable.
    pub fn bits_stand_at_variables(&self, col: usize)
        requires { col < length self.now.columns.items }
        ensures count { (values : List Value) → IsTrue (admits_values self.now.columns.items values)
            → length (bits_of self.now.columns.items values) ≡ variables_of self.now.columns.items }
        ensures null { (values : List Value) (variable : ℕ)
            → IsTrue (admits_values self.now.columns.items values)
            → null_variable self.now.columns.items col ≡ Some variable
            → assignment_of (bits_of self.now.columns.items values) variable
            ≡ is_null (value_in values col) }
        ensures code { (values : List Value) (bit : ℕ)
            → IsTrue (admits_values self.now.columns.items values)
            → bit < width_at self.now.columns.items col
            → assignment_of (bits_of self.now.columns.items values)
            (bit_variable self.now.columns.items col bit)
            ≡ has_bit (stored_at self.now.columns.items col (value_in values col)) bit }
    {}

    /// A law: the numbers that the bits of an admitted row spell, among them the bytes of its
    /// stored codes.
    pub fn bits_spell_stored_codes(&self, col: usize)
        requires { col < length self.now.columns.items }
        ensures below { (values : List Value) → IsTrue (admits_values self.now.columns.items values)
            → stored_at self.now.columns.items col (value_in values col)
            < 2 ^ width_at self.now.columns.items col }
        ensures bits { (values : List Value) (start count : ℕ)
            → IsTrue (admits_values self.now.columns.items values)
            → start + count ≤ width_at self.now.columns.items col
            → number_spelled self.now.columns.items col start count
            (assignment_of (bits_of self.now.columns.items values))
            ≡ stored_at self.now.columns.items col (value_in values col) / 2 ^ start % 2 ^ count }
        ensures bytes { (values : List Value) (slice : ℕ)
            → IsTrue (admits_values self.now.columns.items values)
            → slice < slices_at self.now.columns.items col
            → byte_spelled self.now.columns.items col slice
            (assignment_of (bits_of self.now.columns.items values))
            ≡ byte_of slice (stored_at self.now.columns.items col (value_in values col)) }
    {}

    /// A law: an assignment of zeros spells only zeros.
    pub fn no_bits_spell_zero(&self)
        ensures { (col start count : ℕ)
            → number_spelled self.now.columns.items col start count no_bits ≡ 0 }
    {}

    /// A law: the value that an assignment's row has in a column.
    pub fn row_of_assignment(&self, col: usize)
        requires { col < length self.now.columns.items }
        ensures { (bits : Assignment) → value_in (row_of self.now.columns.items bits) col
            ≡ value_assigned self.now.columns.items bits col }
    {}
}

/// Returns how many variables the columns have.
fn count(columns: &[Column]) -> u32
    requires { length columns.now ≤ 64 }
    ensures count { result ≡ variables_of columns.now }
    ensures bound { result ≤ 64 * length columns.now }
{
    let mut count = 0;
    for column in columns {
        count += u32::from(column.nullable) + column.width();
    }
    count
}
