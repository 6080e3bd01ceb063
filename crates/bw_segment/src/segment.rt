//! The queries of a segment, in either layout.
ghost use Rattle.std.specs.Prelude.{◌≡◌, ◌^◌, ◌<◌, ◌≤◌, ◌==◌, length, map, max, min, nat_lt};
ghost use Rattle.std.specs.Prelude.{slice_index_or, sum, [], IfSome, Some, true, false};
ghost use Rattle.std.specs.List.{list_any, reduce};
ghost use Rattle.bw_lanes.specs.Lanes.{lanes_of_words};
ghost use Rattle.bw_model.specs.Code.{slices_at, width_at};
ghost use Rattle.bw_model.specs.Groups.{group_size};
ghost use Rattle.bw_model.specs.Row.{value_in};
ghost use Rattle.bw_model.specs.Variable.{bit_variable, null_variable, variables_of};
ghost use Rattle.bw_segment.specs.Meaning.{Meaning, IsGroup, variable_lanes, byte_lanes};
ghost use Rattle.bw_segment.specs.Meaning.{code_lanes, null_bits};
ghost use Rattle.bw_segment.specs.Selected.{bit_lanes, codes_in, is_beyond, is_greatest};

use crate::extremes::Extreme;
use bw_lanes::{LANES, Plane, Selection};
use bw_model::{Schema, Value};

/// 1 to 512 rows of a table, stored by columns. The methods allocate no memory and never fail.
pub trait Segment {
    ghost meaning: { Self → Meaning };

    /// Returns the table's schema.
    fn schema(&self) -> &Schema
        ensures name { result.now.name ≡ (meaning self.now).name }
        ensures columns { result.now.columns.items ≡ (meaning self.now).columns };

    /// Returns how many rows the segment has, 1 to 512.
    fn rows_in(&self) -> u32
        ensures count { result ≡ length (meaning self.now).rows }
        ensures bounds { (1 ≤ result) × (result ≤ group_size) };

    /// Returns the rows in which a bit of a column's code is 1. Bit 0 is the least. Null, and the
    /// rows past the last one, have code 0.
    fn bit(&self, col: usize, bit: u32) -> Plane
        requires column { col < length (meaning self.now).columns }
        requires bit { bit < width_at (meaning self.now).columns col }
        ensures { lanes_of_words result ≡ bit_lanes (meaning self.now) col bit };

    /// Returns the rows in which a column is null, which are none if it isn't nullable.
    fn nulls(&self, col: usize) -> Plane
        requires { col < length (meaning self.now).columns }
        ensures { lanes_of_words result ≡ null_bits (meaning self.now).rows col };

    /// Returns the rows in which a byte of a column's code is less than `c`. The code is padded to
    /// whole bytes by zero bits at its top; byte 0 is the least. Null, and the rows past the last
    /// one, have code 0.
    fn byte_lt(&self, col: usize, slice: usize, c: u8) -> Plane
        requires column { col < length (meaning self.now).columns }
        requires slice { slice < slices_at (meaning self.now).columns col }
        ensures { lanes_of_words result
            ≡ map (λ byte. nat_lt byte c) (byte_lanes (meaning self.now) col slice) };

    /// Returns the rows in which a byte of a column's code, padded as for `byte_lt`, is `c`.
    fn byte_eq(&self, col: usize, slice: usize, c: u8) -> Plane
        requires column { col < length (meaning self.now).columns }
        requires slice { slice < slices_at (meaning self.now).columns col }
        ensures { lanes_of_words result
            ≡ map (λ byte. byte == c) (byte_lanes (meaning self.now) col slice) };

    /// Returns the sum of a column's codes in these rows. Null, and the rows past the last one,
    /// have code 0.
    fn sum_of_codes(&self, col: usize, rows: &Selection) -> u128
        requires { col < length (meaning self.now).columns }
        ensures sum { result ≡ sum (codes_in (meaning self.now) col (lanes_of_words rows.now)) }
        ensures bound { result ≤ 2 ^ 72 };

    /// Returns the minimum of a column's codes in these rows, or None if there are no rows. Null,
    /// and the rows past the last one, have code 0.
    fn min_code(&self, col: usize, rows: &Selection) -> Option<u64>
        requires { col < length (meaning self.now).columns }
        ensures least { result
            ≡ reduce min (codes_in (meaning self.now) col (lanes_of_words rows.now)) }
        ensures bound { IfSome result (λ code. code < 2 ^ 63) };

    /// Returns the maximum of a column's codes in these rows, or None if there are no rows. Null,
    /// and the rows past the last one, have code 0.
    fn max_code(&self, col: usize, rows: &Selection) -> Option<u64>
        requires { col < length (meaning self.now).columns }
        ensures greatest { result
            ≡ reduce max (codes_in (meaning self.now) col (lanes_of_words rows.now)) }
        ensures bound { IfSome result (λ code. code < 2 ^ 63) };

    /// Returns true only if no code of a column in these rows is beyond `other`: above it, or below
    /// it if the least is sought. It may return false then too: where most digits would have to be
    /// read, the maximum or the minimum is found as fast. The caller says whether the rows are few:
    /// of few, fewer digits are read. Null, and the rows past the last one, have code 0.
    fn none_beyond(
        &self,
        col: usize,
        rows: &Selection,
        are_few: bool,
        other: u64,
        which: Extreme,
    ) -> bool
        requires column { col < length (meaning self.now).columns }
        requires other { other < 2 ^ 63 }
        ensures { result ≡ true → list_any (is_beyond (is_greatest which) other)
            (codes_in (meaning self.now) col (lanes_of_words rows.now)) ≡ false };

    /// Sets `codes` to the stored codes of a column in the 512 lanes: lane i has that of row i.
    /// Null, and the rows past the last one, have code 0.
    fn codes(&self, col: usize, codes: &mut [u64; LANES])
        requires { col < length (meaning self.now).columns }
        ensures { codes.new ≡ code_lanes (meaning self.now) col };

    /// Returns the value of a row, from 0, in a column.
    fn value(&self, col: usize, row: usize) -> Value
        requires column { col < length (meaning self.now).columns }
        requires row { row < length (meaning self.now).rows }
        ensures { result ≡ value_in (slice_index_or (meaning self.now).rows row []) col };

    /// A law: the rows are those of one group, which the columns admit.
    ghost is_group: { (segment : Self) → IsGroup (meaning segment) };

    /// Returns the bit of a variable in each row; it is 0 past the last one.
    final fn plane(&self, var: u32) -> Plane
        requires { var < variables_of (meaning self.now).columns }
        ensures { lanes_of_words result ≡ variable_lanes (meaning self.now) var }
    {
        let (col, bit) = place_of(self.schema(), var);
        if bit < self.schema().width(col) {
            self.bit(col, bit)
        } else {
            self.nulls(col)
        }
    }
}

/// Returns the column of a variable, and how many of the column's variables follow it: those of its
/// lower bits, or of all its bits if it is the null variable.
fn place_of(schema: &Schema, var: u32) -> (usize, u32)
    requires { var < variables_of schema.now.columns.items }
    ensures column { result.0 < length schema.now.columns.items }
    ensures bit { result.1 < width_at schema.now.columns.items result.0
        → var ≡ bit_variable schema.now.columns.items result.0 result.1 }
    ensures null { width_at schema.now.columns.items result.0 ≤ result.1
        → null_variable schema.now.columns.items result.0 ≡ Some var }
{
    let mut rest = var;
    for col in 0..schema.columns.len() {
        let count = u32::from(schema.columns[col].nullable) + schema.width(col);
        if rest < count {
            return (col, count - 1 - rest);
        }
        rest -= count;
    }
    unreachable!()
}
