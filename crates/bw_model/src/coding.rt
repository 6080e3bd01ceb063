//! The values that a schema admits, and their codes.
ghost use Rattle.std.specs.Prelude.{◌≡◌, ℕ, ℤ, Some, ◌+◌, ◌<◌, ◌≤◌, ◌^◌, length, max, IfSome};
ghost use Rattle.std.specs.Int.Digits.{digits_of};
ghost use Rattle.bw_model.specs.Row.{values_of};
ghost use Rattle.bw_model.specs.Column.{admits_value, admits_values, column_named};
ghost use Rattle.bw_model.specs.Code.{span_of, width_of, code_of, value_of_code, span_at, width_at};
ghost use Rattle.bw_model.specs.Code.{slices_at, code_at, value_at};

use crate::column::Column;
use crate::row::{Row, Value};
use crate::schema::Schema;

impl Schema {
    /// Returns whether the row has one value for each column. Nulls need a nullable column, and
    /// numbers must be within the column's bounds, both included.
    pub fn admits(&self, row: &Row) -> bool
        ensures { result ≡ admits_values self.now.columns.items (values_of row.now) }
    {
        let mut rest = row.values.as_slice();
        for column in &self.columns {
            let Some((value, others)) = rest.split_first() else {
                return false;
            };
            if !column.admits(*value) {
                return false;
            }
            rest = others;
        }
        rest.is_empty()
    }

    /// Returns the number, from 0, of the column of this name, or None if there is none. The case
    /// of ASCII letters is ignored.
    #[tactic(auto, unfolding(crate::specs::Column::column_named))]
    pub fn column_named(&self, name: &[u8]) -> Option<usize>
        ensures named { result ≡ column_named self.now.columns.items name.now }
        ensures in_range { IfSome result (λ col. col < length self.now.columns.items) }
    {
        self.columns.iter().position(|column| column.name.is(name))
    }

    /// Returns how many binary digits the column's maximum code has: 1 to 63.
    pub fn width(&self, col: usize) -> u32
        requires { col < length self.now.columns.items }
        ensures width { result ≡ width_at self.now.columns.items col }
        ensures bounds { (1 ≤ result) × (result ≤ 63) }
    {
        self.columns[col].width()
    }

    /// Returns how many bytes the column's codes have: 1 to 8.
    pub fn slices(&self, col: usize) -> usize
        requires { col < length self.now.columns.items }
        ensures slices { result ≡ slices_at self.now.columns.items col }
        ensures bounds { (1 ≤ result) × (result ≤ 8) }
    {
        (self.width(col) as usize + 7) / 8
    }

    /// Returns the code of a value: its distance from the column's minimum. Null, and numbers out
    /// of the column's bounds, have none.
    pub fn code(&self, col: usize, value: Value) -> Option<u64>
        requires { col < length self.now.columns.items }
        ensures code { result ≡ code_at self.now.columns.items col value }
        ensures small { IfSome result (λ code. code ≤ span_at self.now.columns.items col) }
        ensures fits { IfSome result (λ code. code < 2 ^ width_at self.now.columns.items col) }
    {
        self.columns[col].code(value)
    }

    /// Returns the value of a code: the column's minimum plus the code.
    pub fn value(&self, col: usize, code: u64) -> i64
        requires column { col < length self.now.columns.items }
        requires code { code ≤ span_at self.now.columns.items col }
        ensures { result ≡ value_at self.now.columns.items col code }
    {
        self.columns[col].value(code)
    }
}

impl Column {
    /// Returns whether the column admits the value.
    pub(crate) fn admits(&self, value: Value) -> bool
        ensures { result ≡ admits_value self.now value }
    {
        match value {
            None => self.nullable,
            Some(n) => self.lo <= n && n <= self.hi,
        }
    }

    /// Returns the column's maximum code.
    pub(crate) fn span(&self) -> u64
        ensures { result ≡ span_of self.now }
    {
        self.hi.abs_diff(self.lo)
    }

    /// Returns how many binary digits the column's maximum code has.
    #[tactic(auto, unfolding(crate::specs::Code::width_of))]
    pub(crate) fn width(&self) -> u32
        ensures width { result ≡ width_of self.now }
        ensures bounds { (1 ≤ result) × (result ≤ 63) }
    {
        digits(self.span())
    }

    /// Returns the code of the value, or None if it has none.
    #[tactic(auto, using(crate::proofs::DigitLemmas::below_width))]
    pub(crate) fn code(&self, value: Value) -> Option<u64>
        ensures code { result ≡ code_of self.now value }
        ensures small { IfSome result (λ code. code ≤ span_of self.now) }
        ensures fits { IfSome result (λ code. code < 2 ^ width_of self.now) }
    {
        match value {
            Some(n) if self.lo <= n && n <= self.hi => Some(n.abs_diff(self.lo)),
            _ => None,
        }
    }

    /// A law: a code's value has that code, and a value's code has that value.
    pub fn codes_spell_values(&self)
        ensures of_code { (code : ℕ) → code ≤ span_of self.now
            → code_of self.now (Some (value_of_code self.now code)) ≡ Some code }
        ensures of_value { (n : ℤ) (code : ℕ) → code_of self.now (Some n) ≡ Some code
            → value_of_code self.now code ≡ n }
    {}

    /// Returns the value of the code.
    pub(crate) fn value(&self, code: u64) -> i64
        requires { code ≤ span_of self.now }
        ensures { result ≡ value_of_code self.now code }
    {
        prove!(self.lo <= self.hi);
        self.lo + code as i64
    }
}

/// Returns how many binary digits the number has, at least 1.
#[tactic(auto, using(crate::proofs::DigitLemmas::length_digits_between))]
fn digits(n: u64) -> u32
    requires { n < 2 ^ 63 }
    ensures digits { result ≡ max 1 (length (digits_of 2 n)) }
    ensures bounds { (1 ≤ result) × (result ≤ 63) }
{
    if n == 0 { 1 } else { n.ilog2() + 1 }
}
