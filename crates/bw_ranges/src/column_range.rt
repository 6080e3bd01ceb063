//! Ranges of a column's values, and comparisons of values in them.
ghost use Rattle.std.specs.Prelude.{◌≡◌, ◌≤◌, ◌||◌, ℕ, ℤ, Some, IsTrue};
ghost use Rattle.bw_model.specs.Code.{code_of, span_of, value_of_code};
ghost use Rattle.bw_model.specs.Column.{admits_value};
ghost use Rattle.bw_model.specs.Row.{Value};
ghost use Rattle.bw_ranges.specs.ColumnRange.{compare_ranges, has_numbers, has_value, may_hold};
ghost use Rattle.bw_ranges.specs.ColumnRange.{null_truths, one_number, only_null, opposite_op};
ghost use Rattle.bw_ranges.specs.ColumnRange.{operand_range, range_of_column};

use crate::truth_set::TruthSet;
use bw_model::{Column, Op, Operand, Value};

/// The values that a column may have in some rows: the numbers from `least` to `greatest`, both
/// included, and null if it has nulls. No number is in a range whose `least` is above its
/// `greatest`.
#[derive(Clone, Copy, Debug, PartialEq, Eq)]
pub struct ColumnRange {
    pub least: i64,
    pub greatest: i64,
    pub has_nulls: bool,
}

impl ColumnRange {
    /// Returns the range of what a column admits.
    pub fn of_column(column: &Column) -> Self
        ensures range { result ≡ range_of_column column.now }
        ensures values { (value : Value) → has_value result value ≡ admits_value column.now value }
    {
        ColumnRange {
            least: column.lo,
            greatest: column.hi,
            has_nulls: column.nullable,
        }
    }

    /// Returns the range of a column's values whose codes are from `least` to `greatest`.
    pub fn of_codes(column: &Column, least: u64, greatest: u64, has_nulls: bool) -> Self
        ensures numbers { (n : ℤ) (code : ℕ) → code_of column.now (Some n) ≡ Some code
            → least ≤ code → code ≤ greatest → IsTrue (has_value result (Some n)) }
        ensures least { least ≤ span_of column.now
            → result.least ≡ value_of_code column.now least }
        ensures greatest { greatest ≤ span_of column.now
            → result.greatest ≡ value_of_code column.now greatest }
        ensures nulls { result.has_nulls ≡ has_nulls }
    {
        let _bound = column.hi;
        ColumnRange {
            least: column.lo.saturating_add_unsigned(least),
            greatest: column.lo.saturating_add_unsigned(greatest),
            has_nulls,
        }
    }

    /// Returns the range of one number.
    pub(crate) fn one_number(n: i64) -> Self
        ensures { result ≡ one_number n }
    {
        ColumnRange {
            least: n,
            greatest: n,
            has_nulls: false,
        }
    }

    /// Returns the range of null alone.
    pub fn only_null() -> Self
        ensures { result ≡ only_null }
    {
        ColumnRange {
            least: 1,
            greatest: 0,
            has_nulls: true,
        }
    }

    /// Returns the least range that has the values of both.
    pub fn hull(&self, other: &ColumnRange) -> Self
        ensures { (value : Value) → IsTrue (has_value self.now value || has_value other.now value)
            → IsTrue (has_value result value) }
    {
        let has_nulls = self.has_nulls | other.has_nulls;
        match (self.has_numbers(), other.has_numbers()) {
            (false, _) => ColumnRange {
                has_nulls,
                ..*other
            },
            (true, false) => ColumnRange { has_nulls, ..*self },
            (true, true) => ColumnRange {
                least: self.least.min(other.least),
                greatest: self.greatest.max(other.greatest),
                has_nulls,
            },
        }
    }

    /// Returns whether a value is in the range.
    pub fn has(&self, value: Value) -> bool
        ensures { result ≡ has_value self.now value }
    {
        match value {
            None => self.has_nulls,
            Some(n) => self.least <= n && n <= self.greatest,
        }
    }

    /// Returns whether there is a number in the range.
    fn has_numbers(&self) -> bool
        ensures { result ≡ has_numbers self.now }
    {
        self.least <= self.greatest
    }

    /// Returns what a comparison of a value in this range with one in another may be.
    pub(crate) fn compare(&self, op: Op, other: &ColumnRange) -> TruthSet
        ensures { result ≡ compare_ranges op self.now other.now }
    {
        let has_numbers = self.has_numbers() & other.has_numbers();
        TruthSet {
            no: has_numbers & may_hold(opposite(op), self, other),
            unknown: self.has_nulls | other.has_nulls,
            yes: has_numbers & may_hold(op, self, other),
        }
    }

    /// Returns what `IS NULL` of a value in the range may be.
    pub(crate) fn null_truths(&self) -> TruthSet
        ensures { result ≡ null_truths self.now }
    {
        TruthSet {
            no: self.has_numbers(),
            unknown: false,
            yes: self.has_nulls,
        }
    }
}

/// Returns the range of the values that an operand has. A column beyond the last range has only
/// null.
pub(crate) fn operand_range(operand: Operand, ranges: &[ColumnRange]) -> ColumnRange
    ensures { result ≡ operand_range ranges.now operand }
{
    match operand {
        Operand::Col(column) => match ranges.get(column) {
            Some(range) => *range,
            None => ColumnRange::only_null(),
        },
        Operand::Lit(n) => ColumnRange::one_number(n),
        Operand::Null => ColumnRange::only_null(),
    }
}

/// Returns the comparison that holds exactly if this one doesn't.
const fn opposite(op: Op) -> Op
    ensures { result ≡ opposite_op op }
{
    match op {
        Op::Eq => Op::Ne,
        Op::Ne => Op::Eq,
        Op::Lt => Op::Ge,
        Op::Gt => Op::Le,
        Op::Le => Op::Gt,
        Op::Ge => Op::Lt,
    }
}

/// Returns whether the comparison holds of some number in one range and some number in another, if
/// both have numbers.
fn may_hold(op: Op, x: &ColumnRange, y: &ColumnRange) -> bool
    ensures { result ≡ may_hold op x.now y.now }
{
    match op {
        Op::Eq => x.least <= y.greatest && y.least <= x.greatest,
        Op::Ne => x.least < y.greatest || y.least < x.greatest,
        Op::Lt => x.least < y.greatest,
        Op::Gt => y.least < x.greatest,
        Op::Le => x.least <= y.greatest,
        Op::Ge => y.least <= x.greatest,
    }
}
