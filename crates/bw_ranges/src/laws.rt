//! Laws: which rows are within ranges, and what truth a condition may have on them.
ghost use Rattle.std.specs.Prelude.{ℕ, IsTrue, List, map, slice_set};
ghost use Rattle.bw_model.specs.declared.column.Column.{Column};
ghost use Rattle.bw_model.specs.declared.cond.Cond.{Cond};
ghost use Rattle.bw_model.specs.Cond.{truth_of};
ghost use Rattle.bw_model.specs.Column.{admits_values};
ghost use Rattle.bw_model.specs.Row.{Value, value_in};
ghost use Rattle.bw_ranges.specs.declared.column_range.ColumnRange.{ColumnRange};
ghost use Rattle.bw_ranges.specs.ColumnRange.{IsWithin, has_value, range_of_column};
ghost use Rattle.bw_ranges.specs.PossibleTruths.{possible_truths};
ghost use Rattle.bw_ranges.specs.TruthSet.{has_truth};

/// A law: on every row within ranges, a condition has one of its possible truth values.
#[tactic(auto, using(crate::proofs::RowLemmas::possible_on_row))]
pub fn rows_within_have_possible_truths()
    ensures { (cond : Cond) (ranges : List ColumnRange) (row : List Value) → IsWithin ranges row
        → IsTrue (has_truth (possible_truths ranges cond) (truth_of row cond)) }
{}

/// A law: a row that columns admit is within their ranges. A row within ranges stays so if a
/// column's range is replaced by another one that has the row's value.
#[tactic(auto, using(crate::proofs::WithinLemmas::within))]
pub fn admitted_rows_are_within()
    ensures admitted { (columns : List Column) (row : List Value)
        → IsTrue (admits_values columns row) → IsWithin (map range_of_column columns) row }
    ensures replaced { (ranges : List ColumnRange) (row : List Value) (column : ℕ)
        (range : ColumnRange) → IsWithin ranges row → IsTrue (has_value range (value_in row column))
        → IsWithin (slice_set ranges column range) row }
{}
