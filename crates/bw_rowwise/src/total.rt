//! The total of an aggregate, with one row more or with another total. A null counts for nothing.
ghost use Rattle.std.specs.Prelude.{◌≡◌, ◌+◌, ◌<◌, ◌+ℤ◌, ℕ, pos, Some, FitsSigned, IsTrue, length};
ghost use Rattle.std.specs.Int.{w64};
ghost use Rattle.bw_model.specs.Limits.{most_rows};
ghost use Rattle.bw_model.specs.Row.{values_of};
ghost use Rattle.bw_model.specs.Total.{item_within, combine_totals, of_both};
ghost use Rattle.bw_rowwise.specs.Accumulator.{answer_with, added_by, value_for, IsTotalOfRows};

use bw_model::{Item, Row, Value};

/// Returns the total of an aggregate with one row more, which has this value in the aggregate's
/// column.
#[tactic(auto, using(crate::proofs::TotalLemmas::small_one, crate::proofs::TotalLemmas::small_more))]
pub fn answer_with(item: Item, answer: Option<i128>, value: Value) -> Option<i128>
    requires { IsTotalOfRows most_rows answer }
    ensures value { result ≡ answer_with item answer value }
    ensures small { (rows : ℕ) → IsTotalOfRows rows answer → IsTotalOfRows (rows + 1) result }
{
    match (answer, added_by(item, value)) {
        (Some(total), Some(n)) => Some(of_both(item, total, n)),
        (None, Some(n)) => Some(widen(n)),
        (_, None) => answer,
    }
}

/// Returns the value of a row that an aggregate asks for: that of its column, which the row must
/// have.
pub fn value_for(item: Item, row: &Row) -> Value
    requires { IsTrue (item_within (length (values_of row.now)) item) }
    ensures { result ≡ value_for item (values_of row.now) }
{
    match item {
        Item::CountAll => None,
        Item::Plain(column)
        | Item::Count(column)
        | Item::Sum(column)
        | Item::Min(column)
        | Item::Max(column) => row.values[column],
    }
}

/// Returns what this value of a row adds to an aggregate.
fn added_by(item: Item, value: Value) -> Value
    ensures { result ≡ added_by item value }
{
    match item {
        Item::Plain(_) => None,
        Item::CountAll => Some(1),
        Item::Count(_) => value.map(|_| 1),
        Item::Sum(_) | Item::Min(_) | Item::Max(_) => value,
    }
}

/// Returns an aggregate's total with one number more.
fn of_both(item: Item, total: i128, n: i64) -> i128
    requires { IsTotalOfRows most_rows (Some total) }
    ensures value { result ≡ of_both item total n }
    ensures fits { FitsSigned w64 n }
    ensures small { (rows : ℕ) → IsTotalOfRows rows (Some total)
        → IsTotalOfRows (rows + 1) (Some result) }
{
    match item {
        Item::Min(_) => total.min(widen(n)),
        Item::Max(_) => total.max(widen(n)),
        Item::Plain(_) | Item::CountAll | Item::Count(_) | Item::Sum(_) => plus(total, n),
    }
}

/// Returns the sum of two numbers.
fn plus(sum: i128, n: i64) -> i128
    requires { IsTotalOfRows most_rows (Some sum) }
    ensures sum { result ≡ sum +ℤ n }
    ensures fits { FitsSigned w64 n }
{
    sum + i128::from(n)
}

/// Returns a value as a total.
fn widen(n: i64) -> i128
    ensures same { result ≡ n }
    ensures fits { FitsSigned w64 n }
{
    i128::from(n)
}

/// Returns the total of two lists of rows, from the totals of both.
#[tactic(auto, using(crate::proofs::TotalLemmas::small_left, crate::proofs::TotalLemmas::small_right))]
pub fn combine_totals(item: Item, answer: Option<i128>, others: Option<i128>) -> Option<i128>
    requires within_limit { IsTotalOfRows most_rows answer }
    requires others { IsTotalOfRows most_rows others }
    ensures value { result ≡ combine_totals item answer others }
    ensures small { (rows more : ℕ) → IsTotalOfRows rows answer → IsTotalOfRows more others
        → IsTotalOfRows (rows + more) result }
{
    match (answer, others) {
        (Some(a), Some(b)) => Some(total_of_both(item, a, b)),
        (None, others) => others,
        (_, None) => answer,
    }
}

/// Returns the total of two lists of rows, from the totals of both, neither of them null.
fn total_of_both(item: Item, a: i128, b: i128) -> i128
    requires within_limit { IsTotalOfRows most_rows (Some a) }
    requires others { IsTotalOfRows most_rows (Some b) }
    ensures value { result ≡ of_both item a b }
    ensures small { (rows more : ℕ) → IsTotalOfRows rows (Some a) → IsTotalOfRows more (Some b)
        → IsTotalOfRows (rows + more) (Some result) }
{
    match item {
        Item::Min(_) => a.min(b),
        Item::Max(_) => a.max(b),
        Item::Plain(_) | Item::CountAll | Item::Count(_) | Item::Sum(_) => sum_of_both(a, b),
    }
}

/// Returns the sum of two totals.
fn sum_of_both(a: i128, b: i128) -> i128
    requires within_limit { IsTotalOfRows most_rows (Some a) }
    requires others { IsTotalOfRows most_rows (Some b) }
    ensures { result ≡ a +ℤ b }
{
    a + b
}
