//! The truth of a prepared condition in 512 lanes, one for each row.
ghost use Rattle.std.specs.Prelude.{IsTrue, length, map, nat_lt};
ghost use Rattle.std.specs.List.{list_all};
ghost use Rattle.bw_model.specs.Cond.{is_within, operand_value};
ghost use Rattle.bw_model.specs.Row.{value_in};
ghost use Rattle.bw_model.specs.Truth.{all_of, in_list, any_of, between, compare_values, is_null};
ghost use Rattle.bw_model.specs.Truth.{truth_from};
ghost use Rattle.bw_rowwise.specs.Columns.{row_in};
ghost use Rattle.bw_rowwise.specs.Lanes.{AreTruths};
ghost use Rattle.bw_rowwise.specs.Numbers.{among_numbers};
ghost use Rattle.bw_rowwise.specs.Prepared.{among_items, among_others, items_within, null_truth};
ghost use Rattle.bw_rowwise.specs.Prepared.{places_within, prepared_truth};

use crate::columns::Columns;
use crate::numbers::Numbers;
use crate::prepared::{Items, Prepared};
use crate::truths::Truths;
use bw_model::{Op, Operand, Truth};

/// Returns the truth of a condition in each lane. Each column that it names must be there.
#[tactic(auto, using(crate::proofs::PreparedLemmas::truths))]
#[cycle(truths)]
pub(crate) fn truths(cond: &Prepared, columns: &Columns) -> Truths
    requires { IsTrue (places_within (length columns.now.columns.items) cond.now) }
    ensures { AreTruths result (λ lane. prepared_truth (row_in columns.now lane) cond.now) }
{
    match cond {
        Prepared::Always => Truths::all(Truth::Yes),
        Prepared::Cmp(op, x, y) => compare(*op, *x, *y, columns),
        Prepared::Between(x, y, z) => between(*x, *y, *z, columns),
        Prepared::Among(x, items) => among(*x, items, columns),
        Prepared::IsNull(x) => test_null(*x, columns),
        Prepared::And(parts) => all_of(parts, columns),
        Prepared::Or(parts) => any_of(parts, columns),
        Prepared::Not(part) => truths(part, columns).opposite(),
        Prepared::Test(part, wanted) => truths(part, columns).test(*wanted),
    }
}

/// Returns AND of the parts in each lane. Once every lane is FALSE, no other part is evaluated.
#[cycle(truths)]
fn all_of(parts: &[Prepared], columns: &Columns) -> Truths
    requires { IsTrue (list_all (places_within (length columns.now.columns.items)) parts.now) }
    ensures { AreTruths result
        (λ lane. all_of (map (prepared_truth (row_in columns.now lane)) parts.now)) }
{
    let mut least = Truths::all(Truth::Yes);
    for part in parts {
        if least.are_false() {
            break;
        }
        least = least.both(&truths(part, columns));
    }
    least
}

/// Returns OR of the parts in each lane. Once every lane is TRUE, no other part is evaluated.
#[cycle(truths)]
fn any_of(parts: &[Prepared], columns: &Columns) -> Truths
    requires { IsTrue (list_all (places_within (length columns.now.columns.items)) parts.now) }
    ensures { AreTruths result
        (λ lane. any_of (map (prepared_truth (row_in columns.now lane)) parts.now)) }
{
    let mut greatest = Truths::all(Truth::No);
    for part in parts {
        if greatest.are_true() {
            break;
        }
        greatest = greatest.either(&truths(part, columns));
    }
    greatest
}

/// Returns in each lane whether an operand is null.
fn test_null(x: Operand, columns: &Columns) -> Truths
    requires { IsTrue (is_within (length columns.now.columns.items) x) }
    ensures { AreTruths result
        (λ lane. truth_from (is_null (operand_value (row_in columns.now lane) x))) }
{
    match x {
        Operand::Col(place) => columns.lanes(place).nulls(),
        Operand::Lit(_) => Truths::all(Truth::No),
        Operand::Null => Truths::all(Truth::Yes),
    }
}

/// Returns the truth of a comparison in each lane.
fn compare(op: Op, x: Operand, y: Operand, columns: &Columns) -> Truths
    requires left { IsTrue (is_within (length columns.now.columns.items) x) }
    requires right { IsTrue (is_within (length columns.now.columns.items) y) }
    ensures { AreTruths result (λ lane. compare_values op (operand_value (row_in columns.now lane) x)
        (operand_value (row_in columns.now lane) y)) }
{
    match (x, y) {
        (Operand::Col(left), Operand::Col(right)) => {
            columns.lanes(left).compare(op, columns.lanes(right))
        }
        (Operand::Col(place), Operand::Lit(n)) => columns.lanes(place).compare_with(op, n),
        (Operand::Lit(n), Operand::Col(place)) => {
            columns.lanes(place).compare_with(op.swap_operands(), n)
        }
        (Operand::Lit(m), Operand::Lit(n)) => Truths::all(Truth::of(op.holds(m, n))),
        (Operand::Null, _) | (_, Operand::Null) => Truths::all(Truth::Unknown),
    }
}

/// Returns the truth of `x BETWEEN y AND z` in each lane.
fn between(x: Operand, y: Operand, z: Operand, columns: &Columns) -> Truths
    requires x { IsTrue (is_within (length columns.now.columns.items) x) }
    requires y { IsTrue (is_within (length columns.now.columns.items) y) }
    requires z { IsTrue (is_within (length columns.now.columns.items) z) }
    ensures { AreTruths result (λ lane. between (operand_value (row_in columns.now lane) x)
        (operand_value (row_in columns.now lane) y) (operand_value (row_in columns.now lane) z)) }
{
    let least = compare(Op::Ge, x, y, columns);
    least.both(&compare(Op::Le, x, z, columns))
}

/// Returns in each lane whether an operand is one of these items, as `IN` has it.
fn among(x: Operand, items: &Items, columns: &Columns) -> Truths
    requires x { IsTrue (is_within (length columns.now.columns.items) x) }
    requires items { IsTrue (items_within (length columns.now.columns.items) items.now) }
    ensures { AreTruths result (λ lane. among_items (row_in columns.now lane)
        (operand_value (row_in columns.now lane) x) items.now) }
{
    let found = among_numbers(x, &items.numbers, columns);
    found.either(&among_others(x, items, columns))
}

/// Returns in each lane whether an operand is one of these numbers, as `IN` has it.
fn among_numbers(x: Operand, numbers: &Numbers, columns: &Columns) -> Truths
    requires { IsTrue (is_within (length columns.now.columns.items) x) }
    ensures { AreTruths result (λ lane. among_numbers (operand_value (row_in columns.now lane) x)
        numbers.now.sorted.items) }
{
    match x {
        Operand::Col(place) => columns.lanes(place).among(numbers),
        Operand::Lit(n) => Truths::all(numbers.among(Some(n))),
        Operand::Null => Truths::all(numbers.among(None)),
    }
}

/// Returns in each lane whether an operand is one of a list's columns, or NULL, as `IN` has it.
fn among_others(x: Operand, items: &Items, columns: &Columns) -> Truths
    requires x { IsTrue (is_within (length columns.now.columns.items) x) }
    requires items { IsTrue (items_within (length columns.now.columns.items) items.now) }
    ensures { AreTruths result (λ lane. among_others (row_in columns.now lane)
        (operand_value (row_in columns.now lane) x) items.now) }
{
    let found = among_columns(x, &items.columns, columns);
    found.either(&truth_of_null(items.has_null))
}

/// Returns in each lane what a NULL in a list decides, if there is one.
fn truth_of_null(has_null: bool) -> Truths
    ensures { AreTruths result (λ _. null_truth has_null) }
{
    if has_null {
        Truths::all(Truth::Unknown)
    } else {
        Truths::all(Truth::No)
    }
}

/// Returns in each lane whether an operand is one of the columns at these places, as `IN` has it.
fn among_columns(x: Operand, places: &[usize], columns: &Columns) -> Truths
    requires x { IsTrue (is_within (length columns.now.columns.items) x) }
    requires places { IsTrue
        (list_all (λ place. nat_lt place (length columns.now.columns.items)) places.now) }
    ensures { AreTruths result (λ lane. in_list (operand_value (row_in columns.now lane) x)
        (map (value_in (row_in columns.now lane)) places.now)) }
{
    let mut greatest = Truths::all(Truth::No);
    for place in places {
        let equal = compare(Op::Eq, x, Operand::Col(*place), columns);
        greatest = greatest.either(&equal);
    }
    greatest
}
