//! The truth of a condition on a row, and the rows that match.
ghost use Rattle.std.specs.Prelude.{◌≡◌, List, true, length, map, All, IsTrue, IfOk, IsOkUnless};
ghost use Rattle.std.specs.List.{list_all};
ghost use Rattle.bw_model.specs.Truth.{in_list, all_of, any_of};
ghost use Rattle.bw_model.specs.Cond.{truth_of, is_match, names_within, is_within, operand_value};
ghost use Rattle.bw_model.specs.Selection.{matching_rows};
ghost use Rattle.bw_model.specs.Row.{Value, values_of};
ghost use Rattle.bw_model.specs.Fault.{no_memory};
ghost use Rattle.bw_model.specs.declared.cond.Cond.TheVariants.{Always};

use crate::logic::{between, both, compare_values, either, opposite};
use bw_model::{Cond, Fault, Op, Operand, Row, Truth, Value};
use std::alloc::Global;

/// Returns the truth of a condition on a row, which must have every column that the condition
/// names.
#[tactic(auto, using(bw_model::proofs::CondLemmas::truths, bw_model::proofs::CondLemmas::names))]
#[cycle(truth)]
pub fn truth(cond: &Cond, row: &Row) -> Truth
    requires { IsTrue (names_within (length row.now.values.items) cond.now) }
    ensures { result ≡ truth_of row.now.values.items cond.now }
{
    match cond {
        Cond::Always => Truth::Yes,
        Cond::Cmp(op, x, y) => compare_values(*op, value_of(*x, row), value_of(*y, row)),
        Cond::Between(x, y, z) => {
            between(value_of(*x, row), value_of(*y, row), value_of(*z, row))
        }
        Cond::Among(x, items) => among(value_of(*x, row), items, row),
        Cond::IsNull(x) => Truth::of(value_of(*x, row).is_none()),
        Cond::And(parts) => all_of(parts, row),
        Cond::Or(parts) => any_of(parts, row),
        Cond::Not(part) => opposite(truth(part, row)),
        Cond::Test(part, wanted) => Truth::of(truth(part, row) == *wanted),
    }
}

/// Returns whether a condition is the one that matches every row.
#[tactic(auto, using(bw_model::proofs::CondLemmas::truths))]
pub fn matches_all(cond: &Cond) -> bool
    ensures every { result ≡ true → (values : List Value) → IsTrue (is_match cond.now values) }
    ensures always { cond.now ≡ Always → result ≡ true }
{
    matches!(cond, Cond::Always)
}

/// Returns copies of the rows on which a condition is TRUE, in their order. Each row must have
/// every column that the condition names. Errors: 801 if memory is refused.
pub fn select(alloc: Global, cond: &Cond, rows: &[Row]) -> Result<Vec<Row>, Fault>
    requires { All (λ row. IsTrue (names_within (length (values_of row)) cond.now)) rows.now }
    ensures kept { IfOk result (λ copies. map values_of copies.items
        ≡ matching_rows cond.now (map values_of rows.now)) }
    ensures only_oom { IsOkUnless result no_memory }
{
    let mut kept = Vec::new(alloc);
    for row in rows {
        if truth(cond, row) == Truth::Yes {
            kept.push(row.copy(alloc)?)?;
        }
    }
    Ok(kept)
}

/// Returns AND of the parts.
#[tactic(auto, using(crate::proofs::LogicLemmas::least_assoc))]
#[cycle(truth)]
fn all_of(parts: &[Cond], row: &Row) -> Truth
    requires { IsTrue (list_all (names_within (length row.now.values.items)) parts.now) }
    ensures { result ≡ all_of (map (truth_of row.now.values.items) parts.now) }
{
    let mut least = Truth::Yes;
    for part in parts {
        least = both(least, truth(part, row));
        if least == Truth::No {
            break;
        }
    }
    least
}

/// Returns OR of the parts.
#[tactic(auto, using(crate::proofs::LogicLemmas::greatest_assoc))]
#[cycle(truth)]
fn any_of(parts: &[Cond], row: &Row) -> Truth
    requires { IsTrue (list_all (names_within (length row.now.values.items)) parts.now) }
    ensures { result ≡ any_of (map (truth_of row.now.values.items) parts.now) }
{
    let mut greatest = Truth::No;
    for part in parts {
        greatest = either(greatest, truth(part, row));
        if greatest == Truth::Yes {
            break;
        }
    }
    greatest
}

/// Returns the value that an operand has in a row.
fn value_of(operand: Operand, row: &Row) -> Value
    requires { IsTrue (is_within (length row.now.values.items) operand) }
    ensures { result ≡ operand_value row.now.values.items operand }
{
    match operand {
        Operand::Col(column) => row.values[column],
        Operand::Lit(n) => Some(n),
        Operand::Null => None,
    }
}

/// Returns whether a value is one of the items, as `IN` has it.
#[tactic(auto, using(crate::proofs::LogicLemmas::greatest_assoc))]
fn among(x: Value, items: &[Operand], row: &Row) -> Truth
    requires { IsTrue (list_all (is_within (length row.now.values.items)) items.now) }
    ensures { result ≡ in_list x (map (operand_value row.now.values.items) items.now) }
{
    let mut greatest = Truth::No;
    for item in items {
        greatest = either(greatest, compare_values(Op::Eq, x, value_of(*item, row)));
        if greatest == Truth::Yes {
            break;
        }
    }
    greatest
}
