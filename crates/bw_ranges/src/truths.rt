//! The truth values that a condition may have on the rows within ranges.
ghost use Rattle.std.specs.Prelude.{◌≡◌, IsTrue, List, map};
ghost use Rattle.bw_model.specs.Cond.{truth_of};
ghost use Rattle.bw_model.specs.Row.{Value};
ghost use Rattle.bw_model.specs.declared.cond.Op.TheVariants.{Eq};
ghost use Rattle.bw_ranges.specs.ColumnRange.{IsWithin, compare_ranges, operand_range};
ghost use Rattle.bw_ranges.specs.PossibleTruths.{in_ranges, possible_truths};
ghost use Rattle.bw_ranges.specs.TruthSet.{all_of_sets, any_of_sets, has_truth};

use crate::column_range::{ColumnRange, operand_range};
use crate::truth_set::TruthSet;
use bw_model::{Cond, Op, Operand, Truth};

/// Returns the truth values that a condition may have on the rows within ranges, one for each
/// column. On each such row it has one of these.
#[tactic(auto, using(crate::proofs::RowLemmas::possible_on_row))]
pub fn possible_truths(cond: &Cond, ranges: &[ColumnRange]) -> TruthSet
    ensures exact { result ≡ possible_truths ranges.now cond.now }
    ensures rows { (row : List Value) → IsWithin ranges.now row
        → IsTrue (has_truth result (truth_of row cond.now)) }
{
    truths(cond, ranges)
}

/// Returns the truth values that a condition may have.
#[tactic(auto, using(crate::proofs::PossibleLemmas::possible))]
#[cycle(truths)]
pub(crate) fn truths(cond: &Cond, ranges: &[ColumnRange]) -> TruthSet
    ensures { result ≡ possible_truths ranges.now cond.now }
{
    match cond {
        Cond::Always => TruthSet::one(Truth::Yes),
        Cond::Cmp(op, x, y) => compare(*op, *x, *y, ranges),
        Cond::Between(x, y, z) => {
            let x = operand_range(*x, ranges);
            let least = x.compare(Op::Ge, &operand_range(*y, ranges));
            least.both(x.compare(Op::Le, &operand_range(*z, ranges)))
        }
        Cond::Among(x, items) => among(&operand_range(*x, ranges), items, ranges),
        Cond::IsNull(x) => operand_range(*x, ranges).null_truths(),
        Cond::And(parts) => all_of(parts, ranges),
        Cond::Or(parts) => any_of(parts, ranges),
        Cond::Not(part) => truths(part, ranges).opposite(),
        Cond::Test(part, wanted) => truths(part, ranges).test(*wanted),
    }
}

/// Returns the truth values that a part may have. A comparison, as most are, costs no recursion.
#[tactic(auto, using(crate::proofs::PossibleLemmas::possible))]
#[cycle(truths)]
#[inline(always)]
pub(crate) fn part_truths(part: &Cond, ranges: &[ColumnRange]) -> TruthSet
    ensures { result ≡ possible_truths ranges.now part.now }
{
    match part {
        Cond::Cmp(op, x, y) => compare(*op, *x, *y, ranges),
        _ => truths(part, ranges),
    }
}

/// Returns what AND of the parts may be. If it can only be FALSE, no other part is evaluated.
#[tactic(auto, using(crate::proofs::SetLemmas::both_assoc))]
#[cycle(truths)]
fn all_of(parts: &[Cond], ranges: &[ColumnRange]) -> TruthSet
    ensures { result ≡ all_of_sets (map (possible_truths ranges.now) parts.now) }
{
    let mut set = TruthSet::one(Truth::Yes);
    for part in parts {
        set = set.both(part_truths(part, ranges));
        if set.no & !set.unknown & !set.yes {
            break;
        }
    }
    set
}

/// Returns what OR of the parts may be. If it can only be TRUE, no other part is evaluated.
#[tactic(auto, using(crate::proofs::SetLemmas::either_assoc))]
#[cycle(truths)]
fn any_of(parts: &[Cond], ranges: &[ColumnRange]) -> TruthSet
    ensures { result ≡ any_of_sets (map (possible_truths ranges.now) parts.now) }
{
    let mut set = TruthSet::one(Truth::No);
    for part in parts {
        set = set.either(part_truths(part, ranges));
        if set.yes & !set.unknown & !set.no {
            break;
        }
    }
    set
}

/// Returns what `IN` of a value in a range may be.
#[tactic(auto, using(crate::proofs::SetLemmas::either_assoc))]
fn among(x: &ColumnRange, items: &[Operand], ranges: &[ColumnRange]) -> TruthSet
    ensures { result ≡ in_ranges x.now (map (operand_range ranges.now) items.now) }
{
    let mut set = TruthSet::one(Truth::No);
    for item in items {
        set = set.either(equal(x, *item, ranges));
        if set.yes & !set.unknown & !set.no {
            break;
        }
    }
    set
}

/// Returns what a comparison may be.
fn compare(op: Op, x: Operand, y: Operand, ranges: &[ColumnRange]) -> TruthSet
    ensures { result ≡ compare_ranges op (operand_range ranges.now x)
        (operand_range ranges.now y) }
{
    operand_range(x, ranges).compare(op, &operand_range(y, ranges))
}

/// Returns what `=` of a value in a range and an operand may be.
fn equal(x: &ColumnRange, item: Operand, ranges: &[ColumnRange]) -> TruthSet
    ensures { result ≡ compare_ranges Eq x.now (operand_range ranges.now item) }
{
    x.compare(Op::Eq, &operand_range(item, ranges))
}
