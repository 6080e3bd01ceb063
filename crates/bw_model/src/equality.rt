//! Whether two conditions are equal.
ghost use Rattle.std.specs.Prelude.{◌≡◌, IsTrue, map};
ghost use Rattle.bw_model.specs.CondTree.{tree_of};

use crate::cond::{Cond, Op, Operand, Truth};

impl Cond {
    /// Returns whether two conditions are equal: they have the same shape, and the same comparisons
    /// of the same operands in the same order.
    #[cycle(is_same)]
    #[tactic(auto, using(crate::proofs::TreeLemmas::trees))]
    pub fn is_same(&self, other: &Cond) -> bool
        ensures same { IsTrue result → tree_of self.now ≡ tree_of other.now }
        ensures complete { tree_of self.now ≡ tree_of other.now → IsTrue result }
    {
        match (self, other) {
            (Cond::Always, Cond::Always) => true,
            (Cond::Cmp(op, x, y), Cond::Cmp(kind, z, w)) => {
                is_op(*op, *kind) && is_operand(*x, *z) && is_operand(*y, *w)
            }
            (Cond::Between(x, low, high), Cond::Between(y, least, most)) => {
                is_operand(*x, *y) && is_operand(*low, *least) && is_operand(*high, *most)
            }
            (Cond::Among(x, items), Cond::Among(y, others)) => {
                is_operand(*x, *y) && are_operands(items, others)
            }
            (Cond::IsNull(x), Cond::IsNull(y)) => is_operand(*x, *y),
            (Cond::And(parts), Cond::And(others)) => are_same(parts, others),
            (Cond::Or(parts), Cond::Or(others)) => are_same(parts, others),
            (Cond::Not(part), Cond::Not(other)) => part.is_same(other),
            (Cond::Test(part, wanted), Cond::Test(other, truth)) => {
                is_truth(*wanted, *truth) && part.is_same(other)
            }
            _ => false,
        }
    }
}

/// Returns whether two lists of conditions are equal.
#[cycle(is_same)]
fn are_same(conds: &[Cond], others: &[Cond]) -> bool
    ensures same { IsTrue result → map tree_of conds.now ≡ map tree_of others.now }
    ensures complete { map tree_of conds.now ≡ map tree_of others.now → IsTrue result }
{
    if conds.len() != others.len() {
        return false;
    }
    for place in 0..conds.len() {
        if !conds[place].is_same(&others[place]) {
            return false;
        }
    }
    true
}

/// Returns whether two lists of operands are equal.
fn are_operands(operands: &[Operand], others: &[Operand]) -> bool
    ensures same { IsTrue result → operands.now ≡ others.now }
    ensures complete { operands.now ≡ others.now → IsTrue result }
{
    if operands.len() != others.len() {
        return false;
    }
    for place in 0..operands.len() {
        if !is_operand(operands[place], others[place]) {
            return false;
        }
    }
    true
}

fn is_op(op: Op, other: Op) -> bool
    ensures same { IsTrue result → op ≡ other }
    ensures complete { op ≡ other → IsTrue result }
{
    op == other
}

fn is_operand(x: Operand, y: Operand) -> bool
    ensures same { IsTrue result → x ≡ y }
    ensures complete { x ≡ y → IsTrue result }
{
    x == y
}

fn is_truth(truth: Truth, other: Truth) -> bool
    ensures same { IsTrue result → truth ≡ other }
    ensures complete { truth ≡ other → IsTrue result }
{
    truth == other
}
