//! Product rows: each states that a node is a connective of two others, and why.
ghost use Rattle.std.specs.Prelude.{◌≡◌, slice_get};
ghost use Rattle.bw_diagram.specs.Product.{is_shortcut, is_product, same_product, cofactor_product};
ghost use Rattle.bw_diagram.specs.Product.{follows};

use crate::node::{Node, cofactor};

/// A connective of two bits. `Diff` is "and not".
#[derive(Clone, Copy, PartialEq, Eq)]
pub enum Connective {
    And,
    Or,
    Xor,
    Diff,
}

/// A product row: node `c` is the connective of nodes `a` and `b`.
#[derive(Clone, Copy, PartialEq, Eq)]
pub struct Product {
    pub op: Connective,
    pub a: u32,
    pub b: u32,
    pub c: u32,
}

/// Why a product row is true.
#[derive(Clone, Copy)]
pub enum Reason {
    /// It is one of its connective's shortcuts, as `x AND x` is `x`.
    Shortcut,
    /// Two earlier rows state it of the cofactors: row `i` if variable `v` is 0, row `j` if it is
    /// 1.
    Cofactors { v: u64, i: u64, j: u64 },
}

impl Connective {
    /// Returns whether node `c` is the connective of nodes `a` and `b` by one of its shortcuts.
    #[tactic(auto, unfolding(crate::specs::Product::is_shortcut))]
    pub fn is_shortcut(self, a: u64, b: u64, c: u64) -> bool
        ensures { result ≡ is_shortcut self a b c }
    {
        match self {
            Connective::And => {
                (a == 0 && c == 0)
                    || (b == 0 && c == 0)
                    || (a == 1 && c == b)
                    || (b == 1 && c == a)
                    || (a == b && c == a)
            }
            Connective::Or => {
                (a == 0 && c == b)
                    || (b == 0 && c == a)
                    || (a == 1 && c == 1)
                    || (b == 1 && c == 1)
                    || (a == b && c == a)
            }
            Connective::Xor => { (a == 0 && c == b) || (b == 0 && c == a) || (a == b && c == 0) }
            Connective::Diff => {
                (a == 0 && c == 0) || (b == 0 && c == a) || (a == b && c == 0) || (b == 1 && c == 0)
            }
        }
    }
}

impl Product {
    /// Returns the product row of its nodes' cofactors.
    fn cofactor(self, nodes: &[Node], v: u64, bit: bool) -> Self
        ensures { result ≡ cofactor_product nodes.now v bit self }
    {
        Product {
            op: self.op,
            a: cofactor(nodes, v, bit, self.a),
            b: cofactor(nodes, v, bit, self.b),
            c: cofactor(nodes, v, bit, self.c),
        }
    }

    /// Returns whether this is the product row of a number.
    fn is_at(self, rows: &[Product], number: u64) -> bool
        ensures { result ≡ is_product self (slice_get rows.now number) }
    {
        match rows.get(number as usize) {
            Some(row) => *row == self,
            None => false,
        }
    }

    /// Returns whether the row follows from the rows before it, for this reason.
    pub(crate) fn follows(
        self,
        variables: u32,
        nodes: &[Node],
        rows: &[Product],
        reason: Reason,
    ) -> bool
        ensures { result ≡ follows variables nodes.now rows.now self reason }
    {
        match reason {
            Reason::Shortcut => {
                let (a, b, c) = (u64::from(self.a), u64::from(self.b), u64::from(self.c));
                self.op.is_shortcut(a, b, c)
            }
            Reason::Cofactors { v, i, j } => {
                v < u64::from(variables)
                    && self.cofactor(nodes, v, false).is_at(rows, i)
                    && self.cofactor(nodes, v, true).is_at(rows, j)
            }
        }
    }
}
