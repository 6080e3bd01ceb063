//! Product rows: connectives of nodes, each computed once.
ghost use Rattle.bw_prover.specs.Growth.{HasGrown};

use crate::emit::NO_LINE;
use crate::facts::{Cited, Facts};
use crate::ledger::Key;
use crate::nodes::Branch;
use crate::unproved::Unproved;
use bw_cert_text::ProductLine;
use bw_diagram::{Connective, Reason};

/// The most product rows of a certificate.
pub const MAX_PRODUCTS: u32 = 1_048_576;

/// What a product row computes: a connective of two nodes.
#[derive(Clone, Copy)]
pub(crate) struct Question {
    op: Connective,
    a: u64,
    b: u64,
}

/// A question that waits for the rows of its cofactors by a variable, and the one for 0, if that is
/// known.
pub(crate) type Waiting = (Question, u64, Option<Cited>);

impl Question {
    /// Returns the key of its row.
    fn key(self) -> Key {
        (self.a << 32 | self.b, self.op as u64)
    }

    /// Returns the node of a connective that follows from no earlier row, if it is one.
    fn shortcut(self) -> Option<u64> {
        let Question { op, a, b } = self;
        if a > 1 && b > 1 && a != b {
            return None;
        }
        [0, 1, a, b].into_iter().find(|c| op.is_shortcut(a, b, *c))
    }
}

impl Facts<'_> {
    /// Returns the product row of a connective of two nodes, and adds it and those it follows from
    /// if they are missing. A question that waits has three turns.
    pub(crate) fn row(&mut self, op: Connective, a: u64, b: u64) -> Result<Cited, Unproved>
        ensures grown { HasGrown self.old self.new }
    {
        self.waiting.clear();
        let mut made = self.row_or_wait(Question { op, a, b })?;
        for _ in 0..4 * u64::from(MAX_PRODUCTS) {
            match self.waiting.pop() {
                Some(last) => made = self.go_on(last, made)?,
                None => return made.ok_or(self.products.limit_fault()),
            }
        }
        Err(self.products.limit_fault())
    }

    /// Returns the row of a question if it is known or a shortcut; else the question waits.
    fn row_or_wait(&mut self, asked: Question) -> Result<Option<Cited>, Unproved>
        ensures grown { HasGrown self.old self.new }
    {
        if let Some((number, ProductLine { c: node, .. })) = self.products.find(asked.key()) {
            return Ok(Some(Cited { number, node }));
        }
        if let Some(node) = asked.shortcut() {
            return Ok(Some(self.add_row(asked, node, Reason::Shortcut)?));
        }
        let variable = self.first_variable(asked).ok_or(Unproved::NoRule)?;
        self.waiting.push((asked, variable, None))?;
        Ok(None)
    }

    /// Returns the row of the question that waited last, if `made` is the second of its cofactors'
    /// rows; else it waits for the next of these.
    fn go_on(&mut self, last: Waiting, made: Option<Cited>) -> Result<Option<Cited>, Unproved>
        ensures grown { HasGrown self.old self.new }
    {
        let (asked, v, low) = last;
        if let (Some(low), Some(high)) = (low, made) {
            let node = self.choice(v, low.node, high.node)?;
            let (i, j) = (low.number, high.number);
            return Ok(Some(self.add_row(asked, node, Reason::Cofactors { v, i, j })?));
        }
        self.waiting.push((asked, v, made))?;
        let bit = made.is_some();
        self.row_or_wait(Question {
            a: self.cofactor(asked.a, v, bit),
            b: self.cofactor(asked.b, v, bit),
            ..asked
        })
    }

    /// Adds a row.
    fn add_row(&mut self, asked: Question, node: u64, reason: Reason) -> Result<Cited, Unproved>
        ensures grown { HasGrown self.old self.new }
    {
        let row = ProductLine {
            line: NO_LINE,
            n: u64::from(self.products.count),
            op: asked.op,
            a: asked.a,
            b: asked.b,
            c: node,
            reason,
        };
        let number = self.products.push(asked.key(), row)?;
        Ok(Cited { number, node })
    }

    /// Returns the first variable that one of two nodes tests. Where comparisons have two bits in
    /// opposite orders, it is that of the node that leads to the other's variable, if one does. In
    /// orders after the first, it is that of the left column, if both nodes are a bit.
    fn first_variable(&self, asked: Question) -> Option<u64> {
        let (a, b) = match (self.nodes.get(asked.a), self.nodes.get(asked.b)) {
            (Some(a), Some(b)) => (a, b),
            (one, other) => return Some(one.or(other)?.v),
        };
        let (mut is_later, is_open) = self.order.is_later(a.v, b.v)?;
        if is_open {
            is_later = match self.order.is_right(a.v, b.v) {
                Some(is_right) if a.is_bit() && b.is_bit() => is_right,
                _ if self.order.is_fixed => is_later,
                _ => self.leads(b, a) && (is_later || !self.leads(a, b)),
            };
        }
        Some(if is_later { b.v } else { a.v })
    }

    /// Returns whether a child of a node tests the variable of another.
    fn leads(&self, node: Branch, other: Branch) -> bool {
        let tests = |child| self.nodes.get(child).is_some_and(|node| node.v == other.v);
        tests(node.low) || tests(node.high)
    }
}
