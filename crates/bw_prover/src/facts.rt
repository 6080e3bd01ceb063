//! What a certificate states: nodes, chains and product rows, each once and after those it follows
//! from. Each is added when it is first requested, as the line that states it.
ghost use Rattle.std.specs.Prelude.{◌≡◌, IfOk, min};
ghost use Rattle.bw_diagram.specs.Facts.{most_products};
ghost use Rattle.bw_prover.specs.Growth.{HasGrown};

use crate::chain::Link;
use crate::columns::null_variable;
use crate::ledger::Ledger;
use crate::nodes::{Branch, Nodes};
use crate::order::VariableOrder;
use crate::product::{MAX_PRODUCTS, Waiting};
use crate::unproved::{Counted, Unproved};
use bw_cert_text::ProductLine;
use bw_model::{Cond, Operand, Schema};
use std::alloc::{AllocError, Global};

/// The most chains of a certificate.
const MAX_CHAINS: u32 = 65_536;

/// A chain or a product row as a line references it: its number, from 0, and that of its node.
#[derive(Clone, Copy)]
pub(crate) struct Cited {
    pub(crate) number: u64,
    pub(crate) node: u64,
}

/// The nodes, chains and product rows of a certificate, under a schema.
#[derive(Drop)]
pub(crate) struct Facts<'a> {
    pub(crate) alloc: Global,
    pub(crate) schema: &'a Schema,
    pub(crate) nodes: Nodes,
    pub(crate) chains: Ledger<Link>,
    pub(crate) products: Ledger<ProductLine>,
    /// The questions that wait for the rows of others, the innermost last. Calls in calls would take
    /// stack, which can't be refused: over 64 wide columns they passed 8 MB.
    pub(crate) waiting: Vec<Waiting>,
    pub(crate) order: VariableOrder,
}

impl<'a> Facts<'a> {
    /// Returns no facts, with a limit of product rows, for a condition whose columns give the order
    /// of variables of this number.
    pub(crate) fn new(
        alloc: Global,
        schema: &'a Schema,
        cond: &Cond,
        rows: u32,
        order: u8,
    ) -> Result<Self, AllocError>
        ensures schema { IfOk result (λ facts. facts.schema.now ≡ schema.now) }
        ensures limit { IfOk result (λ facts. facts.products.limit ≡ min rows most_products) }
    {
        Ok(Facts {
            alloc,
            schema,
            nodes: Nodes::new(alloc),
            chains: Ledger::new(alloc, Counted::Chains, MAX_CHAINS),
            products: Ledger::new(alloc, Counted::Rows, rows.min(MAX_PRODUCTS)),
            waiting: Vec::new(alloc),
            order: VariableOrder::new(alloc, schema, cond, order)?,
        })
    }

    /// Returns a node's child for a variable's bit, if it tests that variable, else the node.
    pub(crate) fn cofactor(&self, number: u64, variable: u64, bit: bool) -> u64 {
        match self.nodes.get(number) {
            Some(node) if node.v == variable && bit => node.high,
            Some(node) if node.v == variable => node.low,
            _ => number,
        }
    }

    /// Returns the node that tests a variable.
    pub(crate) fn test(&mut self, v: u64, low: u64, high: u64) -> Result<u64, Unproved>
        ensures grown { HasGrown self.old self.new }
    {
        self.nodes.number_of(Branch { v, low, high })
    }

    /// Returns the node that has these children for a variable's bit. If they are the same node, it
    /// is that one, unless that tests the same variable.
    pub(crate) fn choice(&mut self, v: u64, low: u64, high: u64) -> Result<u64, Unproved>
        ensures grown { HasGrown self.old self.new }
    {
        if low == high && !matches!(self.nodes.get(low), Some(node) if node.v == v) {
            return Ok(low);
        }
        self.test(v, low, high)
    }

    /// Returns the node that is 1 if an operand is null, if it is a column that may be.
    pub(crate) fn nulls(&mut self, x: Operand) -> Result<Option<u64>, Unproved>
        ensures grown { HasGrown self.old self.new }
    {
        if let Operand::Col(column) = x
            && let Some(variable) = null_variable(self.schema, column)
        {
            return Ok(Some(self.test(variable, 0, 1)?));
        }
        Ok(None)
    }
}
