//! A diagram: nodes, chains and product rows, all true of every assignment.
ghost use Rattle.std.specs.Prelude.{◌≡◌, ℕ, Some, IfErr, OnErr, slice_get, IsTrue};
ghost use Rattle.bw_model.specs.Fault.{MatchesUnlessOom};
ghost use Rattle.bw_model.specs.Variable.{Assignment};
ghost use Rattle.bw_diagram.specs.Node.{node_at, node_value};
ghost use Rattle.bw_diagram.specs.Chain.{IsChain, chain_named};
ghost use Rattle.bw_diagram.specs.Product.{IsProduct};
ghost use Rattle.bw_diagram.specs.Facts.{is_diagram_fault, no_facts, accept_node, accept_chain};
ghost use Rattle.bw_diagram.specs.Facts.{accept_product, with_node, with_chain, with_product};

mod laws;
mod steps;

use crate::chain::{Chain, ChainColumns};
use crate::node::{self, Node};
use crate::product::{Connective, Product, Reason};
use bw_model::{Fault, Schema, code};
pub use laws::{accepted_lines_are_true, later_nodes_change_no_value, whole_columns_are_spelled};
use std::alloc::Global;
use std::marker::Model;

/// The most nodes of a diagram, without the terminals.
const MAX_NODES: usize = 65_534;

/// The most chains of a diagram.
const MAX_CHAINS: usize = 65_536;

/// The most product rows of a diagram.
const MAX_PRODUCTS: usize = 1_048_576;

/// Nodes, chains and product rows over the variables of a schema. Each is added by the rule of its
/// line, so each is true of every assignment. Its ghost value is these facts.
#[derive(Drop)]
pub struct Diagram<'a> {
    schema: &'a Schema,
    variables: u32,
    nodes: Vec<Node>,
    chains: Vec<Chain>,
    products: Vec<Product>,
}

impl<'a> Model for Diagram<'a> {
    ghost use Rattle.bw_diagram.specs.Facts.{Facts};

    ghost Value = { Facts };

    ghost use Rattle.bw_diagram.specs.Diagram.{facts_of, IsKept};

    ghost view = { facts_of };

    ghost invariant = { IsKept };
}

impl<'a> Diagram<'a> {
    /// Returns the diagram of the terminals only.
    pub fn new(alloc: Global, schema: &'a Schema) -> Self
        ensures { result ≡ no_facts schema.now.columns.items }
    {
        Diagram {
            schema,
            variables: schema.var_count(),
            nodes: Vec::new(alloc),
            chains: Vec::new(alloc),
            products: Vec::new(alloc),
        }
    }

    /// Adds node `n`, which tests variable `v`. Errors: 604 at the limit of nodes; 601 if `n` isn't
    /// the next number, `v` no variable, or a child not less than `n`; 801 if memory is refused.
    pub fn add_node(&mut self, n: u64, v: u64, low: u64, high: u64) -> Result<(), Fault>
        ensures exact { MatchesUnlessOom (λ _. self.new) result
            (with_node self.old n (record { v = v; low = low; high = high })) }
        ensures refused { OnErr result (self.new ≡ self.old) }
        ensures code { IfErr result (λ fault. IsTrue (is_diagram_fault fault)) }
    {
        let node = self.accepted_node(n, v, low, high)?;
        self.nodes.push(node)?;
        Ok(())
    }

    /// Adds chain `n`. Errors: 604 at the limit of chains; 801 if memory is refused; and 603 if
    ///
    /// - `n` isn't the next number,
    /// - a word isn't a column's name,
    /// - the columns don't have these bits,
    /// - `prev` isn't the chain over the bits below the top bit, or
    /// - the node doesn't choose by the top bits between the nodes that follow from `prev`'s.
    pub fn add_chain(&mut self, n: u64, columns: &ChainColumns<'_>) -> Result<(), Fault>
        ensures exact { MatchesUnlessOom (λ _. self.new) result
            (with_chain self.old n (chain_named self.old.columns columns.now)) }
        ensures refused { OnErr result (self.new ≡ self.old) }
        ensures code { IfErr result (λ fault. IsTrue (is_diagram_fault fault)) }
    {
        let chain = self.accepted_chain(n, columns)?;
        self.chains.push(chain)?;
        Ok(())
    }

    /// Adds product row `n`. Errors: 604 at the limit of product rows; 602 if `n` isn't the next
    /// number, `a`, `b` or `c` isn't a node, or the reason isn't one; 801 if memory is refused.
    pub fn add_row(
        &mut self,
        n: u64,
        op: Connective,
        a: u64,
        b: u64,
        c: u64,
        reason: Reason,
    ) -> Result<(), Fault>
        ensures exact { MatchesUnlessOom (λ _. self.new) result
            (with_product self.old n (record { op = op; a = a; b = b; c = c }) reason) }
        ensures refused { OnErr result (self.new ≡ self.old) }
        ensures code { IfErr result (λ fault. IsTrue (is_diagram_fault fault)) }
    {
        let row = self.accepted_row(n, op, a, b, c, reason)?;
        self.products.push(row)?;
        Ok(())
    }

    /// Returns the node of these fields, if it is valid as the next one.
    #[tactic(auto, unfolding(crate::specs::Facts::accept_node, crate::specs::Node::is_valid_node))]
    fn accepted_node(&self, n: u64, v: u64, low: u64, high: u64) -> Result<Node, Fault>
        ensures checked { result ≡ accept_node self.now n
            (record { v = v; low = low; high = high }) }
        ensures code { IfErr result (λ fault. IsTrue (is_diagram_fault fault)) }
    {
        if self.nodes.len() >= MAX_NODES {
            return Err(Fault::new(code::LIMIT));
        }
        if n != self.nodes.len() as u64 + 2
            || v >= u64::from(self.variables)
            || low >= n
            || high >= n
        {
            return Err(Fault::new(code::NODE));
        }
        Ok(Node {
            v: v as u32,
            low: low as u32,
            high: high as u32,
        })
    }

    /// Returns the chain of a line, if it is valid as the next one.
    #[tactic(auto, unfolding(crate::specs::Facts::accept_chain, crate::specs::Chain::is_valid_chain))]
    fn accepted_chain(&self, n: u64, columns: &ChainColumns<'_>) -> Result<Chain, Fault>
        ensures checked { result ≡ accept_chain self.now n
            (chain_named self.now.columns columns.now) }
        ensures code { IfErr result (λ fault. IsTrue (is_diagram_fault fault)) }
    {
        if self.chains.len() >= MAX_CHAINS {
            return Err(Fault::new(code::LIMIT));
        }
        match self.in_range(columns) {
            Some(chain) if n == self.chains.len() as u64 && self.is_step(chain) => Ok(chain),
            _ => Err(Fault::new(code::CHAIN_ROW)),
        }
    }

    /// Returns the product row of these fields, if it is valid as the next one.
    #[tactic(auto, unfolding(crate::specs::Facts::accept_product, crate::specs::Product::is_valid_product))]
    fn accepted_row(
        &self,
        n: u64,
        op: Connective,
        a: u64,
        b: u64,
        c: u64,
        reason: Reason,
    ) -> Result<Product, Fault>
        ensures checked { result ≡ accept_product self.now n
            (record { op = op; a = a; b = b; c = c }) reason }
        ensures code { IfErr result (λ fault. IsTrue (is_diagram_fault fault)) }
    {
        if self.products.len() >= MAX_PRODUCTS {
            return Err(Fault::new(code::LIMIT));
        }
        let next = 2 + self.nodes.len() as u64;
        if n != self.products.len() as u64 || a >= next || b >= next || c >= next {
            return Err(Fault::new(code::PRODUCT_ROW));
        }
        let row = Product {
            op,
            a: a as u32,
            b: b as u32,
            c: c as u32,
        };
        if !row.follows(self.variables, &self.nodes, &self.products, reason) {
            return Err(Fault::new(code::PRODUCT_ROW));
        }
        Ok(row)
    }

    /// Returns the node of a number, or None for a terminal.
    pub fn node(&self, n: u64) -> Option<Node>
        ensures { result ≡ node_at self.now.nodes n }
    {
        node::node_at(&self.nodes, n)
    }

    /// Returns the chain of a number.
    pub fn chain(&self, n: u64) -> Option<Chain>
        ensures { result ≡ slice_get self.now.chains n }
    {
        self.chains.get(n as usize).copied()
    }

    /// Returns the product row of a number.
    pub fn row(&self, n: u64) -> Option<Product>
        ensures { result ≡ slice_get self.now.products n }
    {
        self.products.get(n as usize).copied()
    }
}
