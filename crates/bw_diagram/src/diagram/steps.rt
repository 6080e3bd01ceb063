//! The rule of chains: each chain follows from the chain over the bits below its top bit.
ghost use Rattle.std.specs.Prelude.{◌≡◌, ◌+◌, ◌<◌, ◌≤◌, ◌^◌, Some, length, IsTrue, IfSome};
ghost use Rattle.std.specs.Option.{ForSome};
ghost use Rattle.std.specs.Bool.{OnTrue};
ghost use Rattle.bw_diagram.specs.Node.{is_node};
ghost use Rattle.bw_diagram.specs.Chain.{chain_named, variable_at, in_range, is_within, is_step};
ghost use Rattle.bw_diagram.specs.Chain.{is_earlier, node_before, chooses, leads, leads_always};
ghost use Rattle.bw_diagram.specs.Chain.{step, occurs, length_of, end_of};

use super::Diagram;
use crate::chain::{Chain, ChainColumns, ChainKind, is_choice};
use crate::node::{Node, cofactor};

impl Diagram<'_> {
    /// Returns the chain of a line's fields, if they name columns, a node, an earlier chain, and
    /// bits of the columns.
    #[tactic(auto, unfolding(crate::specs::Chain::is_in_range))]
    pub(super) fn in_range(&self, columns: &ChainColumns<'_>) -> Option<Chain>
        ensures range { result ≡ in_range self.now.columns self.now.nodes self.now.chains
            (chain_named self.now.columns columns.now) }
        ensures within { IfSome result (λ chain. IsTrue (is_within self.now.columns chain)) }
        ensures short { IfSome result (λ chain. end_of chain ≤ 63) }
    {
        match *columns {
            ChainColumns::One {
                kind,
                column,
                start,
                len,
                bound,
                node,
                prev,
            } => {
                let col = self.schema.column_named(column)?;
                let width = u64::from(self.schema.width(col));
                if !self.is_node(node)
                    || !self.is_earlier(prev)
                    || start > width
                    || len > width - start
                    || bound >= 1 << len
                {
                    return None;
                }
                Some(Chain::One {
                    kind: kind,
                    col: col as u32,
                    start: start as u32,
                    len: len as u32,
                    bound: bound,
                    node: node as u32,
                    prev: narrow(prev),
                })
            }
            ChainColumns::Two {
                kind,
                left,
                right,
                len,
                node,
                prev,
            } => {
                let left = self.schema.column_named(left)?;
                let right = self.schema.column_named(right)?;
                let width = self.schema.width(left).max(self.schema.width(right));
                if !self.is_node(node)
                    || !self.is_earlier(prev)
                    || left == right
                    || len > u64::from(width)
                {
                    return None;
                }
                Some(Chain::Two {
                    kind: kind,
                    left: left as u32,
                    right: right as u32,
                    len: len as u32,
                    node: node as u32,
                    prev: narrow(prev),
                })
            }
        }
    }

    /// Returns whether a number is that of a node.
    fn is_node(&self, number: u64) -> bool
        ensures node { result ≡ is_node self.now.nodes number }
        ensures small { OnTrue result (number < 2 ^ 32) }
    {
        number < self.nodes.len() as u64 + 2
    }

    /// Returns whether a chain's line names an earlier chain, or none.
    fn is_earlier(&self, prev: Option<u64>) -> bool
        ensures earlier { result ≡ is_earlier self.now.chains prev }
        ensures small { OnTrue result (ForSome prev (λ n. n < 2 ^ 32)) }
    {
        match prev {
            Some(prev) => prev < self.chains.len() as u64,
            None => true,
        }
    }

    /// Returns whether a chain follows from the chain over the bits below its top bit, or is over
    /// no bits.
    #[tactic(auto, unfolding(crate::specs::Chain::is_step))]
    pub(super) fn is_step(&self, chain: Chain) -> bool
        requires within { IsTrue (is_within self.now.columns chain) }
        requires short { end_of chain ≤ 63 }
        ensures { result ≡ is_step self.now.columns self.now.nodes self.now.chains chain }
    {
        let len = chain.len();
        if len == 0 {
            return chain.prev().is_none() && chain.node() == chain.kind().first_node();
        }
        match self.node_before(chain, len - 1) {
            Some(e) => self.chooses(chain, len - 1, e),
            None => false,
        }
    }

    /// Returns the node of the previous chain, if it is over the `lower` bits.
    fn node_before(&self, chain: Chain, lower: u32) -> Option<u32>
        requires { lower < 63 }
        ensures { result ≡ node_before self.now.chains chain lower }
    {
        let before = *self.chains.get(chain.prev()? as usize)?;
        chain.node_of_lower(lower, before)
    }

    /// Returns whether a chain's node chooses by its top bits between the nodes that follow from
    /// node `e`.
    fn chooses(&self, chain: Chain, place: u32, e: u32) -> bool
        requires within { IsTrue (is_within self.now.columns chain) }
        requires place { place < length_of chain }
        requires short { end_of chain ≤ 63 }
        ensures { result ≡ chooses self.now.columns self.now.nodes chain place e }
    {
        match chain {
            Chain::One {
                kind,
                col,
                start,
                bound,
                node,
                ..
            } => {
                let v = self.schema.var_bit(col as usize, start + place);
                let top = (bound >> place) & 1 == 1;
                let (low, high) = (kind.outcome(false, top, e), kind.outcome(true, top, e));
                is_choice(&self.nodes, v, low, high, node)
            }
            Chain::Two {
                kind,
                left,
                right,
                node,
                ..
            } => {
                let left = self.variable_at(left, place);
                let right = self.variable_at(right, place);
                leads_always(&self.nodes, kind, left, right, e, node)
            }
        }
    }

    /// Returns the variable of a column's bit, or None if the bit isn't below the column's width.
    fn variable_at(&self, col: u32, place: u32) -> Option<u32>
        requires { col < length self.now.columns }
        ensures { result ≡ variable_at self.now.columns col place }
    {
        let width = self.schema.width(col as usize);
        if place < width {
            Some(self.schema.var_bit(col as usize, place))
        } else {
            None
        }
    }
}

/// Returns whether all bits that can occur at two variables lead from a node to their outcome,
/// given `e`.
fn leads_always(
    nodes: &[Node],
    kind: ChainKind,
    left: Option<u32>,
    right: Option<u32>,
    e: u32,
    node: u32,
) -> bool
    ensures { result ≡ leads_always nodes.now kind left right e node }
{
    leads(nodes, kind, left, right, e, node, (false, false))
        && leads(nodes, kind, left, right, e, node, (false, true))
        && leads(nodes, kind, left, right, e, node, (true, false))
        && leads(nodes, kind, left, right, e, node, (true, true))
}

/// Returns whether these bits, if they can occur at the two variables, lead from a node to their
/// outcome, given `e`.
fn leads(
    nodes: &[Node],
    kind: ChainKind,
    left: Option<u32>,
    right: Option<u32>,
    e: u32,
    node: u32,
    bits: (bool, bool),
) -> bool
    ensures { result ≡ leads nodes.now kind left right e node bits.0 bits.1 }
{
    let (x, y) = bits;
    !(occurs(left, x) && occurs(right, y))
        || step(nodes, right, y, step(nodes, left, x, node)) == kind.outcome(x, y, e)
}

/// Returns whether a bit can occur; without a variable it is 0.
fn occurs(v: Option<u32>, bit: bool) -> bool
    ensures { result ≡ occurs v bit }
{
    !bit || v.is_some()
}

/// Returns the child of a node for a bit, if the node tests the bit's variable, else the node
/// itself.
fn step(nodes: &[Node], v: Option<u32>, bit: bool, node: u32) -> u32
    ensures { result ≡ step nodes.now v bit node }
{
    match v {
        Some(v) => cofactor(nodes, u64::from(v), bit, node),
        None => node,
    }
}

/// Returns the number of a chain in 32 bits.
fn narrow(prev: Option<u64>) -> Option<u32>
    requires { ForSome prev (λ n. n < 2 ^ 32) }
    ensures { result ≡ prev }
{
    match prev {
        Some(n) => Some(n as u32),
        None => None,
    }
}
