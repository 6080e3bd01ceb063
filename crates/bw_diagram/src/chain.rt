//! Chains: nodes that compare numbers bit by bit.
ghost use Rattle.std.specs.Prelude.{◌≡◌, ◌<◌};
ghost use Rattle.bw_diagram.specs.Node.{node_at};
ghost use Rattle.bw_diagram.specs.Chain.{outcome, first_node, node_of, prev_of, kind_of, length_of};
ghost use Rattle.bw_diagram.specs.Chain.{node_of_lower, node_of_one, node_of_two, is_choice};
ghost use Rattle.bw_diagram.specs.Chain.{leads_always};

use crate::node::{Node, cofactor, node_at};

/// The comparison of a chain's node: `Less` is "less than", `Equal` is "equal to".
#[derive(Clone, Copy, PartialEq, Eq)]
pub enum ChainKind {
    Less,
    Equal,
}

/// A chain row: a node that compares numbers. `prev` is the chain of one bit less.
#[derive(Clone, Copy)]
pub enum Chain {
    /// The node is 1 exactly if the number that bits `start` to `start + len - 1` of the column
    /// spell is less than (equal to) `bound`.
    One {
        kind: ChainKind,
        col: u32,
        start: u32,
        len: u32,
        bound: u64,
        node: u32,
        prev: Option<u32>,
    },
    /// The node is 1 exactly if the number of the low `len` bits of column `left` is less than
    /// (equal to) that of column `right`. Bits from a column's width on are 0.
    Two {
        kind: ChainKind,
        left: u32,
        right: u32,
        len: u32,
        node: u32,
        prev: Option<u32>,
    },
}

impl ChainKind {
    /// Returns the node of a comparison of two numbers without bits.
    pub(crate) const fn first_node(self) -> u32
        ensures { result ≡ first_node self }
    {
        match self {
            ChainKind::Less => 0,
            ChainKind::Equal => 1,
        }
    }

    /// Returns the node of a comparison of numbers with these top bits, if `e` is the node of the
    /// comparison of the numbers below the top bits.
    pub(crate) const fn outcome(self, x: bool, y: bool, e: u32) -> u32
        ensures { result ≡ outcome self x y e }
    {
        match (self, x, y) {
            (_, false, false) | (_, true, true) => e,
            (ChainKind::Less, false, true) => 1,
            (ChainKind::Less, true, false) | (ChainKind::Equal, _, _) => 0,
        }
    }
}

impl Chain {
    /// Returns the kind of its comparison.
    pub(crate) const fn kind(self) -> ChainKind
        ensures { result ≡ kind_of self }
    {
        match self {
            Chain::One { kind, .. } | Chain::Two { kind, .. } => kind,
        }
    }

    /// Returns how many bits it compares.
    pub(crate) const fn len(self) -> u32
        ensures { result ≡ length_of self }
    {
        match self {
            Chain::One { len, .. } | Chain::Two { len, .. } => len,
        }
    }

    /// Returns its node.
    pub(crate) const fn node(self) -> u32
        ensures { result ≡ node_of self }
    {
        match self {
            Chain::One { node, .. } | Chain::Two { node, .. } => node,
        }
    }

    /// Returns the number of the chain of one bit less.
    pub(crate) const fn prev(self) -> Option<u32>
        ensures { result ≡ prev_of self }
    {
        match self {
            Chain::One { prev, .. } | Chain::Two { prev, .. } => prev,
        }
    }

    /// Returns the node of another chain, if it is the same comparison over the `lower` bits below
    /// this chain's top bit.
    pub(crate) fn node_of_lower(self, lower: u32, other: Chain) -> Option<u32>
        requires { lower < 63 }
        ensures { result ≡ node_of_lower self lower other }
    {
        match self {
            Chain::One {
                kind,
                col,
                start,
                bound,
                ..
            } => other.node_of_one(kind, col, start, lower, bound % (1 << lower)),
            Chain::Two {
                kind,
                left,
                right,
                ..
            } => other.node_of_two(kind, left, right, lower),
        }
    }

    /// Returns its node, if it is a chain over one column of this kind, column, start, length and
    /// bound.
    pub(crate) fn node_of_one(
        self,
        kind: ChainKind,
        col: u32,
        start: u32,
        len: u32,
        bound: u64,
    ) -> Option<u32>
        ensures { result ≡ node_of_one kind col start len bound self }
    {
        match self {
            Chain::One {
                kind: k,
                col: c,
                start: s,
                len: l,
                bound: b,
                node,
                ..
            } if k == kind && c == col && s == start && l == len && b == bound => Some(node),
            _ => None,
        }
    }

    /// Returns its node, if it is a chain over two columns of this kind, these columns and this
    /// length.
    pub(crate) fn node_of_two(self, kind: ChainKind, left: u32, right: u32, len: u32) -> Option<u32>
        ensures { result ≡ node_of_two kind left right len self }
    {
        match self {
            Chain::Two {
                kind: k,
                left: l,
                right: r,
                len: n,
                node,
                ..
            } if k == kind && l == left && r == right && n == len => Some(node),
            _ => None,
        }
    }
}

/// Returns whether the node chooses between two nodes by a variable: it tests the variable and has
/// them as children, or they are the same and it is that node.
pub(crate) fn is_choice(nodes: &[Node], v: u32, low: u32, high: u32, node: u32) -> bool
    ensures { result ≡ is_choice nodes.now v low high node }
{
    let tested = match node_at(nodes, u64::from(node)) {
        Some(tests) => tests.v == v && tests.low == low && tests.high == high,
        None => false,
    };
    tested || (low == high && node == low)
}

/// The fields after a chain's number in its line. Columns are words, which may be no column's name.
/// They aren't copied: a text's lines lend theirs.
#[derive(Clone, Copy)]
pub enum ChainColumns<'a> {
    /// `LT|EQ column start len bound node prev`, the last a number or `-`.
    One {
        kind: ChainKind,
        column: &'a [u8],
        start: u64,
        len: u64,
        bound: u64,
        node: u64,
        prev: Option<u64>,
    },
    /// `LT2|EQ2 left right len node prev`.
    Two {
        kind: ChainKind,
        left: &'a [u8],
        right: &'a [u8],
        len: u64,
        node: u64,
        prev: Option<u64>,
    },
}
