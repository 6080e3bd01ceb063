//! The nodes that later lines reference, by the product rows and chains that state their values.
ghost use Rattle.std.specs.Prelude.{◌≡◌};
ghost use Rattle.bw_diagram.specs.References.{product_node, comparison_node, two_column_node};
ghost use Rattle.bw_diagram.specs.References.{variable_node, HaveStatedValues};
ghost use Rattle.bw_diagram.specs.Facts.{Facts, AreTrue};

use crate::chain::ChainKind;
use crate::diagram::Diagram;
use crate::product::Connective;

impl Diagram<'_> {
    /// Returns the node that product row `number` states to be the connective of `a` and `b`, or
    /// None if it isn't a row of these.
    #[tactic(auto, unfolding(crate::specs::References::product_node))]
    pub fn product_node(&self, op: Connective, a: u64, b: u64, number: u64) -> Option<u64>
        ensures { result ≡ product_node self.now op a b number }
    {
        let row = self.row(number)?;
        if row.op == op && u64::from(row.a) == a && u64::from(row.b) == b {
            Some(u64::from(row.c))
        } else {
            None
        }
    }

    /// Returns the node by which chain `number` compares `len` bits of column `col`, from bit
    /// `start` upwards, with `bound`, or None if it isn't a chain of these.
    #[tactic(auto, unfolding(crate::specs::References::comparison_node))]
    pub fn comparison_node(
        &self,
        kind: ChainKind,
        col: u32,
        start: u32,
        len: u32,
        bound: u64,
        number: u64,
    ) -> Option<u64>
        ensures { result ≡ comparison_node self.now kind col start len bound number }
    {
        self.chain(number)?
            .node_of_one(kind, col, start, len, bound)
            .map(u64::from)
    }

    /// Returns the node by which chain `number` compares the low `len` bits of two columns, or None
    /// if it isn't a chain of these.
    #[tactic(auto, unfolding(crate::specs::References::two_column_node))]
    pub fn two_column_node(
        &self,
        kind: ChainKind,
        left: u32,
        right: u32,
        len: u32,
        number: u64,
    ) -> Option<u64>
        ensures { result ≡ two_column_node self.now kind left right len number }
    {
        self.chain(number)?
            .node_of_two(kind, left, right, len)
            .map(u64::from)
    }

    /// Returns `number`, or None if the node doesn't have the value of variable `v`: it must test
    /// `v`, with children 0 and 1.
    #[tactic(auto, unfolding(crate::specs::References::is_variable))]
    pub fn variable_node(&self, v: u32, number: u64) -> Option<u64>
        ensures { result ≡ variable_node self.now v number }
    {
        let node = self.node(number)?;
        if node.v == v && node.low == 0 && node.high == 1 {
            Some(number)
        } else {
            None
        }
    }
}

/// A law: if all facts of a diagram are true, every node that can be referenced has the value that
/// the reference states.
pub fn cited_nodes_have_stated_values()
    ensures { (facts : Facts) → AreTrue facts → HaveStatedValues facts }
{}
