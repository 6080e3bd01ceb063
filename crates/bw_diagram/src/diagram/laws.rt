//! Laws: the facts of a diagram are true of every assignment, and later lines change no node's
//! value.
ghost use Rattle.std.specs.Prelude.{◌≡◌, ◌-◌, ◌≤◌, ℕ, false, true, List, ◌++◌, Some, Option, Ok};
ghost use Rattle.std.specs.Prelude.{slice_get};
ghost use Rattle.bw_model.specs.declared.column.Column.{Column};
ghost use Rattle.bw_model.specs.Code.{width_at};
ghost use Rattle.bw_model.specs.StoredCodes.{number_spelled};
ghost use Rattle.bw_model.specs.Variable.{Assignment, bit_variable, binary_number};
ghost use Rattle.bw_diagram.specs.declared.chain.Chain.{Chain};
ghost use Rattle.bw_diagram.specs.declared.node.Node.{Node};
ghost use Rattle.bw_diagram.specs.declared.product.Product.{Product};
ghost use Rattle.bw_diagram.specs.declared.product.Reason.{Reason};
ghost use Rattle.bw_diagram.specs.Node.{IsNode, node_at, node_value, child};
ghost use Rattle.bw_diagram.specs.Chain.{IsChain, padded_number};
ghost use Rattle.bw_diagram.specs.Product.{IsProduct};
ghost use Rattle.bw_diagram.specs.Facts.{Facts, AreTrue, no_facts, with_node, with_chain};
ghost use Rattle.bw_diagram.specs.Facts.{with_product};

use super::Diagram;

impl Diagram<'_> {
    /// A law: the values of nodes under an assignment.
    pub fn nodes_choose(&self)
        ensures zero { (assignment : Assignment) → node_value self.now.nodes assignment 0 ≡ false }
        ensures one { (assignment : Assignment) → node_value self.now.nodes assignment 1 ≡ true }
        ensures node { (n : ℕ) (node : Node) (assignment : Assignment)
            → node_at self.now.nodes n ≡ Some node
            → node_value self.now.nodes assignment n
            ≡ node_value self.now.nodes assignment (child (assignment node.v) node) }
    {
        let _ = &self.nodes;
    }

    /// A law: all facts are true.
    pub fn facts_are_true(&self)
        ensures { AreTrue self.now }
    {
        let _ = &self.nodes;
    }

    /// A law: each chain is true of every assignment.
    pub fn chains_are_true(&self)
        ensures { (n : ℕ) (chain : Chain) → slice_get self.now.chains n ≡ Some chain
            → IsChain self.now.columns self.now.nodes chain }
    {
        let _ = &self.chains;
    }

    /// A law: each product row is true of every assignment.
    pub fn products_are_true(&self)
        ensures { (n : ℕ) (row : Product) → slice_get self.now.products n ≡ Some row
            → IsProduct self.now.nodes row }
    {
        let _ = &self.products;
    }
}

/// A law on every list of nodes: later nodes change no node's value.
pub fn later_nodes_change_no_value()
    ensures { (nodes more : List Node) (assignment : Assignment) (n : ℕ) → IsNode nodes n
        → node_value (nodes ++ more) assignment n ≡ node_value nodes assignment n }
{}

/// A law on every list of columns: over as many bits as a column has, or more, its padded number is
/// the one that all its bits spell, from its top bit to bit 0.
pub fn whole_columns_are_spelled()
    ensures padded { (columns : List Column) (col len : ℕ) (assignment : Assignment)
        → width_at columns col ≤ len
        → padded_number columns col len assignment
        ≡ number_spelled columns col 0 (width_at columns col) assignment }
    ensures whole { (columns : List Column) (col : ℕ) (assignment : Assignment)
        → let width = width_at columns col in number_spelled columns col 0 width assignment
        ≡ binary_number assignment (bit_variable columns col (width - 1)) width }
{}

/// A law on lists of lines: the facts of accepted lines, beginning with no facts, are true.
pub fn accepted_lines_are_true()
    ensures start { (columns : List Column) → AreTrue (no_facts columns) }
    ensures node { (facts after : Facts) (n : ℕ) (node : Node) → AreTrue facts
        → with_node facts n node ≡ Ok after → AreTrue after }
    ensures chain { (facts after : Facts) (n : ℕ) (named : Option Chain) → AreTrue facts
        → with_chain facts n named ≡ Ok after → AreTrue after }
    ensures row { (facts after : Facts) (n : ℕ) (row : Product) (reason : Reason) → AreTrue facts
        → with_product facts n row reason ≡ Ok after → AreTrue after }
{}
